// Steps, and statements behind them.
ghost use Rattle.std.specs.Prelude.{◌≡◌, ◌+◌, ◌<◌, ◌^◌, IfOk, OnOk};
ghost use Rattle.qc_to_nnrs.specs.inner.Statements as trees;

use qc_containers::{Boxed, Memory};
use qc_nnrs::{NnrsExpr, NnrsStmt};
use std::alloc::Global;

// A variable of the program, and what it stands for behind the step.
#[derive(Drop)]
pub(crate) enum Step {
    // The value of the expression.
    Value(u128, Boxed<NnrsExpr>),
    // The last value that the statement sets it to.
    Assigned(u128, Boxed<NnrsStmt>),
    // The collection of all that the statement pushes to it.
    Collected(u128, Boxed<NnrsStmt>),
}

// A step before a statement.
fn bind(alloc: Global, step: Step, s: NnrsStmt) -> Result<NnrsStmt, Memory>
    ensures { IfOk result (λ made. made ≡ trees.bind step s) }
{
    let s = Boxed::of(alloc, s)?;
    match step {
        Step::Value(n, x) => Ok(NnrsStmt::Let(n, x, s)),
        Step::Assigned(n, a) => Ok(NnrsStmt::LetMut(n, a, s)),
        Step::Collected(n, a) => Ok(NnrsStmt::LetColl(n, a, s)),
    }
}

// Steps before a statement, the first one outermost.
#[tactic(auto, using(crate::proofs::StepLaws::wrap_last))]
pub(crate) fn wrap(alloc: Global, steps: Vec<Step>, s: NnrsStmt) -> Result<NnrsStmt, Memory>
    ensures { IfOk result (λ made. made ≡ trees.wrap steps.items s) }
{
    let mut steps = steps;
    let mut made = s;
    while let Some(step) = steps.pop() {
        made = bind(alloc, step, made)?;
    }
    Ok(made)
}

// Steps with numbers that rise, and the number behind them.
#[derive(Drop)]
pub(crate) struct Block {
    // The steps.
    pub(crate) steps: Vec<Step>,
    // The first number that is free behind them.
    pub(crate) next: u128,
}

// A step behind the others.
pub(crate) fn add(block: &mut Block, step: Step) -> Result<(), Memory>
    requires { block.old.next + 1 < 2 ^ 128 }
    ensures steps { OnOk result (block.new.steps.items ≡ trees.with_step block.old.steps.items step) }
    ensures next { OnOk result (block.new.next ≡ block.old.next + 1) }
{
    block.steps.push(step)?;
    block.next += 1;
    Ok(())
}
