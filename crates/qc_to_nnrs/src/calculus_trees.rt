// The programs of statements for trees of the calculus. A form with two parts or more makes one and hands it on.
ghost use Rattle.std.specs.Prelude.{◌≡◌, ◌≤◌, ◌+◌, ◌*◌, ◌^◌, ◌<◌, ◌++◌, [], ◌∷◌, IsTrue, IfOk, OnOk};
ghost use Rattle.qc_data.specs.Outcome.{IsKept, Mode};
ghost use Rattle.qc_nnrc.specs.Free.{IsClosed};
ghost use Rattle.qc_nnrc.specs.Meaning.{nnrc};
ghost use Rattle.qc_nnrc.specs.Sizes.{size};
ghost use Rattle.qc_nnrs.specs.Meaning.{nnrs};
ghost use Rattle.qc_nnrs.specs.Sizes as statements;
ghost use Rattle.qc_nnrs.specs.WellFormed.{well_formed};
ghost use Rattle.qc_nnrs.specs.declared.tree.NnrsExpr.TheVariants as expr;
ghost use Rattle.qc_nnrs.specs.declared.tree.NnrsStmt.TheVariants as stmt;
ghost use Rattle.qc_to_nnrs.specs.declared.steps.Step.TheVariants as step;
ghost use Rattle.qc_to_nnrs.specs.inner.Statements as trees;
ghost use Rattle.qc_types.specs.Schemas.{WorldOf};

use crate::names::{Names, renamed};
use crate::steps::{Block, Step, add, wrap};
use qc_containers::{Boxed, Memory, Name};
use qc_data::copy;
use qc_nnrc::Nnrc;
use qc_nnrs::{Nnrs, NnrsExpr, NnrsStmt};
use qc_ops::{Binary, Unary};
use std::alloc::Global;

// The program for a tree without free variables, which keeps its value in every mode and world, is well formed and is
// at most 32 times as large.
pub(crate) fn whole_tree(alloc: Global, e: &Nnrc) -> Result<Nnrs, Memory>
    requires closed { IsClosed e.now }
    requires small { size e.now ≤ 2 ^ 100 }
    ensures keeps { IfOk result
        (λ made. (m : Mode) (w : WorldOf) → IsKept (nnrc m w e.now []) (nnrs m w made)) }
    ensures good { IfOk result (λ made. IsTrue (well_formed made)) }
    ensures size { IfOk result (λ made. statements.size made ≤ 32 * size e.now) }
{
    whole(alloc, e)
}

// The same, by its definition.
fn whole(alloc: Global, e: &Nnrc) -> Result<Nnrs, Memory>
    requires { size e.now ≤ 2 ^ 100 }
    ensures { IfOk result (λ made. made ≡ trees.lowered e.now) }
{
    let body = setting(alloc, e, &Names::Nothing, 1, 0)?;
    Ok(Nnrs { body, result: 0 })
}

// The expression for a tree. The steps that it wants are put behind those that are there.
#[cycle(lowering)]
#[tactic(auto, using(crate::proofs::StepLaws::of_steps))]
fn tree_of(alloc: Global, e: &Nnrc, names: &Names, block: &mut Block) -> Result<NnrsExpr, Memory>
    requires { block.old.next + 2 * size e.now < 2 ^ 128 }
    ensures value { IfOk result
        (λ made. made ≡ (trees.lower e.now (trees.renaming_of names.now) block.old.next).1) }
    ensures steps { OnOk result (block.new.steps.items
        ≡ block.old.steps.items ++ (trees.lower e.now (trees.renaming_of names.now) block.old.next).0) }
    ensures next { OnOk result (block.new.next
        ≡ trees.after block.old.next (trees.lower e.now (trees.renaming_of names.now) block.old.next).0) }
    ensures few { OnOk result (block.new.next ≤ block.old.next + size e.now) }
{
    match e {
        Nnrc::Var(y) => Ok(NnrsExpr::Var(renamed(names, *y))),
        Nnrc::Const(d) => Ok(NnrsExpr::Const(copy(alloc, d)?)),
        Nnrc::Global(name) => global(alloc, name),
        Nnrc::Unary(op, a) => {
            let a = part_of(alloc, a.get(), names, block)?;
            of_one(alloc, op, a)
        }
        Nnrc::Binary(op, a, b) => {
            let a = part_of(alloc, a.get(), names, block)?;
            of_two(alloc, b.get(), names, block, *op, a)
        }
        Nnrc::Let(y, a, b) => {
            let a = part_of(alloc, a.get(), names, block)?;
            let_with(alloc, b.get(), names, block, *y, a)
        }
        Nnrc::For(y, a, b) => {
            let a = part_of(alloc, a.get(), names, block)?;
            for_with(alloc, b.get(), names, block, *y, a)
        }
        Nnrc::If(a, b, c) => {
            let a = part_of(alloc, a.get(), names, block)?;
            let k = block.next;
            let b = setting_part(alloc, b.get(), names, k + 1, k)?;
            if_with(alloc, c.get(), names, block, a, b)
        }
        Nnrc::Either(a, y, b, z, c) => {
            let a = part_of(alloc, a.get(), names, block)?;
            let b = set_under(alloc, b.get(), names, *y, block.next)?;
            either_with(alloc, c.get(), names, block, a, b, *z)
        }
    }
}

// The same in a box. While others are made, trees are held in boxes.
#[cycle(lowering)]
fn part_of(
    alloc: Global,
    e: &Nnrc,
    names: &Names,
    block: &mut Block,
) -> Result<Boxed<NnrsExpr>, Memory>
    requires { block.old.next + 2 * size e.now < 2 ^ 128 }
    ensures value { IfOk result
        (λ made. made ≡ (trees.lower e.now (trees.renaming_of names.now) block.old.next).1) }
    ensures steps { OnOk result (block.new.steps.items
        ≡ block.old.steps.items ++ (trees.lower e.now (trees.renaming_of names.now) block.old.next).0) }
    ensures next { OnOk result (block.new.next
        ≡ trees.after block.old.next (trees.lower e.now (trees.renaming_of names.now) block.old.next).0) }
    ensures few { OnOk result (block.new.next ≤ block.old.next + size e.now) }
{
    let tree = tree_of(alloc, e, names, block)?;
    Boxed::of(alloc, tree)
}

// An operator on an expression and one for a tree.
#[cycle(lowering)]
fn of_two(
    alloc: Global,
    b: &Nnrc,
    names: &Names,
    block: &mut Block,
    op: Binary,
    a: Boxed<NnrsExpr>,
) -> Result<NnrsExpr, Memory>
    requires { block.old.next + 2 * size b.now < 2 ^ 128 }
    ensures value { IfOk result (λ made. made
        ≡ expr.Binary op a (trees.lower b.now (trees.renaming_of names.now) block.old.next).1) }
    ensures steps { OnOk result (block.new.steps.items
        ≡ block.old.steps.items ++ (trees.lower b.now (trees.renaming_of names.now) block.old.next).0) }
    ensures next { OnOk result (block.new.next
        ≡ trees.after block.old.next (trees.lower b.now (trees.renaming_of names.now) block.old.next).0) }
    ensures few { OnOk result (block.new.next ≤ block.old.next + size b.now) }
{
    let b = part_of(alloc, b, names, block)?;
    Ok(NnrsExpr::Binary(op, a, b))
}

// A tree with the value of an expression as a variable.
#[cycle(lowering)]
#[tactic(auto, using(crate::proofs::StepLaws::of_steps))]
fn let_with(
    alloc: Global,
    b: &Nnrc,
    names: &Names,
    block: &mut Block,
    y: u128,
    a: Boxed<NnrsExpr>,
) -> Result<NnrsExpr, Memory>
    requires { block.old.next + 1 + 2 * size b.now < 2 ^ 128 }
    ensures value { IfOk result (λ made. made ≡ (trees.lower b.now
        ((y, block.old.next) ∷ trees.renaming_of names.now) (block.old.next + 1)).1) }
    ensures steps { OnOk result (block.new.steps.items
        ≡ trees.with_step block.old.steps.items (step.Value block.old.next a) ++ (trees.lower b.now
        ((y, block.old.next) ∷ trees.renaming_of names.now) (block.old.next + 1)).0) }
    ensures next { OnOk result (block.new.next ≡ trees.after (block.old.next + 1) (trees.lower b.now
        ((y, block.old.next) ∷ trees.renaming_of names.now) (block.old.next + 1)).0) }
    ensures few { OnOk result (block.new.next ≤ block.old.next + 1 + size b.now) }
{
    let k = block.next;
    add(block, Step::Value(k, a))?;
    tree_of(alloc, b, &Names::Bound(y, k, &*names), block)
}

// The variable of the collection of what a tree gives for each member of one.
#[cycle(lowering)]
fn for_with(
    alloc: Global,
    b: &Nnrc,
    names: &Names,
    block: &mut Block,
    y: u128,
    a: Boxed<NnrsExpr>,
) -> Result<NnrsExpr, Memory>
    requires { block.old.next + 2 + 2 * size b.now < 2 ^ 128 }
    ensures value { IfOk result (λ made. made ≡ expr.Var block.old.next) }
    ensures steps { OnOk result (block.new.steps.items ≡ trees.with_step block.old.steps.items
        (step.Collected block.old.next (trees.loop block.old.next a (trees.lower b.now
        ((y, block.old.next + 1) ∷ trees.renaming_of names.now) (block.old.next + 2))))) }
    ensures next { OnOk result (block.new.next ≡ block.old.next + 1) }
{
    let k = block.next;
    let body = push_under(alloc, b, names, y, k)?;
    let all = Boxed::of(alloc, NnrsStmt::For(k + 1, a, body))?;
    add(block, Step::Collected(k, all))?;
    Ok(NnrsExpr::Var(k))
}

// The variable that is set to the value of a branch, of which one is made.
#[cycle(lowering)]
fn if_with(
    alloc: Global,
    c: &Nnrc,
    names: &Names,
    block: &mut Block,
    a: Boxed<NnrsExpr>,
    b: Boxed<NnrsStmt>,
) -> Result<NnrsExpr, Memory>
    requires { block.old.next + 1 + 2 * size c.now < 2 ^ 128 }
    ensures value { IfOk result (λ made. made ≡ expr.Var block.old.next) }
    ensures steps { OnOk result (block.new.steps.items ≡ trees.with_step block.old.steps.items
        (step.Assigned block.old.next (stmt.If a b (trees.setting block.old.next
        (trees.lower c.now (trees.renaming_of names.now) (block.old.next + 1)))))) }
    ensures next { OnOk result (block.new.next ≡ block.old.next + 1) }
{
    let k = block.next;
    let c = setting_part(alloc, c, names, k + 1, k)?;
    let chosen = Boxed::of(alloc, NnrsStmt::If(a, b, c))?;
    add(block, Step::Assigned(k, chosen))?;
    Ok(NnrsExpr::Var(k))
}

// The variable that is set to what the tree for a side gives, of which one is made.
#[cycle(lowering)]
fn either_with(
    alloc: Global,
    c: &Nnrc,
    names: &Names,
    block: &mut Block,
    a: Boxed<NnrsExpr>,
    b: Boxed<NnrsStmt>,
    z: u128,
) -> Result<NnrsExpr, Memory>
    requires { block.old.next + 2 + 2 * size c.now < 2 ^ 128 }
    ensures value { IfOk result (λ made. made ≡ expr.Var block.old.next) }
    ensures steps { OnOk result (block.new.steps.items ≡ trees.with_step block.old.steps.items
        (step.Assigned block.old.next (stmt.Either a (block.old.next + 1) b (block.old.next + 1)
        (trees.setting block.old.next (trees.lower c.now
        ((z, block.old.next + 1) ∷ trees.renaming_of names.now) (block.old.next + 2)))))) }
    ensures next { OnOk result (block.new.next ≡ block.old.next + 1) }
{
    let k = block.next;
    let c = set_under(alloc, c, names, z, k)?;
    let chosen = Boxed::of(alloc, NnrsStmt::Either(a, k + 1, b, k + 1, c))?;
    add(block, Step::Assigned(k, chosen))?;
    Ok(NnrsExpr::Var(k))
}

// The statement that sets `k` to the value of a tree, with numbers from `n` on.
#[cycle(lowering)]
fn setting(alloc: Global, e: &Nnrc, names: &Names, n: u128, k: u128) -> Result<NnrsStmt, Memory>
    requires { n + 2 * size e.now < 2 ^ 128 }
    ensures { IfOk result
        (λ made. made ≡ trees.setting k (trees.lower e.now (trees.renaming_of names.now) n)) }
{
    let mut block = Block {
        steps: Vec::new(alloc),
        next: n,
    };
    let x = part_of(alloc, e, names, &mut block)?;
    wrap(alloc, block.steps, NnrsStmt::Set(k, x))
}

// The same in a box.
#[cycle(lowering)]
fn setting_part(
    alloc: Global,
    e: &Nnrc,
    names: &Names,
    n: u128,
    k: u128,
) -> Result<Boxed<NnrsStmt>, Memory>
    requires { n + 2 * size e.now < 2 ^ 128 }
    ensures { IfOk result
        (λ made. made ≡ trees.setting k (trees.lower e.now (trees.renaming_of names.now) n)) }
{
    let made = setting(alloc, e, names, n, k)?;
    Boxed::of(alloc, made)
}

// The statement that pushes the value of a tree to `k`, with numbers from `n` on.
#[cycle(lowering)]
fn pushing(alloc: Global, e: &Nnrc, names: &Names, n: u128, k: u128) -> Result<NnrsStmt, Memory>
    requires { n + 2 * size e.now < 2 ^ 128 }
    ensures { IfOk result
        (λ made. made ≡ trees.pushing k (trees.lower e.now (trees.renaming_of names.now) n)) }
{
    let mut block = Block {
        steps: Vec::new(alloc),
        next: n,
    };
    let x = part_of(alloc, e, names, &mut block)?;
    wrap(alloc, block.steps, NnrsStmt::Push(k, x))
}

// The statement that sets `k` to the value of a tree whose variable `y` stands behind `k`.
#[cycle(lowering)]
fn set_under(
    alloc: Global,
    e: &Nnrc,
    names: &Names,
    y: u128,
    k: u128,
) -> Result<Boxed<NnrsStmt>, Memory>
    requires { k + 2 + 2 * size e.now < 2 ^ 128 }
    ensures { IfOk result (λ made. made
        ≡ trees.setting k (trees.lower e.now ((y, k + 1) ∷ trees.renaming_of names.now) (k + 2))) }
{
    setting_part(alloc, e, &Names::Bound(y, k + 1, &*names), k + 2, k)
}

// The statement that pushes the value of a tree whose variable `y` stands behind `k` to it.
#[cycle(lowering)]
fn push_under(
    alloc: Global,
    e: &Nnrc,
    names: &Names,
    y: u128,
    k: u128,
) -> Result<Boxed<NnrsStmt>, Memory>
    requires { k + 2 + 2 * size e.now < 2 ^ 128 }
    ensures { IfOk result (λ made. made
        ≡ trees.pushing k (trees.lower e.now ((y, k + 1) ∷ trees.renaming_of names.now) (k + 2))) }
{
    let made = pushing(alloc, e, &Names::Bound(y, k + 1, &*names), k + 2, k)?;
    Boxed::of(alloc, made)
}

// A global.
fn global(alloc: Global, name: &Name) -> Result<NnrsExpr, Memory>
    ensures { IfOk result (λ made. made ≡ expr.Global name.now) }
{
    Ok(NnrsExpr::Global(name.copy(alloc)?))
}

// An operator of one operand.
fn of_one(alloc: Global, op: &Unary, a: Boxed<NnrsExpr>) -> Result<NnrsExpr, Memory>
    ensures { IfOk result (λ made. made ≡ expr.Unary op.now a) }
{
    Ok(NnrsExpr::Unary(op.copy(alloc)?, a))
}
