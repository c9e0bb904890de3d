// The values of expressions in 64 bits. An operator on two values evaluates one and lends it to what takes the other.
ghost use Rattle.qc_data.specs.Outcome.{and_then, bits64, Gives, GivesRef};
ghost use Rattle.qc_nnrs.specs.Meaning.{class_of, expr, value_in};
ghost use Rattle.qc_nnrs_store.specs.Chains.{frame_of};
ghost use Rattle.qc_data.specs.HeldOperands.{GivesHeld};
ghost use Rattle.qc_ops.specs.Operands.{found};
ghost use Rattle.qc_ops.specs.Operators.{binary, unary};
ghost use Rattle.qc_trees.specs.Branches as forms;

use crate::tree::NnrsExpr;
use qc_data::{Datum, Halt, Held, copy};
use qc_nnrs_store::{Chain, value_in};
use qc_ops::{Binary, Unary, apply1, apply2_taking};
use qc_trees::{bool_of, field_of, global_of};
use qc_types::World;
use std::alloc::Global;

// The value of an expression by a chain of bindings.
#[cycle(eval)]
pub(crate) fn value(
    alloc: Global,
    e: &NnrsExpr,
    world: &World,
    chain: &Chain,
) -> Result<Datum, Halt>
    ensures { Gives (expr bits64 world.now e.now (frame_of chain.now)) result }
{
    match e {
        NnrsExpr::Var(x) => Ok(copy(alloc, bound_at(chain, *x)?)?),
        NnrsExpr::Const(d) => Ok(copy(alloc, d)?),
        NnrsExpr::Global(name) => Ok(copy(alloc, global_of(world, name)?)?),
        NnrsExpr::Unary(op, a) => of_one(alloc, a.get(), world, chain, op),
        NnrsExpr::Binary(op, a, b) => {
            let u = held(alloc, a.get(), &*world, &*chain)?;
            of_right(alloc, b.get(), world, chain, op, u.get())
        }
    }
}

// The value of a variable that is read.
fn bound_at<'a>(chain: &'a Chain<'a>, x: u128) -> Result<&'a Datum, Halt>
    ensures { GivesRef (found (value_in (class_of x (frame_of chain.now)))) result }
{
    match value_in(chain, x) {
        Some(value) => Ok(value),
        None => Err(Halt::Stuck),
    }
}

// The value of an expression, which is lent where it stands somewhere.
#[cycle(eval)]
pub(crate) fn held<'a>(
    alloc: Global,
    e: &'a NnrsExpr,
    world: &'a World,
    chain: &'a Chain<'a>,
) -> Result<Held<'a>, Halt>
    ensures { GivesHeld (expr bits64 world.now e.now (frame_of chain.now)) result }
{
    match e {
        NnrsExpr::Var(x) => Ok(Held::Lent(bound_at(chain, *x)?)),
        NnrsExpr::Const(d) => Ok(Held::Lent(d)),
        NnrsExpr::Global(name) => Ok(Held::Lent(global_of(world, name)?)),
        NnrsExpr::Unary(Unary::Dot(name), a) => {
            let owner = held(alloc, a.get(), world, chain)?;
            field_of(alloc, name, owner)
        }
        _ => Ok(Held::Made(value(alloc, &*e, &*world, &*chain)?)),
    }
}

// An operator on the value of an expression.
#[cycle(eval)]
fn of_one(
    alloc: Global,
    a: &NnrsExpr,
    world: &World,
    chain: &Chain,
    op: &Unary,
) -> Result<Datum, Halt>
    ensures { Gives
        (and_then (expr bits64 world.now a.now (frame_of chain.now)) (unary bits64 world.now.classes op.now)) result }
{
    let v = held(alloc, &*a, &*world, &*chain)?;
    apply1(alloc, world.classes(), op, v.get())
}

// An operator on a left value and the value of an expression.
#[cycle(eval)]
fn of_right(
    alloc: Global,
    b: &NnrsExpr,
    world: &World,
    chain: &Chain,
    op: &Binary,
    u: &Datum,
) -> Result<Datum, Halt>
    ensures { Gives (and_then (expr bits64 world.now b.now (frame_of chain.now)) (λ v. binary bits64 op.now u.now v))
        result }
{
    let v = held(alloc, &*b, &*world, &*chain)?;
    apply2_taking(alloc, op, u, v)
}

// The truth value of a condition.
#[tactic(auto, unfolding(qc_trees::specs::Branches::truth))]
pub(crate) fn truth(
    alloc: Global,
    test: &NnrsExpr,
    world: &World,
    chain: &Chain,
) -> Result<bool, Halt>
    ensures { Gives (forms.truth (expr bits64 world.now test.now (frame_of chain.now))) result }
{
    let holds = held(alloc, &*test, &*world, &*chain)?;
    bool_of(holds.get())
}
