// The outcome of expressions in 64 bits.
ghost use Rattle.std.specs.Prelude.{true, false};
ghost use Rattle.qc_data.specs.Outcome.{and_then, bits64, Gives, GivesRef, Value};
ghost use Rattle.qc_data.specs.declared.data.Datum.TheVariants as datum;
ghost use Rattle.qc_imp.specs.Meaning.{cell_of, expr, value_in};
ghost use Rattle.qc_imp.specs.inner.Stores.{store_of};
ghost use Rattle.qc_data.specs.HeldOperands.{GivesHeld, datum_of};
ghost use Rattle.qc_ops.specs.Operands.{found};
ghost use Rattle.qc_ops.specs.Operators.{binary, unary};
ghost use Rattle.qc_ops.specs.Sides.{by_side};
ghost use Rattle.qc_trees.specs.Branches as forms;

use crate::store::Store;
use crate::tree::ImpExpr;
use qc_data::{Datum, Halt, Held, copy};
use qc_ops::{Binary, Unary, apply1, apply2_taking};
use qc_trees::{bool_of, field_of, global_of};
use qc_types::World;
use std::alloc::Global;

// The outcome of an expression by the declared variables.
#[cycle(expression)]
pub(crate) fn outcome(
    alloc: Global,
    e: &ImpExpr,
    world: &World,
    store: &Store,
) -> Result<Datum, Halt>
    ensures { Gives (expr bits64 world.now e.now (store_of store.now)) result }
{
    match e {
        ImpExpr::Var(x) => Ok(copy(alloc, value_of(store, *x)?)?),
        ImpExpr::Const(d) => Ok(copy(alloc, d)?),
        ImpExpr::Global(name) => Ok(copy(alloc, global_of(world, name)?)?),
        ImpExpr::Unary(op, a) => of_one(alloc, a.get(), world, store, op),
        ImpExpr::Binary(op, a, b) => {
            let u = held(alloc, a.get(), &*world, &*store)?;
            of_right(alloc, b.get(), world, store, op, u.get())
        }
        ImpExpr::IsLeft(a) => {
            let v = held(alloc, a.get(), &*world, &*store)?;
            is_left(v.get())
        }
        ImpExpr::Payload(a) => {
            let v = held(alloc, a.get(), &*world, &*store)?;
            content(alloc, v.get())
        }
    }
}

// The value of a variable.
pub(crate) fn value_of(store: &Store, x: u128) -> Result<&Datum, Halt>
    ensures { GivesRef (found (value_in (cell_of x (store_of store.now)))) result }
{
    match store.get(x) {
        Some(value) => Ok(value),
        None => Err(Halt::Stuck),
    }
}

// The outcome of an operand, which is lent where it stands somewhere.
#[cycle(expression)]
fn held<'a>(
    alloc: Global,
    e: &'a ImpExpr,
    world: &'a World,
    store: &'a Store,
) -> Result<Held<'a>, Halt>
    ensures { GivesHeld (expr bits64 world.now e.now (store_of store.now)) result }
{
    match e {
        ImpExpr::Var(x) => Ok(Held::Lent(value_of(store, *x)?)),
        ImpExpr::Const(d) => Ok(Held::Lent(d)),
        ImpExpr::Global(name) => Ok(Held::Lent(global_of(world, name)?)),
        ImpExpr::Unary(Unary::Dot(name), a) => {
            let owner = held(alloc, a.get(), world, store)?;
            field_of(alloc, name, owner)
        }
        ImpExpr::Payload(a) => {
            let owner = held(alloc, a.get(), world, store)?;
            payload_of(alloc, owner)
        }
        _ => Ok(Held::Made(outcome(alloc, &*e, &*world, &*store)?)),
    }
}

// An operator on the value of an expression.
#[cycle(expression)]
fn of_one(
    alloc: Global,
    a: &ImpExpr,
    world: &World,
    store: &Store,
    op: &Unary,
) -> Result<Datum, Halt>
    ensures { Gives
        (and_then (expr bits64 world.now a.now (store_of store.now)) (unary bits64 world.now.classes op.now)) result }
{
    let v = held(alloc, &*a, &*world, &*store)?;
    apply1(alloc, world.classes(), op, v.get())
}

// An operator on a left value and the value of an expression.
#[cycle(expression)]
fn of_right(
    alloc: Global,
    b: &ImpExpr,
    world: &World,
    store: &Store,
    op: &Binary,
    u: &Datum,
) -> Result<Datum, Halt>
    ensures { Gives (and_then (expr bits64 world.now b.now (store_of store.now)) (λ v. binary bits64 op.now u.now v))
        result }
{
    let v = held(alloc, &*b, &*world, &*store)?;
    apply2_taking(alloc, op, u, v)
}

// Whether the value is a left one; it is a left or a right one.
fn is_left(d: &Datum) -> Result<Datum, Halt>
    ensures { Gives (by_side (λ _. Value (datum.Bool true)) (λ _. Value (datum.Bool false)) d.now) result }
{
    match d {
        Datum::Left(_) => Ok(Datum::Bool(true)),
        Datum::Right(_) => Ok(Datum::Bool(false)),
        _ => Err(Halt::Stuck),
    }
}

// The content of a left or a right value.
fn content_of(d: &Datum) -> Result<&Datum, Halt>
    ensures { GivesRef (by_side (λ content. Value content) (λ content. Value content) d.now) result }
{
    match d {
        Datum::Left(content) | Datum::Right(content) => Ok(content.get()),
        _ => Err(Halt::Stuck),
    }
}

// A copy of the content.
fn content(alloc: Global, d: &Datum) -> Result<Datum, Halt>
    ensures { Gives (by_side (λ inner. Value inner) (λ inner. Value inner) d.now) result }
{
    Ok(copy(alloc, content_of(d)?)?)
}

// The same, lent where the value is.
fn payload_of<'a>(alloc: Global, owner: Held<'a>) -> Result<Held<'a>, Halt>
    ensures { GivesHeld (by_side (λ content. Value content) (λ content. Value content) (datum_of owner.entry)) result }
{
    match owner {
        Held::Lent(owner) => Ok(Held::Lent(content_of(owner)?)),
        Held::Made(owner) => Ok(Held::Made(copy(alloc, content_of(&owner)?)?)),
    }
}

// The truth value of a condition.
#[tactic(auto, unfolding(qc_trees::specs::Branches::truth))]
pub(crate) fn truth(
    alloc: Global,
    test: &ImpExpr,
    world: &World,
    store: &Store,
) -> Result<bool, Halt>
    ensures { Gives (forms.truth (expr bits64 world.now test.now (store_of store.now))) result }
{
    let holds = held(alloc, &*test, &*world, &*store)?;
    bool_of(holds.get())
}
