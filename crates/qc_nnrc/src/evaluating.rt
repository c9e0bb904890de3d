// The outcome of trees in 64 bits. A form with two parts evaluates one and lends its value to what takes the other.
ghost use Rattle.qc_data.specs.Outcome.{and_then, bits64, Gives, GivesRef};
ghost use Rattle.qc_nnrc.specs.Meaning as spec;
ghost use Rattle.qc_nnrc.specs.Meaning.{nnrc};
ghost use Rattle.qc_nnrc.specs.inner.Chains.{pairs_of};
ghost use Rattle.qc_nnrc.specs.Variables.{look};
ghost use Rattle.qc_ops.specs.Operands.{found};
ghost use Rattle.qc_ops.specs.Operators.{binary, unary};
ghost use Rattle.qc_trees.specs.Branches as forms;
ghost use Rattle.qc_data.specs.HeldOperands.{GivesHeld};

use crate::bindings::Frame;
use crate::chain::{Chain, binding};
use crate::tree::Nnrc;
use qc_data::{Datum, Halt, Held, Items, copy};
use qc_ops::{Binary, Unary, apply1, apply2_taking};
use qc_trees::{bool_of, field_of, global_of, items_of};
use qc_types::World;
use std::alloc::Global;

/// The outcome of the tree in 64 bits, in a world, by the values of variables. `Range`: an integer that it makes has
/// more; `Stuck`: a value is of another kind than a form needs, a variable has no value, or the world has no global of
/// a name; `Memory`: memory was wanting.
pub fn eval_at(alloc: Global, e: &Nnrc, world: &World, frame: &Frame) -> Result<Datum, Halt>
    ensures { Gives (nnrc bits64 world.now e.now frame.now) result }
{
    outcome(alloc, e, world, &Chain::Whole(frame))
}

// The outcome of a tree by a chain of bindings.
#[cycle(eval)]
fn outcome(alloc: Global, e: &Nnrc, world: &World, chain: &Chain<Datum>) -> Result<Datum, Halt>
    ensures { Gives (nnrc bits64 world.now e.now (pairs_of chain.now)) result }
{
    match e {
        Nnrc::Var(x) => Ok(copy(alloc, bound_at(chain, *x)?)?),
        Nnrc::Const(d) => Ok(copy(alloc, d)?),
        Nnrc::Global(name) => Ok(copy(alloc, global_of(world, name)?)?),
        Nnrc::Unary(op, a) => of_one(alloc, a.get(), world, chain, op),
        Nnrc::Binary(op, a, b) => {
            let u = held(alloc, a.get(), &*world, &*chain)?;
            of_right(alloc, b.get(), world, chain, op, u.get())
        }
        Nnrc::Let(x, a, b) => {
            let v = held(alloc, a.get(), &*world, &*chain)?;
            bound_to(alloc, b.get(), world, chain, *x, v.get())
        }
        Nnrc::For(x, a, b) => {
            let v = held(alloc, a.get(), &*world, &*chain)?;
            for_of(alloc, b.get(), world, chain, *x, v.get())
        }
        Nnrc::If(a, b, c) => {
            if truth(alloc, a.get(), world, chain)? {
                outcome(alloc, b.get(), world, chain)
            } else {
                outcome(alloc, c.get(), world, chain)
            }
        }
        Nnrc::Either(a, x, b, y, c) => {
            let v = held(alloc, a.get(), &*world, &*chain)?;
            match v.get() {
                Datum::Left(content) => bound_to(alloc, b.get(), world, chain, *x, content.get()),
                Datum::Right(content) => bound_to(alloc, c.get(), world, chain, *y, content.get()),
                _ => Err(Halt::Stuck),
            }
        }
    }
}

// The value of a variable.
fn bound_at<'a>(chain: &'a Chain<'a, Datum>, x: u128) -> Result<&'a Datum, Halt>
    ensures { GivesRef (found (look x (pairs_of chain.now))) result }
{
    match binding(chain, x) {
        Some(value) => Ok(value),
        None => Err(Halt::Stuck),
    }
}

// The outcome of an operand, which is lent where it stands somewhere.
#[cycle(eval)]
fn held<'a>(
    alloc: Global,
    e: &'a Nnrc,
    world: &'a World,
    chain: &'a Chain<'a, Datum>,
) -> Result<Held<'a>, Halt>
    ensures { GivesHeld (nnrc bits64 world.now e.now (pairs_of chain.now)) result }
{
    match e {
        Nnrc::Var(x) => Ok(Held::Lent(bound_at(chain, *x)?)),
        Nnrc::Const(d) => Ok(Held::Lent(d)),
        Nnrc::Global(name) => Ok(Held::Lent(global_of(world, name)?)),
        Nnrc::Unary(Unary::Dot(name), a) => {
            let owner = held(alloc, a.get(), world, chain)?;
            field_of(alloc, name, owner)
        }
        _ => Ok(Held::Made(outcome(alloc, &*e, &*world, &*chain)?)),
    }
}

// An operator on the value of a tree.
#[cycle(eval)]
fn of_one(
    alloc: Global,
    a: &Nnrc,
    world: &World,
    chain: &Chain<Datum>,
    op: &Unary,
) -> Result<Datum, Halt>
    ensures { Gives
        (and_then (nnrc bits64 world.now a.now (pairs_of chain.now)) (unary bits64 world.now.classes op.now)) result }
{
    let v = held(alloc, &*a, &*world, &*chain)?;
    apply1(alloc, world.classes(), op, v.get())
}

// An operator on a left value and the value of a tree.
#[cycle(eval)]
fn of_right(
    alloc: Global,
    b: &Nnrc,
    world: &World,
    chain: &Chain<Datum>,
    op: &Binary,
    u: &Datum,
) -> Result<Datum, Halt>
    ensures { Gives (and_then (nnrc bits64 world.now b.now (pairs_of chain.now)) (λ v. binary bits64 op.now u.now v))
        result }
{
    let v = held(alloc, &*b, &*world, &*chain)?;
    apply2_taking(alloc, op, u, v)
}

// The truth value of a condition.
#[cycle(eval)]
#[tactic(auto, unfolding(qc_trees::specs::Branches::truth))]
fn truth(alloc: Global, test: &Nnrc, world: &World, chain: &Chain<Datum>) -> Result<bool, Halt>
    ensures { Gives (forms.truth (nnrc bits64 world.now test.now (pairs_of chain.now))) result }
{
    let holds = held(alloc, &*test, &*world, &*chain)?;
    bool_of(holds.get())
}

// A body with the value as its variable.
#[cycle(eval)]
#[tactic(auto, unfolding(crate::specs::Meaning::bound_to))]
fn bound_to(
    alloc: Global,
    body: &Nnrc,
    world: &World,
    chain: &Chain<Datum>,
    x: u128,
    value: &Datum,
) -> Result<Datum, Halt>
    ensures { Gives (spec.bound_to x (nnrc bits64 world.now body.now) (pairs_of chain.now) value.now) result }
{
    outcome(alloc, body, world, &Chain::Bind(x, &*value, &*chain))
}

// What a body makes of each member of a collection as its variable.
#[cycle(eval)]
#[tactic(auto, using(qc_data::proofs::Outcomes::gather_is), unfolding(crate::specs::Meaning::for_of))]
fn for_of(
    alloc: Global,
    body: &Nnrc,
    world: &World,
    chain: &Chain<Datum>,
    x: u128,
    source: &Datum,
) -> Result<Datum, Halt>
    ensures { Gives (spec.for_of x (nnrc bits64 world.now body.now) (pairs_of chain.now) source.now) result }
{
    let items = items_of(source)?;
    let mut all = Items::new(alloc);
    for item in items.as_slice() {
        all.add(bound_to(alloc, body, world, chain, x, item)?)?;
    }
    Ok(Datum::Coll(all))
}
