// The outcome of trees in 64 bits. A form with two parts evaluates one and lends its value to what takes the other.
ghost use Rattle.qc_data.specs.Outcome.{and_then, bits64, Gives};
ghost use Rattle.qc_nra.specs.Forms as forms;
ghost use Rattle.qc_nra.specs.Meaning.{nra};
ghost use Rattle.qc_nra.specs.inner.Added.{Adds};
ghost use Rattle.qc_ops.specs.Operators.{binary, unary};
ghost use Rattle.qc_trees.specs.Branches as branches;
ghost use Rattle.qc_data.specs.HeldOperands.{GivesHeld};

use crate::operands::{add_beside, fields_of, only_bag, product_of};
use crate::tree::Nra;
use qc_containers::Share;
use qc_data::{Datum, Halt, Held, Items, copy};
use qc_ops::{Binary, Unary, apply1, apply2_taking};
use qc_trees::{bool_of, field_of, global_of, items_of};
use qc_types::World;
use std::alloc::Global;

/// The outcome of the tree in 64 bits, in a world, by its input and its environment. `Range`: an integer that it makes
/// has more; `Stuck`: a value is of another kind than a form needs, or the world has no global of a name; `Memory`:
/// memory was wanting.
#[cycle(eval)]
pub fn eval_at(
    alloc: Global,
    q: &Nra,
    world: &World,
    input: &Datum,
    env: &Datum,
) -> Result<Datum, Halt>
    ensures { Gives (nra bits64 world.now q.now input.now env.now) result }
{
    match q {
        Nra::Const(d) => Ok(copy(alloc, d)?),
        Nra::Input => Ok(copy(alloc, input)?),
        Nra::Env => Ok(copy(alloc, env)?),
        Nra::Global(name) => Ok(copy(alloc, global_of(world, name)?)?),
        Nra::Unary(op, a) => of_one(alloc, a.get(), world, input, env, op),
        Nra::Binary(op, a, b) => {
            let x = held(alloc, a.get(), &*world, &*input, &*env)?;
            of_right(alloc, b.get(), world, input, env, op, x.get())
        }
        Nra::Comp(a, b) => {
            let v = held(alloc, b.get(), &*world, &*input, &*env)?;
            eval_at(alloc, a.get(), world, v.get(), env)
        }
        Nra::Map(a, b) => {
            let v = held(alloc, b.get(), &*world, &*input, &*env)?;
            map_of(alloc, a.get(), world, env, v.get())
        }
        Nra::Select(a, b) => {
            let v = held(alloc, b.get(), &*world, &*input, &*env)?;
            select_of(alloc, a.get(), world, env, v.get())
        }
        Nra::Product(a, b) => {
            let v = held(alloc, a.get(), &*world, &*input, &*env)?;
            product_with(alloc, b.get(), world, input, env, v.get())
        }
        Nra::DepJoin(a, b) => {
            let v = held(alloc, b.get(), &*world, &*input, &*env)?;
            join_of(alloc, a.get(), world, env, v.get())
        }
        Nra::Default(a, b) => {
            let v = held(alloc, a.get(), &*world, &*input, &*env)?;
            default_of(alloc, b.get(), world, input, env, v.get())
        }
        Nra::EnvComp(a, b) => {
            let v = held(alloc, b.get(), &*world, &*input, &*env)?;
            eval_at(alloc, a.get(), world, input, v.get())
        }
        Nra::MapEnv(a) => env_map_of(alloc, a.get(), world, input, env),
        Nra::Either(a, b) => match input {
            Datum::Left(content) => eval_at(alloc, a.get(), world, content.get(), env),
            Datum::Right(content) => eval_at(alloc, b.get(), world, content.get(), env),
            _ => Err(Halt::Stuck),
        },
        Nra::If(a, b, c) => {
            if truth(alloc, a.get(), world, input, env)? {
                eval_at(alloc, b.get(), world, input, env)
            } else {
                eval_at(alloc, c.get(), world, input, env)
            }
        }
    }
}

// The outcome of an operand, which is lent where it stands somewhere.
#[cycle(eval)]
fn held<'a>(
    alloc: Global,
    q: &'a Nra,
    world: &'a World,
    input: &'a Datum,
    env: &'a Datum,
) -> Result<Held<'a>, Halt>
    ensures { GivesHeld (nra bits64 world.now q.now input.now env.now) result }
{
    match q {
        Nra::Const(d) => Ok(Held::Lent(d)),
        Nra::Input => Ok(Held::Lent(input)),
        Nra::Env => Ok(Held::Lent(env)),
        Nra::Global(name) => Ok(Held::Lent(global_of(world, name)?)),
        Nra::Unary(Unary::Dot(name), a) => {
            let owner = held(alloc, a.get(), world, input, env)?;
            field_of(alloc, name, owner)
        }
        Nra::Comp(a, b) => match held(alloc, b.get(), world, input, env)? {
            Held::Lent(v) => held(alloc, a.get(), world, v, env),
            Held::Made(v) => Ok(Held::Made(eval_at(alloc, a.get(), &*world, &v, &*env)?)),
        },
        Nra::EnvComp(a, b) => match held(alloc, b.get(), world, input, env)? {
            Held::Lent(v) => held(alloc, a.get(), world, input, v),
            Held::Made(v) => Ok(Held::Made(eval_at(alloc, a.get(), &*world, &*input, &v)?)),
        },
        _ => Ok(Held::Made(eval_at(alloc, &*q, &*world, &*input, &*env)?)),
    }
}

// An operator on the value of a tree.
#[cycle(eval)]
fn of_one(
    alloc: Global,
    a: &Nra,
    world: &World,
    input: &Datum,
    env: &Datum,
    op: &Unary,
) -> Result<Datum, Halt>
    ensures { Gives (and_then (nra bits64 world.now a.now input.now env.now) (unary bits64 world.now.classes op.now))
        result }
{
    let x = held(alloc, &*a, &*world, &*input, &*env)?;
    apply1(alloc, world.classes(), op, x.get())
}

// An operator on a left value and the value of a tree.
#[cycle(eval)]
fn of_right(
    alloc: Global,
    b: &Nra,
    world: &World,
    input: &Datum,
    env: &Datum,
    op: &Binary,
    x: &Datum,
) -> Result<Datum, Halt>
    ensures { Gives (and_then (nra bits64 world.now b.now input.now env.now) (λ y. binary bits64 op.now x.now y))
        result }
{
    let y = held(alloc, &*b, &*world, &*input, &*env)?;
    apply2_taking(alloc, op, x, y)
}

// The truth value of a condition.
#[cycle(eval)]
#[tactic(auto, unfolding(qc_trees::specs::Branches::truth))]
fn truth(alloc: Global, test: &Nra, world: &World, input: &Datum, env: &Datum) -> Result<bool, Halt>
    ensures { Gives (branches.truth (nra bits64 world.now test.now input.now env.now)) result }
{
    let holds = held(alloc, &*test, &*world, &*input, &*env)?;
    bool_of(holds.get())
}

// What a body makes of each member of a collection as its input.
#[cycle(eval)]
#[tactic(auto, using(qc_data::proofs::Outcomes::gather_is), unfolding(crate::specs::Forms::map_of))]
fn map_of(
    alloc: Global,
    body: &Nra,
    world: &World,
    env: &Datum,
    source: &Datum,
) -> Result<Datum, Halt>
    ensures { Gives (forms.map_of (nra bits64 world.now body.now) env.now source.now) result }
{
    let items = items_of(source)?;
    let mut all = Items::new(alloc);
    for item in items.as_slice() {
        all.add(eval_at(alloc, body, world, item, env)?)?;
    }
    Ok(Datum::Coll(all))
}

// The members of a collection on which a body is true.
#[cycle(eval)]
#[tactic(auto, using(qc_data::proofs::Outcomes::gather_is), unfolding(crate::specs::Forms::select_of, crate::specs::Forms::kept))]
fn select_of(
    alloc: Global,
    body: &Nra,
    world: &World,
    env: &Datum,
    source: &Datum,
) -> Result<Datum, Halt>
    ensures { Gives (forms.select_of (nra bits64 world.now body.now) env.now source.now) result }
{
    let items = items_of(source)?;
    let mut all = Items::new(alloc);
    for item in items.as_slice() {
        if truth(alloc, body, world, item, env)? {
            all.add(copy(alloc, item)?)?;
        }
    }
    Ok(Datum::Coll(all))
}

// Each pair of a member of a collection and one of the collection that a tree gives.
#[cycle(eval)]
fn product_with(
    alloc: Global,
    b: &Nra,
    world: &World,
    input: &Datum,
    env: &Datum,
    first: &Datum,
) -> Result<Datum, Halt>
    ensures { Gives (and_then (nra bits64 world.now b.now input.now env.now) (forms.product_of first.now)) result }
{
    let second = held(alloc, &*b, &*world, &*input, &*env)?;
    product_of(alloc, first, second.get())
}

// Each record of a collection with the members that a body gives for it.
#[cycle(eval)]
#[tactic(auto, using(crate::proofs::Adding::gather_added), unfolding(crate::specs::Forms::join_of))]
fn join_of(
    alloc: Global,
    body: &Nra,
    world: &World,
    env: &Datum,
    source: &Datum,
) -> Result<Datum, Halt>
    ensures { Gives (forms.join_of (nra bits64 world.now body.now) env.now source.now) result }
{
    let items = items_of(source)?;
    let mut all = Items::new(alloc);
    for item in items.as_slice() {
        add_joined(alloc, body, world, env, item, &mut all)?;
    }
    Ok(Datum::Coll(all))
}

// Puts one record with the members that a body gives for it last.
#[cycle(eval)]
#[tactic(auto, using(crate::proofs::Adding::added_halt), unfolding(crate::specs::Forms::joined))]
fn add_joined(
    alloc: Global,
    body: &Nra,
    world: &World,
    env: &Datum,
    first: &Datum,
    all: &mut Items,
) -> Result<(), Halt>
    ensures { Adds (forms.joined (nra bits64 world.now body.now) env.now first.now) all.old all.new result }
{
    fields_of(first)?;
    let members = held(alloc, &*body, &*world, &*first, &*env)?;
    let items = items_of(members.get())?;
    add_beside(alloc, all, items.as_slice(), first)
}

// A collection that has members, or else the one that a tree gives.
#[cycle(eval)]
#[tactic(auto, unfolding(crate::specs::Forms::default_of))]
fn default_of(
    alloc: Global,
    other: &Nra,
    world: &World,
    input: &Datum,
    env: &Datum,
    first: &Datum,
) -> Result<Datum, Halt>
    ensures { Gives (forms.default_of (nra bits64 world.now other.now input.now env.now) first.now) result }
{
    let items = items_of(first)?;
    members_or(alloc, other, world, input, env, items)
}

// The members, or where there are none the collection that a tree gives.
#[cycle(eval)]
#[tactic(auto, unfolding(crate::specs::Forms::members_or))]
fn members_or(
    alloc: Global,
    other: &Nra,
    world: &World,
    input: &Datum,
    env: &Datum,
    items: &Items,
) -> Result<Datum, Halt>
    ensures { Gives (forms.members_or (nra bits64 world.now other.now input.now env.now) items.now) result }
{
    if items.as_slice().is_empty() {
        only_bag(eval_at(alloc, other, world, input, env)?)
    } else {
        Ok(Datum::Coll(items.share(alloc)?))
    }
}

// What a body makes of each member of the environment as its environment.
#[cycle(eval)]
#[tactic(auto, using(qc_data::proofs::Outcomes::gather_is), unfolding(crate::specs::Forms::env_map_of))]
fn env_map_of(
    alloc: Global,
    body: &Nra,
    world: &World,
    input: &Datum,
    env: &Datum,
) -> Result<Datum, Halt>
    ensures { Gives (forms.env_map_of (nra bits64 world.now body.now) input.now env.now) result }
{
    let items = items_of(env)?;
    let mut all = Items::new(alloc);
    for item in items.as_slice() {
        all.add(eval_at(alloc, body, world, input, item)?)?;
    }
    Ok(Datum::Coll(all))
}
