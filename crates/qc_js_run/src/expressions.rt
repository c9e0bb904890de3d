// The outcome of expressions in 64 bits.
ghost use Rattle.std.specs.Prelude.{map};
ghost use Rattle.qc_data.specs.Kinds.{json_array};
ghost use Rattle.qc_data.specs.Outcome.{and_then, bits64, Gives, GivesRef, Value};
ghost use Rattle.qc_data.specs.declared.data.Json.TheVariants.{Array};
ghost use Rattle.qc_js.specs.Meaning.{cell_of, expr, found, truth, value_in, values_of};
ghost use Rattle.qc_js_run.specs.inner.Stores.{store_of};
ghost use Rattle.qc_rt.specs.Runtime.{runtime};

use crate::store::Store;
use qc_data::{Halt, Json, Jsons, copy_json};
use qc_js::Expr;
use qc_rt::Rt;
use qc_runtime::apply;
use std::alloc::Global;

// The outcome of an expression by the declared variables.
#[cycle(expression)]
pub(crate) fn outcome(alloc: Global, e: &Expr, world: &Json, store: &Store) -> Result<Json, Halt>
    ensures { Gives (expr bits64 world.now e.now (store_of store.now)) result }
{
    match e {
        Expr::Var(x) => Ok(copy_json(alloc, value_of(store, *x)?)?),
        Expr::World => Ok(copy_json(alloc, world)?),
        Expr::True => Ok(Json::Bool(true)),
        Expr::False => Ok(Json::Bool(false)),
        Expr::Null => Ok(Json::Null),
        Expr::Int(n) => Ok(Json::Int(*n)),
        Expr::Text(text) => Ok(Json::Text(text.copy(alloc)?)),
        Expr::Array(members) => array_of(alloc, members.as_slice(), world, store),
        Expr::Call(f, arguments) => called(alloc, *f, arguments.as_slice(), world, store),
    }
}

// The array of the outcomes.
#[cycle(expression)]
fn array_of(alloc: Global, members: &[Expr], world: &Json, store: &Store) -> Result<Json, Halt>
    ensures { Gives (and_then (values_of (map (expr bits64 world.now) members.now) (store_of store.now)) (λ js. Value (Array js)))
        result }
{
    let values = outcomes(alloc, members, world, store)?;
    Ok(Json::Array(values))
}

// The function's value on the outcomes.
#[cycle(expression)]
fn called(
    alloc: Global,
    f: Rt,
    arguments: &[Expr],
    world: &Json,
    store: &Store,
) -> Result<Json, Halt>
    ensures { Gives (and_then (values_of (map (expr bits64 world.now) arguments.now) (store_of store.now)) (runtime bits64 f)) result }
{
    let values = outcomes(alloc, arguments, world, store)?;
    apply(alloc, f, values.as_slice())
}

// The outcomes of expressions in order.
#[cycle(expression)]
fn outcomes(alloc: Global, all: &[Expr], world: &Json, store: &Store) -> Result<Jsons, Halt>
    ensures { Gives (values_of (map (expr bits64 world.now) all.now) (store_of store.now)) result }
{
    let mut values = Jsons::new(alloc);
    for e in all {
        let value = outcome(alloc, e, world, store)?;
        values.add(value)?;
    }
    Ok(values)
}

// The value of a variable.
fn value_of(store: &Store, x: u128) -> Result<&Json, Halt>
    ensures { GivesRef (found (value_in (cell_of x (store_of store.now)))) result }
{
    match store.get(x) {
        Some(value) => Ok(value),
        None => Err(Halt::Stuck),
    }
}

// The members of the array that the tree is.
pub(crate) fn items_of(j: &Json) -> Result<&Jsons, Halt>
    ensures { GivesRef (json_array j.now) result }
{
    match j {
        Json::Array(items) => Ok(items),
        _ => Err(Halt::Stuck),
    }
}

// The truth value that the tree is.
fn truth_of(j: &Json) -> Result<bool, Halt>
    ensures { Gives (truth j.now) result }
{
    match j {
        Json::Bool(b) => Ok(*b),
        _ => Err(Halt::Stuck),
    }
}

// The truth value of a condition.
pub(crate) fn condition(alloc: Global, e: &Expr, world: &Json, store: &Store) -> Result<bool, Halt>
    ensures { Gives (and_then (expr bits64 world.now e.now (store_of store.now)) truth) result }
{
    let value = outcome(alloc, e, world, store)?;
    truth_of(&value)
}
