// The outcome of queries in 64 bits.
ghost use Rattle.std.specs.Prelude.{ℤ, map};
ghost use Rattle.qc_data.specs.Outcome.{any_size, bits64, within, Agrees, Gives};
ghost use Rattle.qc_oql_eval.specs.inner.Scopes.{bindings_of};
ghost use Rattle.qc_oql_tree.specs.Meaning as meaning;

use crate::expression::outcome;
use crate::scope::Scope;
use qc_data::{Datum, Halt};
use qc_oql_tree::{Named, Oql, Query};
use qc_types::World;
use std::alloc::Global;

/// The outcome of a query in 64 bits. `Range`: an integer that an operator makes has more; `Stuck`: a value is of
/// another kind than its use takes, or a name has no value; `Memory`: memory was wanting. At any two bounds the outcome
/// agrees with that at any size.
pub fn eval(alloc: Global, query: &Query, world: &World) -> Result<Datum, Halt>
    ensures value { Gives (meaning.query bits64 world.now query.now) result }
    ensures agrees { (low high : ℤ)
        → Agrees (meaning.query any_size world.now query.now) (meaning.query (within low high) world.now query.now) }
{
    defined(
        alloc,
        world,
        &Scope::Empty,
        query.defines.as_slice(),
        &query.body,
    )
}

// The outcome of an expression with what is defined, each definition with the earlier ones.
fn defined(
    alloc: Global,
    world: &World,
    scope: &Scope,
    defines: &[Named],
    body: &Oql,
) -> Result<Datum, Halt>
    ensures { Gives
        (meaning.defined (map (meaning.named bits64 world.now) defines.now) (meaning.oql bits64 world.now body.now)
        (bindings_of scope.now)) result }
{
    match defines {
        [] => outcome(alloc, world, scope, body),
        [first, rest @ ..] => {
            let value = outcome(alloc, world, scope, &first.of)?;
            defined(
                alloc,
                world,
                &Scope::Bind(&first.name, &value, &*scope),
                rest,
                body,
            )
        }
    }
}
