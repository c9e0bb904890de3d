// The types of queries.
ghost use Rattle.std.specs.Prelude.{map, IfOk};
ghost use Rattle.qc_oql_tree.specs.Soundness.{IsSound};
ghost use Rattle.qc_typing.specs.Checking.{Checks};
ghost use Rattle.qc_oql_check.specs.inner.Scopes.{types_of};
ghost use Rattle.qc_oql_tree.specs.Typing as typing;

use crate::expression::{type_beside, type_of};
use crate::scope::Scope;
use qc_oql_tree::{Named, Oql, Query};
use qc_types::{Classes, Schema, Ty};
use qc_typing::TypeFault;
use std::alloc::Global;

/// The type of a query in a schema. `BadType`: the query has no type, and its first fault is at the place; `Memory`:
/// memory was wanting. In each world of the schema the query has a value of the type, and within bounds that value or
/// Range.
pub fn check(alloc: Global, schema: &Schema, query: &Query) -> Result<Ty, TypeFault>
    ensures value { Checks (typing.query_type schema.now query.now) result }
    ensures sound { IfOk result (λ t. IsSound schema.now query.now t) }
{
    hand_classes(schema.classes());
    defined(
        alloc,
        schema,
        &Scope::Empty,
        query.defines.as_slice(),
        &query.body,
    )
}

// Hands to the proof of `sound` what is known of a schema's classes.
fn hand_classes(_classes: &Classes) {}

// The type of an expression with what is defined, each definition with the earlier ones.
fn defined(
    alloc: Global,
    schema: &Schema,
    scope: &Scope,
    defines: &[Named],
    body: &Oql,
) -> Result<Ty, TypeFault>
    ensures { Checks
        (typing.defined_type (map (typing.named_type schema.now) defines.now) (typing.oql_type schema.now body.now)
        (types_of scope.now)) result }
{
    match defines {
        [] => type_of(alloc, schema, scope, body),
        [first, rest @ ..] => {
            let of = type_beside(alloc, schema, scope, first)?;
            defined(
                alloc,
                schema,
                &Scope::Bind(&first.name, &of, &*scope),
                rest,
                body,
            )
        }
    }
}
