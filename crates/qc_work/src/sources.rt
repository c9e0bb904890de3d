// The source languages behind one face.
ghost use Rattle.std.specs.Prelude.{◌≡◌, ◌≤◌, length, IfOk, MatchResult};
ghost use Rattle.qc_data.specs.Outcome.{bits64, Gives as HasOutcome};
ghost use Rattle.qc_route.specs.Stages.{Keeps};
ghost use Rattle.qc_route.specs.declared.stage.Stage.TheVariants.{Js as Program};
ghost use Rattle.qc_work.specs.Sources.{IsQuery, IsFault, meaning_of, stage_of, table_of, type_of};
ghost use Rattle.qc_work.specs.Promises.{HasItsType, IsReady};

use qc_containers::Memory;
use qc_data::{Datum, Halt};
use qc_js::Js;
use qc_lex::{Table, Words};
use qc_oql::TypedQuery;
use qc_route::{Path, Stage, route};
use qc_source::QueryFault;
use qc_types::{Schema, Ty, World};
use std::alloc::Global;

/// A source language.
#[derive(Clone, Copy, Debug, PartialEq, Eq)]
pub enum Source {
    /// The object query language of ODMG.
    Oql,
}

/// A query of a source language, with its type.
#[derive(Drop)]
pub enum Query {
    /// Of OQL.
    Oql(TypedQuery),
}

/// A schema, and a query with its type in it.
#[derive(Drop)]
pub struct Checked {
    pub schema: Schema,
    pub query: Query,
}

/// The table of the source's tokens.
pub fn table_of(source: Source) -> Table
    ensures { result ≡ table_of source }
{
    match source {
        Source::Oql => Table::Oql,
    }
}

/// The query of the source that the tokens, at most 1,000, spell, with its type in the schema, or the first fault.
pub fn read_query(
    alloc: Global,
    source: Source,
    schema: &Schema,
    words: &Words,
) -> Result<Query, QueryFault>
    requires few { length words.now ≤ 1000 }
    ensures reads { MatchResult result (IsQuery source schema.now words.now) (IsFault source schema.now words.now) }
    ensures typed { IfOk result (HasItsType schema.now) }
{
    match source {
        Source::Oql => Ok(Query::Oql(qc_oql::read(alloc, schema, words)?)),
    }
}

/// The type of the query's answers.
pub fn type_of(query: &Query) -> &Ty
    ensures { result.now ≡ type_of query.now }
{
    match query {
        Query::Oql(typed) => &typed.ty,
    }
}

/// The query's outcome in 64 bits.
pub fn evaluate(alloc: Global, query: &Query, world: &World) -> Result<Datum, Halt>
    ensures { HasOutcome (meaning_of query.now bits64 world.now) result }
{
    match query {
        Query::Oql(typed) => qc_oql_eval::eval(alloc, &typed.query, world),
    }
}

/// The query's program, at the end of the path through all stages.
pub fn compiled(alloc: Global, schema: &Schema, query: Query) -> Result<Js, Memory>
    requires { IsReady schema.now query }
    ensures { IfOk result (λ js. Keeps schema.now (stage_of query) (Program js)) }
{
    match route(alloc, schema, stage_of(query), &Path::usual())? {
        Stage::Js(js) => Ok(js),
        _ => unreachable!(),
    }
}

/// The query as the first stage of its way.
fn stage_of(query: Query) -> Stage
    ensures { result ≡ stage_of query }
{
    match query {
        Query::Oql(typed) => Stage::Oql(typed),
    }
}
