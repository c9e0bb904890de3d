// The texts of a job's files, read: a schema, tokens and a query, a script, an input, or why not.
ghost use Rattle.std.specs.Prelude.{◌≤◌, length, IfOk};
ghost use Rattle.qc_schema.specs.JsonReading.{Means};
ghost use Rattle.qc_schema.specs.SchemaFile.{MeansSchema};
ghost use Rattle.qc_source.specs.Queries.{IsTokens};
ghost use Rattle.qc_work.specs.Reading.{IsBadSchema, IsBadScan, IsBadQuery, IsInput, IsBadInput};
ghost use Rattle.qc_work.specs.Reading.{IsScript, IsBadScript, IsBadTree};
ghost use Rattle.qc_work.specs.Sources.{IsQuery, table_of};
ghost use Rattle.qc_work.specs.Promises.{Computes, HasItsType};

use crate::refusal::Refusal;
use crate::sources::{Query, Source, read_query, table_of};
use qc_data::Json;
use qc_js::Js;
use qc_js_text::read_js;
use qc_lex::Words;
use qc_schema::{read_input, read_json, read_schema};
use qc_source::tokens_of;
use qc_types::{Schema, World};
use std::alloc::Global;

/// The schema that the bytes mean.
pub fn schema_in(alloc: Global, bytes: &[u8]) -> Result<Schema, Refusal>
    ensures { Computes (MeansSchema bytes.now) (IsBadSchema bytes.now) result }
{
    Ok(read_schema(alloc, bytes)?)
}

/// The tokens of the source that the bytes are.
pub fn tokens_in(alloc: Global, source: Source, bytes: &[u8]) -> Result<Words, Refusal>
    requires { length bytes.now ≤ 65536 }
    ensures reads { Computes (IsTokens (table_of source) bytes.now) (IsBadScan source bytes.now) result }
    ensures few { IfOk result (λ words. length words ≤ 1000) }
{
    Ok(tokens_of(alloc, table_of(source), bytes)?)
}

/// The query of the schema that the tokens, at most 1,000, spell.
pub fn query_in(
    alloc: Global,
    source: Source,
    schema: &Schema,
    words: &Words,
) -> Result<Query, Refusal>
    requires few { length words.now ≤ 1000 }
    ensures reads { Computes (IsQuery source schema.now words.now) (IsBadQuery source schema.now words.now) result }
    ensures typed { IfOk result (HasItsType schema.now) }
{
    Ok(read_query(alloc, source, schema, words)?)
}

/// The world of the schema that the bytes mean.
pub fn input_in(alloc: Global, schema: &Schema, bytes: &[u8]) -> Result<World, Refusal>
    ensures { Computes (IsInput schema.now bytes.now) (IsBadInput schema.now bytes.now) result }
{
    Ok(read_input(alloc, schema, bytes)?)
}

/// The program that the bytes spell.
pub fn script_in(alloc: Global, bytes: &[u8]) -> Result<Js, Refusal>
    ensures { Computes (IsScript bytes.now) (IsBadScript bytes.now) result }
{
    Ok(read_js(alloc, bytes)?)
}

/// The JSON tree that the bytes mean.
pub fn tree_in(alloc: Global, bytes: &[u8]) -> Result<Json, Refusal>
    ensures { Computes (Means bytes.now) (IsBadTree bytes.now) result }
{
    Ok(read_json(alloc, bytes)?)
}
