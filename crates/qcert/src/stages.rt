// The files that a job reads: its schema, its query and its input; or its script and its input.
ghost use Rattle.std.specs.Prelude.{◌≤◌, ◌≡◌, length, IfOk};
ghost use Rattle.std.specs.Option.{option_copied};
ghost use Rattle.std.specs.Result.{result_map_both};
ghost use Rattle.qc_schema.specs.JsonReading.{Means};
ghost use Rattle.qc_schema.specs.SchemaFile.{MeansSchema};
ghost use Rattle.qc_work.specs.declared.refusal.File.TheVariants as file;
ghost use Rattle.qc_work.specs.Promises.{HasItsType};
ghost use Rattle.qc_work.specs.Reading.{IsBadSchema, IsBadTree, IsInput, IsBadInput};
ghost use Rattle.qcert.specs.Files.{fetch, most_of, read_as};
ghost use Rattle.qcert.specs.Jobs.{subject_seen};
ghost use Rattle.qcert.specs.Fetching.{schema_of, tokens_in, query_in, checked_in, input_of, script_in, tree_of};
ghost use Rattle.qcert.specs.Steps.{visit};
ghost use Rattle.qcert.specs.inner.Promises.{Stage};

use crate::job::Subject;
use qc_data::Json;
use qc_io::{FetchFault, Shelf};
use qc_js::Js;
use qc_lex::Words;
use qc_types::{Schema, World};
use qc_work::{
    Checked, File, Query, Refusal, Source, input_in, query_in, schema_in, script_in, tokens_in,
    tree_in,
};
use std::alloc::Global;

/// The subject's schema, and its query in it.
pub fn checked_in<S: Shelf>(
    alloc: Global,
    shelf: &mut S,
    subject: &Subject<'_>,
) -> Result<Checked, Refusal>
    ensures ended { Stage (checked_in (subject_seen subject.now))
        (visit S.texts S.faults S.asked shelf.old shelf.new) result }
    ensures typed { IfOk result (λ checked. HasItsType checked.schema checked.query) }
    ensures same { S.texts shelf.new ≡ S.texts shelf.old }
    ensures count { S.faults shelf.old ≤ S.faults shelf.new }
{
    let schema = schema_of(alloc, shelf, subject.schema)?;
    let query = query_file(alloc, shelf, subject.source, &schema, subject.query)?;
    Ok(Checked { schema, query })
}

/// The input, a world of the schema: without a file, that of `{}`.
pub fn input_of<S: Shelf>(
    alloc: Global,
    shelf: &mut S,
    schema: &Schema,
    name: Option<&str>,
) -> Result<World, Refusal>
    ensures ended { Stage (input_of schema.now (option_copied name.entry))
        (visit S.texts S.faults S.asked shelf.old shelf.new) result }
    ensures same { S.texts shelf.new ≡ S.texts shelf.old }
    ensures count { S.faults shelf.old ≤ S.faults shelf.new }
{
    match name {
        Some(name) => input_file(alloc, shelf, schema, name),
        None => input_in(alloc, schema, "{}".as_bytes()),
    }
}

/// The program in the file of this name.
pub fn script_of<S: Shelf>(alloc: Global, shelf: &mut S, name: &str) -> Result<Js, Refusal>
    ensures ended { Stage (script_in name.now) (visit S.texts S.faults S.asked shelf.old shelf.new) result }
    ensures same { S.texts shelf.new ≡ S.texts shelf.old }
    ensures count { S.faults shelf.old ≤ S.faults shelf.new }
{
    let bytes = fetch(alloc, shelf, File::Script, name)?;
    script_in(alloc, &bytes)
}

/// The input of a script, any JSON tree: without a file, that of `{}`.
pub fn tree_of<S: Shelf>(alloc: Global, shelf: &mut S, name: Option<&str>) -> Result<Json, Refusal>
    ensures ended { Stage (tree_of (option_copied name.entry))
        (visit S.texts S.faults S.asked shelf.old shelf.new) result }
    ensures same { S.texts shelf.new ≡ S.texts shelf.old }
    ensures count { S.faults shelf.old ≤ S.faults shelf.new }
{
    match name {
        Some(name) => tree_file(alloc, shelf, name),
        None => tree_in(alloc, "{}".as_bytes()),
    }
}

// The schema: without a file, the one that has no classes and no globals.
fn schema_of<S: Shelf>(alloc: Global, shelf: &mut S, name: Option<&str>) -> Result<Schema, Refusal>
    ensures ended { Stage (schema_of (option_copied name.entry))
        (visit S.texts S.faults S.asked shelf.old shelf.new) result }
    ensures same { S.texts shelf.new ≡ S.texts shelf.old }
    ensures count { S.faults shelf.old ≤ S.faults shelf.new }
{
    match name {
        Some(name) => schema_file(alloc, shelf, name),
        None => Ok(Schema::empty(alloc)),
    }
}

// The schema in the file of this name.
fn schema_file<S: Shelf>(alloc: Global, shelf: &mut S, name: &str) -> Result<Schema, Refusal>
    ensures ended { Stage (read_as MeansSchema IsBadSchema file.Schema name.now)
        (visit S.texts S.faults S.asked shelf.old shelf.new) result }
    ensures same { S.texts shelf.new ≡ S.texts shelf.old }
    ensures count { S.faults shelf.old ≤ S.faults shelf.new }
{
    let bytes = fetch(alloc, shelf, File::Schema, name)?;
    schema_in(alloc, &bytes)
}

// The query of the schema in the file of this name.
fn query_file<S: Shelf>(
    alloc: Global,
    shelf: &mut S,
    source: Source,
    schema: &Schema,
    name: &str,
) -> Result<Query, Refusal>
    ensures ended { Stage (query_in source schema.now name.now)
        (visit S.texts S.faults S.asked shelf.old shelf.new) result }
    ensures typed { IfOk result (HasItsType schema.now) }
    ensures same { S.texts shelf.new ≡ S.texts shelf.old }
    ensures count { S.faults shelf.old ≤ S.faults shelf.new }
{
    let words = tokens_file(alloc, shelf, source, name)?;
    query_in(alloc, source, schema, &words)
}

// The tokens in the query's file of this name.
fn tokens_file<S: Shelf>(
    alloc: Global,
    shelf: &mut S,
    source: Source,
    name: &str,
) -> Result<Words, Refusal>
    ensures ended { Stage (tokens_in source name.now)
        (visit S.texts S.faults S.asked shelf.old shelf.new) result }
    ensures few { IfOk result (λ words. length words ≤ 1000) }
    ensures same { S.texts shelf.new ≡ S.texts shelf.old }
    ensures count { S.faults shelf.old ≤ S.faults shelf.new }
{
    let bytes = fetch(alloc, shelf, File::Query, name)?;
    tokens_in(alloc, source, &bytes)
}

// The input in the file of this name.
fn input_file<S: Shelf>(
    alloc: Global,
    shelf: &mut S,
    schema: &Schema,
    name: &str,
) -> Result<World, Refusal>
    ensures ended { Stage (read_as (IsInput schema.now) (IsBadInput schema.now) file.Input name.now)
        (visit S.texts S.faults S.asked shelf.old shelf.new) result }
    ensures same { S.texts shelf.new ≡ S.texts shelf.old }
    ensures count { S.faults shelf.old ≤ S.faults shelf.new }
{
    let bytes = fetch(alloc, shelf, File::Input, name)?;
    input_in(alloc, schema, &bytes)
}

// The JSON tree in the input's file of this name.
fn tree_file<S: Shelf>(alloc: Global, shelf: &mut S, name: &str) -> Result<Json, Refusal>
    ensures ended { Stage (read_as Means IsBadTree file.Input name.now)
        (visit S.texts S.faults S.asked shelf.old shelf.new) result }
    ensures same { S.texts shelf.new ≡ S.texts shelf.old }
    ensures count { S.faults shelf.old ≤ S.faults shelf.new }
{
    let bytes = fetch(alloc, shelf, File::Input, name)?;
    tree_in(alloc, &bytes)
}

// The text of the file of this name, within the file's limit.
fn fetch<S: Shelf>(alloc: Global, shelf: &mut S, file: File, name: &str) -> Result<Vec<u8>, Refusal>
    ensures ended { Stage (fetch file name.now) (visit S.texts S.faults S.asked shelf.old shelf.new)
        (result_map_both (λ bytes. bytes.items) (λ refusal. refusal) result) }
    ensures fits { IfOk result (λ bytes. length bytes.items ≤ most_of file) }
    ensures same { S.texts shelf.new ≡ S.texts shelf.old }
    ensures count { S.faults shelf.old ≤ S.faults shelf.new }
{
    let mut bytes = Vec::new(alloc);
    match shelf.fetch(name, most_of(file), &mut bytes) {
        Ok(()) => Ok(bytes),
        Err(FetchFault::Failed) => Err(Refusal::ReadFault(file)),
        Err(FetchFault::TooLong) => Err(Refusal::TooLong(file)),
        Err(FetchFault::Memory) => Err(Refusal::Memory),
    }
}

// The most bytes of a file.
fn most_of(file: File) -> u64
    ensures value { result ≡ most_of file }
    ensures small { result ≤ 4294967296 }
{
    match file {
        File::Schema => 1 << 20,
        File::Query => 1 << 16,
        File::Input | File::Script => 1 << 24,
    }
}
