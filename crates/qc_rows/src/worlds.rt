// Schemas and worlds that a row speaks of.
use crate::form::Form;
use crate::odd::Odd;
use crate::texts::Texts;
use crate::values::datum;
use qc_data::{Datum, Fields, Json};
use qc_schema::{SchemaFault, read_schema};
use qc_types::{Schema, World, WorldFault};
use std::alloc::Global;

/// The schema without classes and globals.
const EMPTY: &str = r#"{"version":1,"classes":[],"globals":{}}"#;

/// The schema that the row's text is, and without one the schema that has no class and no global.
pub fn schema(alloc: Global, texts: &Texts, row: &mut Form) -> Result<Schema, Odd> {
    let read = match row.maybe("schema") {
        Some(text) => read_schema(alloc, &texts.bytes(alloc, text)?),
        None => read_schema(alloc, EMPTY.as_bytes()),
    };
    match read {
        Ok(schema) => Ok(schema),
        Err(SchemaFault::BadSchema) => Err(Odd::Form),
        Err(SchemaFault::Memory) => Err(Odd::Memory),
    }
}

/// The world of the schema whose globals have the values that the tree encodes, and without one no global.
pub fn world(alloc: Global, schema: &Schema, globals: Option<&Json>) -> Result<World, Odd> {
    match World::of(alloc, schema, datum_or_none(alloc, globals)?) {
        Ok(world) => Ok(world),
        Err(WorldFault::NotWorld) => Err(Odd::Form),
        Err(WorldFault::Memory) => Err(Odd::Memory),
    }
}

/// The datum that the tree encodes, and without one the record that has no field.
pub fn datum_or_none(alloc: Global, json: Option<&Json>) -> Result<Datum, Odd> {
    match json {
        Some(json) => datum(alloc, json),
        None => Ok(Datum::Rec(Fields::new(alloc))),
    }
}
