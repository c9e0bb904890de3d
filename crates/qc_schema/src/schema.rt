// Schemas from bytes.
ghost use Rattle.std.specs.Prelude.{◌≡◌, ◌&&◌, IfOk, codes, option_map};
ghost use Rattle.std.specs.Str.{bytes_eq};
ghost use Rattle.qc_types.specs.Schemas.{SchemaOf};
ghost use Rattle.qc_schema.specs.SchemaFile.{MeansSchema, schema_of, file_parts, from_parts, schema_from, classes_of};
ghost use Rattle.qc_schema.specs.SchemaFile.{each_class, class_of, class_parts, class_from, parent_of, is_one};

use crate::faults::{InputFault, SchemaFault};
use crate::reading::read_json;
use crate::typing::{read_class, read_row, read_type};
use qc_containers::{Memory, Name};
use qc_data::{Json, Jsons, Members};
use qc_types::{ClassDef, ClassFault, Classes, Row, Schema, Ty};
use std::alloc::Global;

/// The schema that the bytes of a schema file mean. `BadSchema` exactly where they mean none.
pub fn read_schema(alloc: Global, bytes: &[u8]) -> Result<Schema, SchemaFault>
    ensures ok { IfOk result (λ schema. MeansSchema bytes.now schema) }
    ensures bad { result ≡ Err SchemaFault.BadSchema → (s : SchemaOf) → ¬ MeansSchema bytes.now s }
{
    let tree = match read_json(alloc, bytes) {
        Ok(tree) => tree,
        Err(InputFault::BadInput) => return Err(SchemaFault::BadSchema),
        Err(InputFault::Memory) => return Err(SchemaFault::Memory),
    };
    match schema_in(alloc, &tree)? {
        Some(schema) => Ok(schema),
        None => Err(SchemaFault::BadSchema),
    }
}

// The schema that the tree means.
#[tactic(auto, using(crate::proofs::TreeLayers::by_layer))]
fn schema_in(alloc: Global, j: &Json) -> Result<Option<Schema>, Memory>
    ensures { IfOk result (λ o. o ≡ schema_of j.now) }
{
    match j {
        Json::Object(members) => read_file(alloc, members),
        _ => Ok(None),
    }
}

// The schema of a file's members.
fn read_file(alloc: Global, members: &Members) -> Result<Option<Schema>, Memory>
    ensures { IfOk result (λ o. o ≡ file_parts members.now) }
{
    let parts = members.as_slice();
    if parts.len() != 3 {
        return Ok(None);
    }
    if !are_file_names(
        parts[0].0.as_str(),
        parts[1].0.as_str(),
        parts[2].0.as_str(),
    ) {
        return Ok(None);
    }
    let classes = read_classes(alloc, &parts[0].1)?;
    let globals = read_row(alloc, &parts[1].1)?;
    make_schema(alloc, classes, globals, is_one(&parts[2].1))
}

// Whether these are the names of a file's members.
fn are_file_names(a: &str, b: &str, c: &str) -> bool
    ensures { result ≡ (bytes_eq a.now (codes "classes")
        && (bytes_eq b.now (codes "globals") && bytes_eq c.now (codes "version"))) }
{
    a == "classes" && b == "globals" && c == "version"
}

// The schema of a file's parts.
fn make_schema(
    alloc: Global,
    classes: Option<Vec<ClassDef>>,
    globals: Option<Row>,
    one: bool,
) -> Result<Option<Schema>, Memory>
    ensures { IfOk result (λ o. o ≡ from_parts (option_map (λ v. v.items) classes) globals one) }
{
    if !one {
        return Ok(None);
    }
    let Some(classes) = classes else {
        return Ok(None);
    };
    let Some(globals) = globals else {
        return Ok(None);
    };
    build(alloc, classes, globals)
}

// The schema of classes in the order listed, and of globals.
fn build(alloc: Global, classes: Vec<ClassDef>, globals: Row) -> Result<Option<Schema>, Memory>
    ensures { IfOk result (λ o. o ≡ schema_from classes.items globals) }
{
    let classes = match Classes::build(alloc, classes) {
        Ok(classes) => classes,
        Err(ClassFault::BadClasses) => return Ok(None),
        Err(ClassFault::Memory) => return Err(Memory),
    };
    match Schema::of(classes, globals) {
        Ok(schema) => Ok(Some(schema)),
        Err(_) => Ok(None),
    }
}

// Whether the tree is the integer 1.
#[tactic(auto, using(crate::proofs::TreeLayers::by_layer))]
fn is_one(j: &Json) -> bool
    ensures { result ≡ is_one j.now }
{
    match j {
        Json::Int(n) => *n == 1,
        _ => false,
    }
}

// The classes that the tree lists.
#[tactic(auto, using(crate::proofs::TreeLayers::by_layer))]
fn read_classes(alloc: Global, j: &Json) -> Result<Option<Vec<ClassDef>>, Memory>
    ensures { IfOk result (λ o. option_map (λ v. v.items) o ≡ classes_of j.now) }
{
    match j {
        Json::Array(items) => read_each(alloc, items),
        _ => Ok(None),
    }
}

// The classes of the items.
fn read_each(alloc: Global, items: &Jsons) -> Result<Option<Vec<ClassDef>>, Memory>
    ensures { IfOk result (λ o. option_map (λ v. v.items) o ≡ each_class items.now) }
{
    let mut all = Vec::new(alloc);
    for item in items.as_slice() {
        match read_def(alloc, item)? {
            Some(def) => all.push(def)?,
            None => return Ok(None),
        }
    }
    Ok(Some(all))
}

// The class that the tree means.
#[tactic(auto, using(crate::proofs::TreeLayers::by_layer))]
fn read_def(alloc: Global, j: &Json) -> Result<Option<ClassDef>, Memory>
    ensures { IfOk result (λ o. o ≡ class_of j.now) }
{
    match j {
        Json::Object(members) => read_parts(alloc, members),
        _ => Ok(None),
    }
}

// The class of an object's members.
fn read_parts(alloc: Global, members: &Members) -> Result<Option<ClassDef>, Memory>
    ensures { IfOk result (λ o. o ≡ class_parts members.now) }
{
    let pairs = members.as_slice();
    if pairs.len() != 3 {
        return Ok(None);
    }
    if !are_class_names(
        pairs[0].0.as_str(),
        pairs[1].0.as_str(),
        pairs[2].0.as_str(),
    ) {
        return Ok(None);
    }
    let name = read_class(alloc, &pairs[0].1)?;
    let parent = read_parent(alloc, &pairs[1].1)?;
    let shape = read_type(alloc, &pairs[2].1)?;
    Ok(make_class(name, parent, shape))
}

// Whether these are the names of a class's members.
fn are_class_names(a: &str, b: &str, c: &str) -> bool
    ensures { result ≡ (bytes_eq a.now (codes "name")
        && (bytes_eq b.now (codes "parent") && bytes_eq c.now (codes "type"))) }
{
    a == "name" && b == "parent" && c == "type"
}

// The class of its parts, where all are there.
fn make_class(
    name: Option<Name>,
    parent: Option<Option<Name>>,
    shape: Option<Ty>,
) -> Option<ClassDef>
    ensures { result ≡ class_from name parent shape }
{
    Some(ClassDef {
        name: name?,
        parent: parent?,
        shape: shape?,
    })
}

// The parent that the tree means: none for null.
#[tactic(auto, using(crate::proofs::TreeLayers::by_layer))]
fn read_parent(alloc: Global, j: &Json) -> Result<Option<Option<Name>>, Memory>
    ensures { IfOk result (λ o. o ≡ parent_of j.now) }
{
    match j {
        Json::Null => Ok(Some(None)),
        _ => match read_class(alloc, j)? {
            Some(name) => Ok(Some(Some(name))),
            None => Ok(None),
        },
    }
}
