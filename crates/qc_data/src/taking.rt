// Data from the JSON trees that encode them, which are taken apart.
ghost use Rattle.std.specs.Prelude.{◌≡◌, IfOk, IsTrue, map};
ghost use Rattle.qc_data.specs.Decoding.{dec, items_of, fields_of, object_of, plain};
ghost use Rattle.qc_containers.specs.Rising.{on_value};

use crate::data::{Datum, Fields, Items, Json, Jsons, Members};
use crate::decoding::decode_object;
use qc_containers::{Memory, Name, is_name};
use std::alloc::Global;

/// The datum whose encoding is the tree, as `dec` gives it. What no other tree shares is moved. Items of an array and
/// members of a record are freed one by one, as soon as each is decoded; an object with a marker is freed as a whole.
#[cycle(take)]
pub fn into_datum(alloc: Global, j: Json) -> Result<Option<Datum>, Memory>
    ensures { IfOk result (λ decoded. decoded ≡ dec j) }
{
    match j {
        Json::Null => Ok(Some(Datum::Unit)),
        Json::Bool(b) => Ok(Some(Datum::Bool(b))),
        Json::Int(n) => Ok(Some(Datum::Int(n))),
        Json::Text(text) => Ok(Some(Datum::Text(text))),
        Json::Array(items) => match take_items(alloc, items)? {
            Some(all) => Ok(Some(Datum::Coll(all))),
            None => Ok(None),
        },
        Json::Object(members) => take_object(alloc, members),
    }
}

// All items decoded, where each encodes a datum.
#[cycle(take)]
fn take_items(alloc: Global, items: Jsons) -> Result<Option<Items>, Memory>
    ensures { IfOk result (λ decoded. decoded ≡ items_of (map dec items)) }
{
    let Ok(items) = items.take_apart() else {
        return Err(Memory);
    };
    let mut all = Items::new(alloc);
    for item in items {
        match into_datum(alloc, item)? {
            Some(d) => all.add(d)?,
            None => return Ok(None),
        }
    }
    Ok(Some(all))
}

// An object whose first text is a name is a record. Others are decoded as they stand.
#[cycle(take)]
fn take_object(alloc: Global, members: Members) -> Result<Option<Datum>, Memory>
    ensures { IfOk result (λ decoded. decoded ≡ object_of (map (on_value dec) members)) }
{
    if !begins_with_name(&members) {
        return decode_object(alloc, &members);
    }
    match take_fields(alloc, members)? {
        Some(all) => Ok(Some(Datum::Rec(all))),
        None => Ok(None),
    }
}

// Whether the first text is a name.
fn begins_with_name(members: &Members) -> bool
    ensures { IsTrue result → object_of (map (on_value dec) members.now) ≡ plain (map (on_value dec) members.now) }
{
    match members.name_at(0) {
        Some(text) => is_name(text.as_str()),
        None => false,
    }
}

// All members decoded, where each has a name and encodes a datum.
#[cycle(take)]
fn take_fields(alloc: Global, members: Members) -> Result<Option<Fields>, Memory>
    ensures { IfOk result (λ decoded. decoded ≡ fields_of (map (on_value dec) members)) }
{
    let Ok(pairs) = members.take_apart() else {
        return Err(Memory);
    };
    let mut all = Fields::new(alloc);
    for (text, inner) in pairs {
        let Some(name) = Name::spelled(text) else {
            return Ok(None);
        };
        match into_datum(alloc, inner)? {
            Some(d) => all.add(name, d)?,
            None => return Ok(None),
        }
    }
    Ok(Some(all))
}
