// Data from the JSON trees that encode them.
ghost use Rattle.std.specs.Prelude.{◌≡◌, ◌&&◌, IfOk, map, length, codes, option_and_then};
ghost use Rattle.std.specs.Str.{bytes_eq};
ghost use Rattle.qc_data.specs.Decoding.{dec, Decodes, items_of, fields_of, object_of, plain, name_of};
ghost use Rattle.qc_containers.specs.Rising.{on_value};

use crate::data::{Datum, Fields, Items, Json, Jsons, Members};
use qc_containers::{Boxed, Memory, Name};
use std::alloc::Global;

/// The datum whose encoding is the tree: `None` exactly where there is none.
pub fn dec(alloc: Global, j: &Json) -> Result<Option<Datum>, Memory>
    ensures value { IfOk result (λ decoded. decoded ≡ dec j.now) }
    ensures inverse { IfOk result (λ decoded. Decodes j.now decoded) }
{
    decode(alloc, j)
}

#[cycle(decode)]
fn decode(alloc: Global, j: &Json) -> Result<Option<Datum>, Memory>
    ensures { IfOk result (λ decoded. decoded ≡ dec j.now) }
{
    match j {
        Json::Null => Ok(Some(Datum::Unit)),
        Json::Bool(b) => Ok(Some(Datum::Bool(*b))),
        Json::Int(n) => Ok(Some(Datum::Int(*n))),
        Json::Text(text) => Ok(Some(Datum::Text(text.copy(alloc)?))),
        Json::Array(items) => match decode_items(alloc, items)? {
            Some(all) => Ok(Some(Datum::Coll(all))),
            None => Ok(None),
        },
        Json::Object(members) => decode_object(alloc, members),
    }
}

// All items decoded, where each encodes a datum.
#[cycle(decode)]
fn decode_items(alloc: Global, items: &Jsons) -> Result<Option<Items>, Memory>
    ensures { IfOk result (λ decoded. decoded ≡ items_of (map dec items.now)) }
{
    let mut all = Items::new(alloc);
    for item in items.as_slice() {
        match decode(alloc, item)? {
            Some(d) => all.add(d)?,
            None => return Ok(None),
        }
    }
    Ok(Some(all))
}

// An object is a side, a class value or a record.
#[cycle(decode)]
pub(crate) fn decode_object(alloc: Global, members: &Members) -> Result<Option<Datum>, Memory>
    ensures { IfOk result (λ decoded. decoded ≡ object_of (map (on_value dec) members.now)) }
{
    let count = members.len();
    if count == 1 {
        return decode_one(alloc, members);
    }
    if count == 2 {
        return decode_two(alloc, members);
    }
    decode_plain(alloc, members)
}

// A record of the members.
#[cycle(decode)]
fn decode_plain(alloc: Global, members: &Members) -> Result<Option<Datum>, Memory>
    ensures { IfOk result (λ decoded. decoded ≡ plain (map (on_value dec) members.now)) }
{
    match decode_fields(alloc, members)? {
        Some(all) => Ok(Some(Datum::Rec(all))),
        None => Ok(None),
    }
}

// An object of one member is a side or a record.
#[cycle(decode)]
fn decode_one(alloc: Global, members: &Members) -> Result<Option<Datum>, Memory>
    requires { length members.now ≡ 1 }
    ensures { IfOk result (λ decoded. decoded ≡ object_of (map (on_value dec) members.now)) }
{
    let pairs = members.as_slice();
    if is_text(pairs[0].0.as_str(), "$left") {
        return match decode(alloc, &pairs[0].1)? {
            Some(d) => Ok(Some(Datum::Left(Boxed::of(alloc, d)?))),
            None => Ok(None),
        };
    }
    if is_text(pairs[0].0.as_str(), "$right") {
        return match decode(alloc, &pairs[0].1)? {
            Some(d) => Ok(Some(Datum::Right(Boxed::of(alloc, d)?))),
            None => Ok(None),
        };
    }
    decode_plain(alloc, members)
}

// An object of two members is a class value or a record.
#[cycle(decode)]
fn decode_two(alloc: Global, members: &Members) -> Result<Option<Datum>, Memory>
    requires { length members.now ≡ 2 }
    ensures { IfOk result (λ decoded. decoded ≡ object_of (map (on_value dec) members.now)) }
{
    let pairs = members.as_slice();
    if !tags_class(pairs[0].0.as_str(), pairs[1].0.as_str()) {
        return decode_plain(alloc, members);
    }
    match decode_class(alloc, &pairs[0].1)? {
        Some(name) => match decode(alloc, &pairs[1].1)? {
            Some(d) => Ok(Some(Datum::Brand(name, Boxed::of(alloc, d)?))),
            None => Ok(None),
        },
        None => Ok(None),
    }
}

// The name of a class value, where the tree spells one.
#[cycle(decode)]
fn decode_class(alloc: Global, class: &Json) -> Result<Option<Name>, Memory>
    ensures { IfOk result (λ decoded. decoded ≡ option_and_then name_of (dec class.now)) }
{
    match decode(alloc, class)? {
        Some(d) => class_name(alloc, &d),
        None => Ok(None),
    }
}

// Whether the texts are equal.
fn is_text(first: &str, second: &str) -> bool
    ensures { result ≡ bytes_eq first.now second.now }
{
    first == second
}

// Whether two names are those of a class value's object.
fn tags_class(first: &str, second: &str) -> bool
    ensures { result ≡ (bytes_eq first.now (codes "$class") && bytes_eq second.now (codes "$data")) }
{
    first == "$class" && second == "$data"
}

// The name that a datum spells, if it is a text that is one.
fn class_name(alloc: Global, d: &Datum) -> Result<Option<Name>, Memory>
    ensures { IfOk result (λ decoded. decoded ≡ name_of d.now) }
{
    match d {
        Datum::Text(text) => Ok(Name::spelled(text.copy(alloc)?)),
        _ => Ok(None),
    }
}

// All members decoded, where each has a name and encodes a datum.
#[cycle(decode)]
fn decode_fields(alloc: Global, members: &Members) -> Result<Option<Fields>, Memory>
    ensures { IfOk result (λ decoded. decoded ≡ fields_of (map (on_value dec) members.now)) }
{
    let mut all = Fields::new(alloc);
    for pair in members.as_slice() {
        let Some(name) = Name::spelled(pair.0.copy(alloc)?) else {
            return Ok(None);
        };
        match decode(alloc, &pair.1)? {
            Some(d) => all.add(name, d)?,
            None => return Ok(None),
        }
    }
    Ok(Some(all))
}
