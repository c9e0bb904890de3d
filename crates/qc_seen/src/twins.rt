// Data that stand for trees wherever only sameness matters.
ghost use Rattle.std.specs.Prelude.{◌≡◌, ◌&&◌, codes, length, map, IfOk, IfSome};
ghost use Rattle.std.specs.Str.{bytes_eq};
ghost use Rattle.qc_containers.specs.Rising.{on_value};
ghost use Rattle.qc_data.specs.declared.data.Datum.TheVariants.{Rec};
ghost use Rattle.qc_rt.specs.Seen.{marked, object_seen, odd, seen};
ghost use Rattle.qc_rt.specs.Seen.{fields_seen};
ghost use Rattle.qc_seen.specs.Twins.{class_twin, Marks, member_twin, numbered, twin};

use crate::markers::has_marker;
use qc_containers::{Boxed, Chars, Memory, Name};
use qc_data::{Datum, Fields, Items, Json, Members, dec};
use std::alloc::Global;

/// Marks of the items of two lists: data of which two are the same just where what is seen in their trees is. They are
/// what the trees encode, where all of both lists encode data, and else their twins.
pub fn marks(alloc: Global, items: &[Json], others: &[Json]) -> Result<(Items, Items), Memory>
    ensures { IfOk result (λ made. Marks made.0 items.now made.1 others.now) }
{
    let first = decoded(alloc, items)?;
    let second = decoded(alloc, others)?;
    match (first, second) {
        (Some(first), Some(second)) => Ok((first, second)),
        _ => both_twins(alloc, items, others),
    }
}

// The twins of the items of two lists.
fn both_twins(alloc: Global, items: &[Json], others: &[Json]) -> Result<(Items, Items), Memory>
    ensures { IfOk result (λ made. Marks made.0 items.now made.1 others.now) }
{
    let first = twins(alloc, items)?;
    let second = twins(alloc, others)?;
    Ok((first, second))
}

// What the items encode, where all encode data.
#[tactic(auto, using(qc_rt::proofs::Returned::dec_seen, crate::proofs::TwinObjects::seen_more))]
fn decoded(alloc: Global, items: &[Json]) -> Result<Option<Items>, Memory>
    ensures { IfOk result (λ made. IfSome made (λ found. found ≡ map seen items.now)) }
{
    let mut all = Items::new(alloc);
    for item in items {
        match dec(alloc, item)? {
            Some(d) => all.add(d)?,
            None => return Ok(None),
        }
    }
    Ok(Some(all))
}

// The twins of the items.
#[cycle(twin)]
#[tactic(auto, using(crate::proofs::TwinObjects::twins_more))]
fn twins(alloc: Global, items: &[Json]) -> Result<Items, Memory>
    ensures { IfOk result (λ made. made ≡ map twin (map seen items.now)) }
{
    let mut all = Items::new(alloc);
    for item in items {
        all.add(twin(alloc, item)?)?;
    }
    Ok(all)
}

// The twin of a tree.
#[cycle(twin)]
#[tactic(auto, using(qc_rt::proofs::SeenLaws::forms, crate::proofs::TwinForms::twin_forms))]
pub(crate) fn twin(alloc: Global, j: &Json) -> Result<Datum, Memory>
    ensures { IfOk result (λ made. made ≡ twin (seen j.now)) }
{
    match j {
        Json::Null => Ok(Datum::Unit),
        Json::Bool(b) => Ok(Datum::Bool(*b)),
        Json::Int(n) => Ok(Datum::Int(*n)),
        Json::Text(text) => Ok(Datum::Text(text.copy(alloc)?)),
        Json::Array(items) => Ok(Datum::Coll(twins(alloc, items.as_slice())?)),
        Json::Object(members) => object_twin(alloc, members),
    }
}

// The twin of an object.
#[cycle(twin)]
fn object_twin(alloc: Global, members: &Members) -> Result<Datum, Memory>
    ensures { IfOk result (λ made. made ≡ twin (object_seen (fields_seen members.now))) }
{
    if has_marker(members) {
        marked_twin(alloc, members)
    } else {
        record_twin(alloc, members)
    }
}

// The twin of an object that has a marker.
#[cycle(twin)]
fn marked_twin(alloc: Global, members: &Members) -> Result<Datum, Memory>
    ensures { IfOk result (λ made. made ≡ twin (marked (fields_seen members.now))) }
{
    let count = members.len();
    if count == 1 {
        return side_twin(alloc, members);
    }
    if count == 2 {
        return class_twin(alloc, members);
    }
    odd_twin(alloc, members)
}

// The twin of an object of one member that has a marker.
#[cycle(twin)]
fn side_twin(alloc: Global, members: &Members) -> Result<Datum, Memory>
    requires { length members.now ≡ 1 }
    ensures { IfOk result (λ made. made ≡ twin (marked (fields_seen members.now))) }
{
    let pairs = members.as_slice();
    if is_text(pairs[0].0.as_str(), "$left") {
        let content = twin(alloc, &pairs[0].1)?;
        return Ok(Datum::Left(Boxed::of(alloc, content)?));
    }
    if is_text(pairs[0].0.as_str(), "$right") {
        let content = twin(alloc, &pairs[0].1)?;
        return Ok(Datum::Right(Boxed::of(alloc, content)?));
    }
    odd_twin(alloc, members)
}

// The twin of an object of two members that has a marker.
#[cycle(twin)]
fn class_twin(alloc: Global, members: &Members) -> Result<Datum, Memory>
    requires { length members.now ≡ 2 }
    ensures { IfOk result (λ made. made ≡ twin (marked (fields_seen members.now))) }
{
    let pairs = members.as_slice();
    if !tags_class(pairs[0].0.as_str(), pairs[1].0.as_str()) {
        return odd_twin(alloc, members);
    }
    match &pairs[0].1 {
        Json::Text(class) => {
            let content = twin(alloc, &pairs[1].1)?;
            value_twin(alloc, class, content)
        }
        _ => odd_twin(alloc, members),
    }
}

// The twin of an object that has a marker and is neither a side nor a class's value.
#[cycle(twin)]
fn odd_twin(alloc: Global, members: &Members) -> Result<Datum, Memory>
    ensures { IfOk result (λ made. made ≡ twin (odd (fields_seen members.now))) }
{
    let record = record_twin(alloc, members)?;
    Ok(Datum::Left(Boxed::of(alloc, record)?))
}

// The twin of the record of the members.
#[cycle(twin)]
#[tactic(auto, using(crate::proofs::TwinForms::twin_forms))]
fn record_twin(alloc: Global, members: &Members) -> Result<Datum, Memory>
    ensures { IfOk result (λ made. made ≡ twin (Rec (fields_seen members.now))) }
{
    let items = member_twins(alloc, members)?;
    let mut fields = Fields::new(alloc);
    fields.add(first_name(alloc)?, Datum::Coll(items))?;
    Ok(Datum::Rec(fields))
}

// The twins of the members, in their order.
#[cycle(twin)]
fn member_twins(alloc: Global, members: &Members) -> Result<Items, Memory>
    ensures { IfOk result (λ made. made ≡ numbered 0 (map (on_value twin) (fields_seen members.now))) }
{
    let mut all = Items::new(alloc);
    for (at, pair) in members.as_slice().iter().enumerate() {
        let value = twin(alloc, &pair.1)?;
        all.add(member_twin(alloc, at, &pair.0, value)?)?;
    }
    Ok(all)
}

// The twin of a member at a place.
fn member_twin(alloc: Global, at: usize, name: &Chars, value: Datum) -> Result<Datum, Memory>
    ensures { IfOk result (λ made. made ≡ member_twin at name.now value) }
{
    let Ok(at) = i64::try_from(at) else {
        return Err(Memory);
    };
    let mut fields = Fields::new(alloc);
    fields.add(first_name(alloc)?, Datum::Int(at))?;
    fields.add(second_name(alloc)?, Datum::Text(name.copy(alloc)?))?;
    fields.add(third_name(alloc)?, value)?;
    Ok(Datum::Rec(fields))
}

// The twin of a class's value.
#[tactic(auto, using(crate::proofs::TwinForms::twin_forms))]
fn value_twin(alloc: Global, class: &Chars, content: Datum) -> Result<Datum, Memory>
    ensures { IfOk result (λ made. made ≡ class_twin class.now content) }
{
    let mut fields = Fields::new(alloc);
    fields.add(first_name(alloc)?, Datum::Text(class.copy(alloc)?))?;
    fields.add(second_name(alloc)?, content)?;
    let name = first_name(alloc)?;
    Ok(Datum::Brand(name, Boxed::of(alloc, Datum::Rec(fields))?))
}

fn first_name(alloc: Global) -> Result<Name, Memory>
    ensures { IfOk result (λ name. name ≡ codes "a") }
{
    named(alloc, "a")
}

fn second_name(alloc: Global) -> Result<Name, Memory>
    ensures { IfOk result (λ name. name ≡ codes "b") }
{
    named(alloc, "b")
}

fn third_name(alloc: Global) -> Result<Name, Memory>
    ensures { IfOk result (λ name. name ≡ codes "c") }
{
    named(alloc, "c")
}

// The name of the text; a text that is none counts as want of memory.
fn named(alloc: Global, text: &str) -> Result<Name, Memory>
    ensures { IfOk result (λ name. name ≡ text.now) }
{
    match Name::of(alloc, text) {
        Ok(name) => Ok(name),
        Err(_) => Err(Memory),
    }
}

// Whether the texts are equal.
fn is_text(first: &str, second: &str) -> bool
    ensures { result ≡ bytes_eq first.now second.now }
{
    first == second
}

// Whether two names are those of a class's value.
fn tags_class(first: &str, second: &str) -> bool
    ensures { result ≡ (bytes_eq first.now (codes "$class") && bytes_eq second.now (codes "$data")) }
{
    first == "$class" && second == "$data"
}
