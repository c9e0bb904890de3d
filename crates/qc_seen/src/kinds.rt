// Trees by what operators see in them, and the forms of what functions give.
ghost use Rattle.std.specs.Prelude.{◌≡◌, [], ◌∷◌, false, option_map, IfOk};
ghost use Rattle.qc_data.specs.Kinds.{as_coll, as_int, made};
ghost use Rattle.qc_data.specs.Outcome.{bits64, Gives, GivesRef};
ghost use Rattle.qc_data.specs.declared.data.Json.TheVariants.{Object};
ghost use Rattle.qc_ops.specs.Operands.{as_bool, as_rec, as_text, optional};
ghost use Rattle.qc_rt.specs.Seen.{has_marker, seen};
ghost use Rattle.qc_seen.specs.Giving.{GivesFieldsRef, GivesItemsRef, GivesSeen};
ghost use Rattle.qc_seen.specs.inner.Plain.{GivesPlain};

use crate::markers::has_marker;
use qc_containers::{Chars, Memory};
use qc_data::{Halt, Json, Jsons, Members};
use std::alloc::Global;

/// The truth value that the tree is; `Stuck`, where it is none.
#[tactic(auto, using(qc_rt::proofs::SeenLaws::kinds))]
pub fn bool_of(j: &Json) -> Result<bool, Halt>
    ensures { Gives (as_bool (seen j.now)) result }
{
    match j {
        Json::Bool(b) => Ok(*b),
        _ => Err(Halt::Stuck),
    }
}

/// The integer that the tree is; `Stuck`, where it is none.
#[tactic(auto, using(qc_rt::proofs::SeenLaws::kinds))]
pub fn int_of(j: &Json) -> Result<i64, Halt>
    ensures { Gives (as_int (seen j.now)) result }
{
    match j {
        Json::Int(n) => Ok(*n),
        _ => Err(Halt::Stuck),
    }
}

/// The text that the tree is; `Stuck`, where it is none.
#[tactic(auto, using(qc_rt::proofs::SeenLaws::kinds))]
pub fn text_of(j: &Json) -> Result<&Chars, Halt>
    ensures { GivesRef (as_text (seen j.now)) result }
{
    match j {
        Json::Text(text) => Ok(text),
        _ => Err(Halt::Stuck),
    }
}

/// The members of the array that the tree is; `Stuck`, where it is none.
#[tactic(auto, using(qc_rt::proofs::SeenLaws::kinds))]
pub fn items_of(j: &Json) -> Result<&Jsons, Halt>
    ensures { GivesItemsRef (as_coll (seen j.now)) result }
{
    match j {
        Json::Array(items) => Ok(items),
        _ => Err(Halt::Stuck),
    }
}

/// The members of the plain object that the tree is, of whose names none is a marker; `Stuck`, where it is none.
#[tactic(auto, using(qc_rt::proofs::SeenLaws::kinds))]
pub fn fields_of(j: &Json) -> Result<&Members, Halt>
    ensures { GivesFieldsRef (as_rec (seen j.now)) result }
{
    match j {
        Json::Object(members) => plain(members),
        _ => Err(Halt::Stuck),
    }
}

// The members, where none of their names is a marker.
fn plain(members: &Members) -> Result<&Members, Halt>
    ensures { GivesPlain members.now result }
{
    if has_marker(members) {
        Err(Halt::Stuck)
    } else {
        Ok(members)
    }
}

/// The tree of an integer that a function makes; `Range`, where it has more than 64 bits.
#[tactic(auto, using(qc_rt::proofs::SeenLaws::forms))]
pub fn made(n: i128) -> Result<Json, Halt>
    ensures { GivesSeen (made bits64 n) result }
{
    if n < i128::from(i64::MIN) || n > i128::from(i64::MAX) {
        Err(Halt::Range)
    } else {
        Ok(Json::Int(n as i64))
    }
}

/// The object of one member, of the name and the tree.
pub fn single(alloc: Global, name: &str, j: Json) -> Result<Json, Memory>
    ensures { IfOk result (λ made. made ≡ Object ((name.now, j) ∷ [])) }
{
    let mut members = Members::new(alloc);
    members.add(Chars::of(alloc, name)?, j)?;
    Ok(Json::Object(members))
}

/// The tree on the left, or null on the right where there is none.
#[tactic(auto, using(qc_rt::proofs::SeenLaws::forms))]
pub fn optional(alloc: Global, j: Option<Json>) -> Result<Json, Memory>
    ensures { IfOk result (λ made. seen made ≡ optional (option_map seen j)) }
{
    match j {
        Some(j) => single(alloc, "$left", j),
        None => single(alloc, "$right", Json::Null),
    }
}
