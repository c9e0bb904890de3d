// Sides of sums, and values of classes.
ghost use Rattle.std.specs.Prelude.{◌≡◌, [], ◌∷◌, codes, map, IfOk};
ghost use Rattle.qc_data.specs.Outcome.{Outcome};
ghost use Rattle.qc_data.specs.declared.data.Json.TheVariants.{Object, Text};
ghost use Rattle.qc_ops.specs.Operands.{as_brand};
ghost use Rattle.qc_ops.specs.Sides.{class_value, content, on_left, on_right};
ghost use Rattle.qc_rt.specs.Parameters.{as_side, one, two};
ghost use Rattle.qc_rt.specs.Runtime.{by_name, by_names, cast_among, leftness, payload};
ghost use Rattle.qc_rt.specs.Seen.{seen};
ghost use Rattle.qc_seen.specs.Giving.{GivesSeen};
ghost use Rattle.qc_runtime.specs.inner.Giving.{GivesClass, GivesClassIn, GivesSide, GivesSideIn};
ghost use Rattle.qc_rt.specs.JsonKinds.{class_in, class_named, class_of_two, side_in, side_named};

use crate::objects::is_among;
use qc_containers::{Chars, Memory};
use qc_data::{Halt, Json, Members, copy_json};
use qc_seen::{name_of, names_of, optional, single, the_only, the_two};
use std::alloc::Global;

#[tactic(auto, using(qc_rt::proofs::SeenLaws::forms))]
pub(crate) fn on_left(alloc: Global, args: &[Json]) -> Result<Json, Halt>
    ensures { GivesSeen (one on_left (map seen args.now)) result }
{
    let a = the_only(args)?;
    let content = copy_json(alloc, a)?;
    Ok(single(alloc, "$left", content)?)
}

#[tactic(auto, using(qc_rt::proofs::SeenLaws::forms))]
pub(crate) fn on_right(alloc: Global, args: &[Json]) -> Result<Json, Halt>
    ensures { GivesSeen (one on_right (map seen args.now)) result }
{
    let a = the_only(args)?;
    let content = copy_json(alloc, a)?;
    Ok(single(alloc, "$right", content)?)
}

#[tactic(auto, using(qc_rt::proofs::Returned::class_seen))]
pub(crate) fn class_value(alloc: Global, args: &[Json]) -> Result<Json, Halt>
    ensures { GivesSeen (two (by_name class_value) (map seen args.now)) result }
{
    let (name, a) = the_two(args)?;
    let name = name_of(name)?.copy(alloc)?;
    let content = copy_json(alloc, a)?;
    Ok(branded(alloc, name, content)?)
}

// The object of a class's value.
fn branded(alloc: Global, class: Chars, content: Json) -> Result<Json, Memory>
    ensures { IfOk result (λ made. made ≡ Object ((codes "$class", Text class) ∷ (codes "$data", content) ∷ [])) }
{
    let mut members = Members::new(alloc);
    members.add(Chars::of(alloc, "$class")?, Json::Text(class))?;
    members.add(Chars::of(alloc, "$data")?, content)?;
    Ok(Json::Object(members))
}

// The class and the content of a class's value.
#[derive(Clone, Copy)]
struct Class<'a> {
    name: &'a Chars,
    content: &'a Json,
}

// The class's value that the tree is.
#[tactic(auto, using(qc_rt::proofs::SeenLaws::kinds))]
fn class_of(j: &Json) -> Result<Class<'_>, Halt>
    ensures { GivesClass (as_brand (seen j.now)) result }
{
    match j {
        Json::Object(members) => class_in(members.as_slice()),
        _ => Err(Halt::Stuck),
    }
}

// The class's value of the members.
fn class_in(members: &[(Chars, Json)]) -> Result<Class<'_>, Halt>
    ensures { GivesClassIn (class_in members.now) result }
{
    match members {
        [class, content] => class_of_two(class, content),
        _ => Err(Halt::Stuck),
    }
}

// The class's value of two members.
fn class_of_two<'a>(class: &'a (Chars, Json), content: &'a (Chars, Json)) -> Result<Class<'a>, Halt>
    ensures { GivesClassIn (class_of_two class.now content.now) result }
{
    if class.0.as_str() == "$class" && content.0.as_str() == "$data" {
        class_named(&class.1, &content.1)
    } else {
        Err(Halt::Stuck)
    }
}

// The class's value of the class, which must be a text, and the content.
fn class_named<'a>(class: &'a Json, content: &'a Json) -> Result<Class<'a>, Halt>
    ensures { GivesClassIn (class_named class.now content.now) result }
{
    match class {
        Json::Text(name) => Ok(Class { name, content }),
        _ => Err(Halt::Stuck),
    }
}

pub(crate) fn content(alloc: Global, args: &[Json]) -> Result<Json, Halt>
    ensures { GivesSeen (one content (map seen args.now)) result }
{
    let a = the_only(args)?;
    let class = class_of(a)?;
    Ok(copy_json(alloc, class.content)?)
}

pub(crate) fn cast_among(alloc: Global, args: &[Json]) -> Result<Json, Halt>
    ensures { GivesSeen (two (by_names cast_among) (map seen args.now)) result }
{
    let (classes, a) = the_two(args)?;
    let classes = names_of(alloc, classes)?;
    let class = class_of(a)?;
    if is_among(class.name.as_str(), classes.as_slice()) {
        let kept = copy_json(alloc, a)?;
        Ok(optional(alloc, Some(kept))?)
    } else {
        Ok(optional(alloc, None)?)
    }
}

// What is on a side.
#[derive(Clone, Copy)]
struct Side<'a> {
    is_left: bool,
    content: &'a Json,
}

// What the tree has on a side.
#[tactic(auto, using(qc_rt::proofs::SeenLaws::kinds))]
fn side_of(j: &Json) -> Result<Side<'_>, Halt>
    ensures { GivesSide (as_side (seen j.now)) result }
{
    match j {
        Json::Object(members) => side_in(members.as_slice()),
        _ => Err(Halt::Stuck),
    }
}

// What the members have on a side.
fn side_in(members: &[(Chars, Json)]) -> Result<Side<'_>, Halt>
    ensures { GivesSideIn (side_in members.now) result }
{
    match members {
        [member] => side_named(member.0.as_str(), &member.1),
        _ => Err(Halt::Stuck),
    }
}

// The side of the name.
fn side_named<'a>(name: &str, content: &'a Json) -> Result<Side<'a>, Halt>
    ensures { GivesSideIn (side_named name.now content.now) result }
{
    if name == "$left" {
        let is_left = true;
        Ok(Side { is_left, content })
    } else if name == "$right" {
        let is_left = false;
        Ok(Side { is_left, content })
    } else {
        Err(Halt::Stuck)
    }
}

#[tactic(auto, using(qc_rt::proofs::SeenLaws::forms))]
pub(crate) fn leftness(args: &[Json]) -> Result<Json, Halt>
    ensures { GivesSeen (one leftness (map seen args.now)) result }
{
    let a = the_only(args)?;
    let found = side_of(a)?;
    Ok(Json::Bool(found.is_left))
}

pub(crate) fn payload(alloc: Global, args: &[Json]) -> Result<Json, Halt>
    ensures { GivesSeen (one payload (map seen args.now)) result }
{
    let a = the_only(args)?;
    let side = side_of(a)?;
    Ok(copy_json(alloc, side.content)?)
}
