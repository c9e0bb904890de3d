// Plain objects, which are records.
ghost use Rattle.std.specs.Prelude.{◌≡◌, [], ◌∷◌, ◌++◌, cond, false, filter, map, option_map, IfOk, OnOk};
ghost use Rattle.std.specs.Option.{option_copied};
ghost use Rattle.qc_containers.specs.Rising.{Rising};
ghost use Rattle.qc_data.specs.Outcome.{Value};
ghost use Rattle.qc_data.specs.declared.data.Datum.TheVariants.{Coll, Rec};
ghost use Rattle.qc_ops.specs.Records.{compatible, concatenation, field, has_names, is_among, merger, over, part_of};
ghost use Rattle.qc_ops.specs.Records.{projection, put_new, record_of, same_at};
ghost use Rattle.qc_rt.specs.Parameters.{none, two};
ghost use Rattle.qc_rt.specs.Runtime.{by_name, by_names};
ghost use Rattle.qc_rt.specs.Seen.{has_marker, seen};
ghost use Rattle.qc_seen.specs.Giving.{GivesSeen};
ghost use Rattle.qc_runtime.specs.inner.Giving.{GivesFields};
ghost use Rattle.qc_rt.specs.Seen.{fields_seen};

use qc_containers::{Chars, Memory, Share};
use qc_data::{Halt, Json, Jsons, Members, copy_json};
use qc_seen::{fields_of, is_same, name_of, names_of, single, the_two};
use std::alloc::Global;

#[tactic(auto, using(qc_rt::proofs::SeenLaws::forms))]
pub(crate) fn nothing(alloc: Global, args: &[Json]) -> Result<Json, Halt>
    ensures { GivesSeen (none (Value (Rec [])) (map seen args.now)) result }
{
    match args {
        [] => Ok(Json::Object(Members::new(alloc))),
        _ => Err(Halt::Stuck),
    }
}

#[tactic(auto, using(crate::proofs::ObjectLaws::record_seen))]
pub(crate) fn record_of(alloc: Global, args: &[Json]) -> Result<Json, Halt>
    ensures { GivesSeen (two (by_name record_of) (map seen args.now)) result }
{
    let (name, a) = the_two(args)?;
    let name = name_of(name)?;
    let value = copy_json(alloc, a)?;
    Ok(single(alloc, name.as_str(), value)?)
}

#[tactic(auto, using(crate::proofs::ObjectLaws::lookups))]
pub(crate) fn field(alloc: Global, args: &[Json]) -> Result<Json, Halt>
    ensures { GivesSeen (two (by_name field) (map seen args.now)) result }
{
    let (name, a) = the_two(args)?;
    let name = name_of(name)?;
    let fields = fields_of(a)?;
    match fields.get(name.as_str()) {
        Some(value) => Ok(copy_json(alloc, value)?),
        None => Err(Halt::Stuck),
    }
}

#[tactic(auto, using(qc_rt::proofs::SeenLaws::plain_forms))]
pub(crate) fn projection(alloc: Global, args: &[Json]) -> Result<Json, Halt>
    ensures { GivesSeen (two (by_names projection) (map seen args.now)) result }
{
    let (names, a) = the_two(args)?;
    let names = names_of(alloc, names)?;
    let part = part_of(alloc, names.as_slice(), a)?;
    Ok(Json::Object(part))
}

// The members of the names, which must all be there.
pub(crate) fn part_of(alloc: Global, names: &[Chars], a: &Json) -> Result<Members, Halt>
    ensures { GivesFields (part_of names.now (seen a.now)) result }
{
    let fields = fields_of(a)?;
    if has_names(names, fields) {
        Ok(fields_at(alloc, names, fields)?)
    } else {
        Err(Halt::Stuck)
    }
}

// Whether the object has each of the names.
fn has_names(names: &[Chars], fields: &Members) -> bool
    ensures { result ≡ has_names names.now (fields_seen fields.now) }
{
    for name in names {
        if fields.get(name.as_str()).is_none() {
            return false;
        }
    }
    true
}

// Whether the name is one of the names.
pub(crate) fn is_among(name: &str, names: &[Chars]) -> bool
    ensures { result ≡ is_among name.now names.now }
{
    for other in names {
        if name == other.as_str() {
            return true;
        }
    }
    false
}

// The members of the names.
fn fields_at(alloc: Global, names: &[Chars], fields: &Members) -> Result<Members, Memory>
    ensures { IfOk result (λ made. made ≡ filter (λ pair. is_among pair.0 names.now) fields.now) }
{
    let mut part = Members::new(alloc);
    for pair in fields.as_slice() {
        if is_among(pair.0.as_str(), names) {
            put_last(alloc, &mut part, pair)?;
        }
    }
    Ok(part)
}

pub(crate) fn concatenation(alloc: Global, args: &[Json]) -> Result<Json, Halt>
    ensures { GivesSeen (two concatenation (map seen args.now)) result }
{
    let (a, b) = the_two(args)?;
    let first = fields_of(a)?;
    let second = fields_of(b)?;
    Ok(joined(alloc, first, second)?)
}

// The object of all members, the second's on shared names.
#[tactic(auto, using(crate::proofs::ObjectLaws::over_shown))]
fn joined(alloc: Global, first: &Members, second: &Members) -> Result<Json, Memory>
    requires left { has_marker first.now ≡ false }
    requires right { has_marker second.now ≡ false }
    ensures { IfOk result (λ made. seen made ≡ Rec (over (fields_seen first.now) (fields_seen second.now))) }
{
    let all = over(alloc, first, second)?;
    Ok(Json::Object(all))
}

pub(crate) fn merger(alloc: Global, args: &[Json]) -> Result<Json, Halt>
    ensures { GivesSeen (two merger (map seen args.now)) result }
{
    let (a, b) = the_two(args)?;
    let first = fields_of(a)?;
    let second = fields_of(b)?;
    Ok(merged(alloc, first, second)?)
}

// The array of the object of both where the values at shared names are the same, and else none.
#[tactic(auto, using(qc_rt::proofs::SeenLaws::forms))]
fn merged(alloc: Global, first: &Members, second: &Members) -> Result<Json, Memory>
    requires left { has_marker first.now ≡ false }
    requires right { has_marker second.now ≡ false }
    ensures { IfOk result (λ made. seen made
        ≡ Coll (cond (compatible (fields_seen first.now) (fields_seen second.now))
        (Rec (over (fields_seen first.now) (fields_seen second.now)) ∷ []) [])) }
{
    let mut items = Jsons::new(alloc);
    if compatible(alloc, first, second)? {
        items.add(joined(alloc, first, second)?)?;
    }
    Ok(Json::Array(items))
}

// All members, the second's on shared names: the first's are put into the second, the last first.
fn over(alloc: Global, first: &Members, second: &Members) -> Result<Members, Memory>
    ensures { IfOk result (λ made. fields_seen made ≡ over (fields_seen first.now) (fields_seen second.now)) }
{
    let pairs = first.as_slice();
    let mut made = second.share(alloc)?;
    let mut at = pairs.len();
    while at > 0 {
        at -= 1;
        put_new(alloc, &mut made, &pairs[at])?;
    }
    Ok(made)
}

// Puts a copy of the member in its place, unless there is one of its name.
#[tactic(auto, using(crate::proofs::ObjectLaws::new_there, crate::proofs::ObjectLaws::new_put))]
fn put_new(alloc: Global, all: &mut Members, pair: &(Chars, Json)) -> Result<(), Memory>
    ensures { OnOk result (fields_seen all.new ≡ put_new pair.now.0 (seen pair.now.1) (fields_seen all.old)) }
{
    if all.get(pair.0.as_str()).is_some() {
        return Ok(());
    }
    let name = pair.0.copy(alloc)?;
    let value = copy_json(alloc, &pair.1)?;
    match all.put(name, value) {
        Ok(()) => Ok(()),
        Err(_) => Err(Memory),
    }
}

// Whether the values at shared names are the same.
fn compatible(alloc: Global, first: &Members, second: &Members) -> Result<bool, Memory>
    ensures { IfOk result (λ answer. answer ≡ compatible (fields_seen first.now) (fields_seen second.now)) }
{
    for pair in first.as_slice() {
        if !is_same_at(alloc, &pair.1, second.get(pair.0.as_str()))? {
            return Ok(false);
        }
    }
    Ok(true)
}

// Whether the tree is the same as the other, if there is one.
fn is_same_at(alloc: Global, a: &Json, b: Option<&Json>) -> Result<bool, Memory>
    ensures { IfOk result (λ answer. answer ≡ same_at (seen a.now) (option_map seen (option_copied b.entry))) }
{
    match b {
        Some(b) => is_same(alloc, a, b),
        None => Ok(true),
    }
}

// Puts a copy of the member last.
fn put_last(alloc: Global, all: &mut Members, pair: &(Chars, Json)) -> Result<(), Memory>
    requires { Rising (all.old ++ pair.now ∷ []) }
    ensures { OnOk result (all.new ≡ all.old ++ pair.now ∷ []) }
{
    let name = pair.0.copy(alloc)?;
    let value = copy_json(alloc, &pair.1)?;
    all.add(name, value)
}
