// Rows by their values at names.
ghost use Rattle.std.specs.Prelude.{◌≡◌, false, length, map, zip, IfOk};
ghost use Rattle.std.specs.List.{AllByRecursion};
ghost use Rattle.qc_containers.specs.Pairs.{put};
ghost use Rattle.qc_data.specs.Order.{canon};
ghost use Rattle.qc_data.specs.Outcome.{and_then, each, Value};
ghost use Rattle.qc_data.specs.declared.data.Datum.TheVariants.{Coll, Rec};
ghost use Rattle.qc_ops.specs.Bags.{firsts};
ghost use Rattle.qc_containers.specs.Name.{is_marker};
ghost use Rattle.qc_ops.specs.Grouping.{group_of, grouped, Lacks};
ghost use Rattle.qc_ops.specs.Operands.{as_rec};
ghost use Rattle.qc_ops.specs.Records.{projection};
ghost use Rattle.qc_rt.specs.Parameters.{three};
ghost use Rattle.qc_rt.specs.Runtime.{by_groups};
ghost use Rattle.qc_rt.specs.Seen.{seen};
ghost use Rattle.qc_seen.specs.Gathering.{Gathers};
ghost use Rattle.qc_seen.specs.Giving.{GivesSeen};
ghost use Rattle.qc_runtime.specs.inner.Giving.{GivesBag, GivesItems};

use crate::objects::{is_among, part_of};
use qc_containers::{Chars, Memory, Share};
use qc_data::{Datum, Halt, Json, Jsons, copy_json};
use qc_keys::{Key, Tally};
use qc_seen::{Gathering, fields_of, items_of, marks, name_of, names_of, the_three};
use std::alloc::Global;

#[tactic(auto, using(qc_rt::proofs::SeenLaws::forms))]
pub(crate) fn grouped(alloc: Global, args: &[Json]) -> Result<Json, Halt>
    ensures { GivesSeen (three by_groups (map seen args.now)) result }
{
    let (g, names, a) = the_three(args)?;
    let g = name_of(g)?;
    let names = names_of(alloc, names)?;
    let groups = groups_of(alloc, g, names.as_slice(), a)?;
    Ok(Json::Array(groups))
}

// The groups of the rows.
fn groups_of(alloc: Global, g: &Chars, names: &[Chars], a: &Json) -> Result<Jsons, Halt>
    requires { is_marker g.now ≡ false }
    ensures { GivesBag (grouped g.now names.now (seen a.now)) result }
{
    let items = items_of(a)?;
    if is_among(g.as_str(), names) {
        return Err(Halt::Stuck);
    }
    let rows = items.as_slice();
    let keys = keys_of(alloc, names, rows)?;
    groups(alloc, g, keys.as_slice(), rows)
}

// The rows' projections.
#[tactic(auto, using(qc_data::proofs::Outcomes::gather_is))]
fn keys_of(alloc: Global, names: &[Chars], rows: &[Json]) -> Result<Jsons, Halt>
    ensures { GivesItems (each (projection names.now) (map seen rows.now)) result }
{
    let mut keys = Jsons::new(alloc);
    for row in rows {
        keys.add(key_of(alloc, names, row)?)?;
    }
    Ok(keys)
}

// A row's projection.
#[tactic(auto, using(qc_rt::proofs::SeenLaws::plain_forms))]
fn key_of(alloc: Global, names: &[Chars], row: &Json) -> Result<Json, Halt>
    ensures { GivesSeen (projection names.now (seen row.now)) result }
{
    let part = part_of(alloc, names, row)?;
    Ok(Json::Object(part))
}

// For each key that is the same as none before it its object with the rows beside it at g. Each canon is made once.
#[tactic(auto, using(qc_data::proofs::Outcomes::gather_is))]
fn groups(alloc: Global, g: &Chars, keys: &[Json], rows: &[Json]) -> Result<Jsons, Halt>
    requires lacking { AllByRecursion (Lacks g.now) (map seen keys.now) }
    requires unmarked { is_marker g.now ≡ false }
    requires beside { length keys.now ≡ length rows.now }
    ensures { GivesItems (each (group_of g.now (zip (map seen keys.now) (map seen rows.now)))
        (firsts (map seen keys.now))) result }
{
    let (marks, _) = marks(alloc, keys, &[])?;
    let canons = canons(alloc, marks.as_slice())?;
    let canons = canons.as_slice();
    let gathering = gathered(alloc, canons, rows)?;
    let mut seen = Tally::new(alloc);
    let mut all = Jsons::new(alloc);
    for (at, key) in keys.iter().enumerate() {
        let canon = &canons[at];
        let is_first = seen.add(canon.copy(alloc)?)? == 1;
        if is_first {
            let members = gathering.at(alloc, canon)?;
            let group = group_of(alloc, g, key, members)?;
            all.add(group)?;
        }
    }
    Ok(all)
}

// The object of a key with the members at g.
fn group_of(alloc: Global, g: &Chars, key: &Json, members: Jsons) -> Result<Json, Halt>
    requires lacking { Lacks g.now (seen key.now) }
    requires unmarked { is_marker g.now ≡ false }
    ensures { GivesSeen (and_then (as_rec (seen key.now))
        (λ fields. Value (Rec (put g.now (Coll (map seen members)) fields)))) result }
{
    let mut fields = fields_of(key)?.share(alloc)?;
    let name = g.copy(alloc)?;
    match fields.put(name, Json::Array(members)) {
        Ok(()) => Ok(Json::Object(fields)),
        Err(_) => Err(Halt::Memory),
    }
}

// The canons of the data.
fn canons(alloc: Global, items: &[Datum]) -> Result<Vec<Key>, Memory>
    ensures { IfOk result (λ made. made.items ≡ map canon items.now) }
{
    let mut all = Vec::new(alloc);
    for item in items {
        all.push(Key::of(alloc, item)?)?;
    }
    Ok(all)
}

// The rows by the canons beside them.
fn gathered(alloc: Global, canons: &[Key], rows: &[Json]) -> Result<Gathering, Memory>
    requires { length canons.now ≡ length rows.now }
    ensures { IfOk result (λ made. Gathers made canons.now rows.now) }
{
    let mut all = Gathering::new(alloc);
    for (at, row) in rows.iter().enumerate() {
        all.add(alloc, &canons[at], copy_json(alloc, row)?)?;
    }
    Ok(all)
}
