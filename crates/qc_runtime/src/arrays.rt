// Arrays.
ghost use Rattle.std.specs.Prelude.{◌≡◌, ◌++◌, map, OnOk};
ghost use Rattle.qc_data.specs.Kinds.{as_coll};
ghost use Rattle.qc_data.specs.Outcome.{gather};
ghost use Rattle.qc_ops.specs.Bags.{bag_of, flattened, only_member, union};
ghost use Rattle.qc_rt.specs.Parameters.{one, two};
ghost use Rattle.qc_rt.specs.Seen.{seen};
ghost use Rattle.qc_seen.specs.Giving.{GivesSeen};
ghost use Rattle.qc_runtime.specs.inner.Giving.{GivesItems};

use qc_containers::Memory;
use qc_data::{Halt, Json, Jsons, copy_json};
use qc_seen::{items_of, optional, the_only, the_two};
use std::alloc::Global;

#[tactic(auto, using(qc_rt::proofs::SeenLaws::forms))]
pub(crate) fn bag_of(alloc: Global, args: &[Json]) -> Result<Json, Halt>
    ensures { GivesSeen (one bag_of (map seen args.now)) result }
{
    let a = the_only(args)?;
    let mut items = Jsons::new(alloc);
    items.add(copy_json(alloc, a)?)?;
    Ok(Json::Array(items))
}

pub(crate) fn only_member(alloc: Global, args: &[Json]) -> Result<Json, Halt>
    ensures { GivesSeen (one only_member (map seen args.now)) result }
{
    let a = the_only(args)?;
    let items = items_of(a)?;
    match items.as_slice() {
        [item] => {
            let item = copy_json(alloc, item)?;
            Ok(optional(alloc, Some(item))?)
        }
        _ => Ok(optional(alloc, None)?),
    }
}

#[tactic(auto, using(qc_rt::proofs::SeenLaws::forms))]
pub(crate) fn flattened(alloc: Global, args: &[Json]) -> Result<Json, Halt>
    ensures { GivesSeen (one flattened (map seen args.now)) result }
{
    let a = the_only(args)?;
    let items = items_of(a)?;
    let all = flat(alloc, items.as_slice())?;
    Ok(Json::Array(all))
}

// The members of the members.
#[tactic(auto, using(qc_data::proofs::Outcomes::gather_is))]
fn flat(alloc: Global, items: &[Json]) -> Result<Jsons, Halt>
    ensures { GivesItems (gather as_coll (map seen items.now)) result }
{
    let mut all = Jsons::new(alloc);
    for item in items {
        let more = items_of(item)?;
        append(alloc, &mut all, more.as_slice())?;
    }
    Ok(all)
}

// Puts copies of the members last.
fn append(alloc: Global, all: &mut Jsons, more: &[Json]) -> Result<(), Memory>
    ensures { OnOk result (all.new ≡ all.old ++ more.now) }
{
    for item in more {
        all.add(copy_json(alloc, item)?)?;
    }
    Ok(())
}

#[tactic(auto, using(qc_rt::proofs::SeenLaws::forms))]
pub(crate) fn union(alloc: Global, args: &[Json]) -> Result<Json, Halt>
    ensures { GivesSeen (two union (map seen args.now)) result }
{
    let (a, b) = the_two(args)?;
    let first = items_of(a)?;
    let second = items_of(b)?;
    let mut all = Jsons::new(alloc);
    append(alloc, &mut all, first.as_slice())?;
    append(alloc, &mut all, second.as_slice())?;
    Ok(Json::Array(all))
}
