// Sameness of trees, and members of arrays by how many copies of them there are.
ghost use Rattle.std.specs.Prelude.{◌≡◌, map};
ghost use Rattle.qc_ops.specs.Bags.{distinct, except, intersection, membership};
ghost use Rattle.qc_ops.specs.Sameness.{equality};
ghost use Rattle.qc_rt.specs.Parameters.{one, two};
ghost use Rattle.qc_rt.specs.Seen.{seen};
ghost use Rattle.qc_seen.specs.Giving.{GivesSeen};

use qc_bags::Keep;
use qc_data::{Halt, Json};
use qc_seen::{has_same, is_same, items_of, kept, the_only, the_two};
use std::alloc::Global;

#[tactic(auto, using(qc_rt::proofs::SeenLaws::forms))]
pub(crate) fn equality(alloc: Global, args: &[Json]) -> Result<Json, Halt>
    ensures { GivesSeen (two equality (map seen args.now)) result }
{
    let (a, b) = the_two(args)?;
    let answer = is_same(alloc, a, b)?;
    Ok(Json::Bool(answer))
}

#[tactic(auto, using(qc_rt::proofs::SeenLaws::forms))]
pub(crate) fn membership(alloc: Global, args: &[Json]) -> Result<Json, Halt>
    ensures { GivesSeen (two membership (map seen args.now)) result }
{
    let (a, b) = the_two(args)?;
    let items = items_of(b)?;
    let answer = has_same(alloc, a, items.as_slice())?;
    Ok(Json::Bool(answer))
}

#[tactic(auto, using(qc_rt::proofs::SeenLaws::forms))]
pub(crate) fn distinct(alloc: Global, args: &[Json]) -> Result<Json, Halt>
    ensures { GivesSeen (one distinct (map seen args.now)) result }
{
    let a = the_only(args)?;
    let items = items_of(a)?;
    let firsts = kept(alloc, Keep::First, items.as_slice(), &[])?;
    Ok(Json::Array(firsts))
}

#[tactic(auto, using(qc_rt::proofs::SeenLaws::forms))]
pub(crate) fn except(alloc: Global, args: &[Json]) -> Result<Json, Halt>
    ensures { GivesSeen (two except (map seen args.now)) result }
{
    let (a, b) = the_two(args)?;
    let first = items_of(a)?;
    let second = items_of(b)?;
    let left = kept(alloc, Keep::Beyond, first.as_slice(), second.as_slice())?;
    Ok(Json::Array(left))
}

#[tactic(auto, using(qc_rt::proofs::SeenLaws::forms))]
pub(crate) fn intersection(alloc: Global, args: &[Json]) -> Result<Json, Halt>
    ensures { GivesSeen (two intersection (map seen args.now)) result }
{
    let (a, b) = the_two(args)?;
    let first = items_of(a)?;
    let second = items_of(b)?;
    let shared = kept(alloc, Keep::Within, first.as_slice(), second.as_slice())?;
    Ok(Json::Array(shared))
}
