// Truth values, and comparisons that give them.
ghost use Rattle.std.specs.Prelude.{map};
ghost use Rattle.qc_data.specs.Outcome.{Gives};
ghost use Rattle.qc_ops.specs.Truths.{compared, conjunction, disjunction, is_below, is_not_above, negation};
ghost use Rattle.qc_rt.specs.Parameters.{one, two};
ghost use Rattle.qc_rt.specs.Seen.{seen};
ghost use Rattle.qc_seen.specs.Giving.{GivesSeen};

use qc_data::{Halt, Json};
use qc_seen::{bool_of, the_only, the_two};
use std::cmp::Ordering;

#[tactic(auto, using(qc_rt::proofs::SeenLaws::forms))]
pub(crate) fn negation(args: &[Json]) -> Result<Json, Halt>
    ensures { GivesSeen (one negation (map seen args.now)) result }
{
    let a = the_only(args)?;
    let p = bool_of(a)?;
    Ok(Json::Bool(!p))
}

#[tactic(auto, using(qc_rt::proofs::SeenLaws::forms))]
pub(crate) fn conjunction(args: &[Json]) -> Result<Json, Halt>
    ensures { GivesSeen (two conjunction (map seen args.now)) result }
{
    let (a, b) = the_two(args)?;
    let p = bool_of(a)?;
    let q = bool_of(b)?;
    Ok(Json::Bool(p && q))
}

#[tactic(auto, using(qc_rt::proofs::SeenLaws::forms))]
pub(crate) fn disjunction(args: &[Json]) -> Result<Json, Halt>
    ensures { GivesSeen (two disjunction (map seen args.now)) result }
{
    let (a, b) = the_two(args)?;
    let p = bool_of(a)?;
    let q = bool_of(b)?;
    Ok(Json::Bool(p || q))
}

// How two integers or two texts compare.
#[tactic(auto, using(crate::proofs::Comparing::compared_seen))]
fn compared(a: &Json, b: &Json) -> Result<Ordering, Halt>
    ensures { Gives (compared (seen a.now) (seen b.now)) result }
{
    match (a, b) {
        (Json::Int(m), Json::Int(n)) => Ok(m.cmp(n)),
        (Json::Text(s), Json::Text(t)) => Ok(s.as_str().cmp(t.as_str())),
        _ => Err(Halt::Stuck),
    }
}

#[tactic(auto, using(qc_rt::proofs::SeenLaws::forms))]
pub(crate) fn is_below(args: &[Json]) -> Result<Json, Halt>
    ensures { GivesSeen (two is_below (map seen args.now)) result }
{
    let (a, b) = the_two(args)?;
    let order = compared(a, b)?;
    Ok(Json::Bool(order.is_lt()))
}

#[tactic(auto, using(qc_rt::proofs::SeenLaws::forms))]
pub(crate) fn is_not_above(args: &[Json]) -> Result<Json, Halt>
    ensures { GivesSeen (two is_not_above (map seen args.now)) result }
{
    let (a, b) = the_two(args)?;
    let order = compared(a, b)?;
    Ok(Json::Bool(order.is_le()))
}
