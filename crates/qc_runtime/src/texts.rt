// Texts.
ghost use Rattle.std.specs.Prelude.{map};
ghost use Rattle.qc_ops.specs.Texts.{joined, likeness};
ghost use Rattle.qc_rt.specs.Parameters.{two};
ghost use Rattle.qc_rt.specs.Runtime.{by_pattern};
ghost use Rattle.qc_rt.specs.Seen.{seen};
ghost use Rattle.qc_seen.specs.Giving.{GivesSeen};

use qc_containers::Chars;
use qc_data::{Halt, Json};
use qc_like::like;
use qc_seen::{text_of, the_two};
use std::alloc::Global;

#[tactic(auto, using(qc_rt::proofs::SeenLaws::forms))]
pub(crate) fn likeness(args: &[Json]) -> Result<Json, Halt>
    ensures { GivesSeen (two (by_pattern likeness) (map seen args.now)) result }
{
    let (pattern, a) = the_two(args)?;
    let pattern = text_of(pattern)?;
    let text = text_of(a)?;
    Ok(Json::Bool(like(pattern.as_str(), text.as_str())))
}

#[tactic(auto, using(qc_rt::proofs::SeenLaws::forms))]
pub(crate) fn joined(alloc: Global, args: &[Json]) -> Result<Json, Halt>
    ensures { GivesSeen (two joined (map seen args.now)) result }
{
    let (a, b) = the_two(args)?;
    let first = text_of(a)?;
    let second = text_of(b)?;
    let both = Chars::joined(alloc, first.as_str(), second.as_str())?;
    Ok(Json::Text(both))
}
