// The functions' values in 64 bits.
ghost use Rattle.std.specs.Prelude.{ℤ, map, List};
ghost use Rattle.qc_data.specs.Outcome.{any_size, bits64, within, Agrees, Gives};
ghost use Rattle.qc_data.specs.declared.data.Json.{Json};
ghost use Rattle.qc_rt.specs.Laws.{Encodes1, Encodes2};
ghost use Rattle.qc_rt.specs.Runtime.{runtime, value_on};
ghost use Rattle.qc_rt.specs.Seen.{seen};
ghost use Rattle.qc_seen.specs.Giving.{GivesSeen};
ghost use Rattle.qc_rt.specs.declared.function.Rt.{Rt};

use crate::aggregates::{average, count, maximum, minimum, sum};
use crate::arrays::{bag_of, flattened, only_member, union};
use crate::grouping::grouped;
use crate::numbers::{
    absolute, addition, greater, lesser, multiplication, negative, quotient, remainder, subtraction,
};
use crate::objects::{concatenation, field, merger, nothing, projection, record_of};
use crate::sameness::{distinct, equality, except, intersection, membership};
use crate::sides::{cast_among, class_value, content, leftness, on_left, on_right, payload};
use crate::sorting::ordered;
use crate::texts::{joined, likeness};
use crate::truths::{conjunction, disjunction, is_below, is_not_above, negation};
use qc_data::{Halt, Json, Jsons};
use qc_rt::Rt;
use std::alloc::Global;

/// The function's value on the arguments in 64 bits. `Range`: an integer that it makes has more; `Stuck`: there are
/// more or fewer arguments than it takes, or one is of another kind; `Memory`: memory was wanting. On all arguments
/// the value at any two bounds agrees with that at any size. On encodings of data each function of an operator gives
/// the encoding of the operator's value.
pub fn apply_rt(alloc: Global, f: Rt, args: &Jsons) -> Result<Json, Halt>
    ensures value { Gives (runtime bits64 f args.now) result }
    ensures agrees { (function : Rt) (arguments : List Json) (low high : ℤ)
        → Agrees (runtime any_size function arguments) (runtime (within low high) function arguments) }
    ensures encodes_one { Encodes1 }
    ensures encodes_two { Encodes2 }
{
    apply(alloc, f, args.as_slice())
}

/// The same of the arguments in a slice.
#[tactic(auto, using(crate::proofs::Answered::answered))]
pub fn apply(alloc: Global, f: Rt, args: &[Json]) -> Result<Json, Halt>
    ensures { Gives (runtime bits64 f args.now) result }
{
    value_on(alloc, f, args)
}

// The value, seen.
fn value_on(alloc: Global, f: Rt, args: &[Json]) -> Result<Json, Halt>
    ensures { GivesSeen (value_on bits64 f (map seen args.now)) result }
{
    match f {
        Rt::Not => negation(args),
        Rt::Neg => negative(args),
        Rt::Abs => absolute(args),
        Rt::DivBy => quotient(args),
        Rt::ModBy => remainder(args),
        Rt::Count => count(args),
        Rt::Sum => sum(args),
        Rt::Min => minimum(alloc, args),
        Rt::Max => maximum(alloc, args),
        Rt::Avg => average(alloc, args),
        Rt::Element => only_member(alloc, args),
        Rt::Flatten => flattened(alloc, args),
        Rt::Distinct => distinct(alloc, args),
        Rt::Single => bag_of(alloc, args),
        Rt::Rec => record_of(alloc, args),
        Rt::Dot => field(alloc, args),
        Rt::Project => projection(alloc, args),
        Rt::Left => on_left(alloc, args),
        Rt::Right => on_right(alloc, args),
        Rt::Brand => class_value(alloc, args),
        Rt::Unbrand => content(alloc, args),
        Rt::Cast => cast_among(alloc, args),
        Rt::Order => ordered(alloc, args),
        Rt::Group => grouped(alloc, args),
        Rt::Like => likeness(args),
        Rt::Eq => equality(alloc, args),
        Rt::Lt => is_below(args),
        Rt::Le => is_not_above(args),
        Rt::And => conjunction(args),
        Rt::Or => disjunction(args),
        Rt::Add => addition(args),
        Rt::Sub => subtraction(args),
        Rt::Mul => multiplication(args),
        Rt::Least => lesser(args),
        Rt::Greatest => greater(args),
        Rt::Union => union(alloc, args),
        Rt::Except => except(alloc, args),
        Rt::Intersect => intersection(alloc, args),
        Rt::Member => membership(alloc, args),
        Rt::Cat => concatenation(alloc, args),
        Rt::Merge => merger(alloc, args),
        Rt::Glue => joined(alloc, args),
        Rt::Nothing => nothing(alloc, args),
        Rt::IsLeft => leftness(args),
        Rt::Payload => payload(alloc, args),
    }
}
