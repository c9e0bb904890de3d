// Integers, one and two.
ghost use Rattle.std.specs.Prelude.{◌≡◌, int_rem, map};
ghost use Rattle.qc_data.specs.Outcome.{bits64};
ghost use Rattle.qc_ops.specs.Numbers.{absolute, addition, greater, lesser, multiplication, negative, quotient};
ghost use Rattle.qc_ops.specs.Numbers.{remainder, subtraction};
ghost use Rattle.qc_rt.specs.Parameters.{one, two};
ghost use Rattle.qc_rt.specs.Runtime.{by_divisor};
ghost use Rattle.qc_rt.specs.Seen.{seen};
ghost use Rattle.qc_seen.specs.Giving.{GivesSeen};

use qc_data::{Halt, Json};
use qc_ops::Divisor;
use qc_seen::{divisor_of, int_of, made, the_only, the_two};

pub(crate) fn negative(args: &[Json]) -> Result<Json, Halt>
    ensures { GivesSeen (one (negative bits64) (map seen args.now)) result }
{
    let a = the_only(args)?;
    let n = int_of(a)?;
    made(-i128::from(n))
}

pub(crate) fn absolute(args: &[Json]) -> Result<Json, Halt>
    ensures { GivesSeen (one (absolute bits64) (map seen args.now)) result }
{
    let a = the_only(args)?;
    let n = int_of(a)?;
    made(i128::from(n.unsigned_abs()))
}

pub(crate) fn quotient(args: &[Json]) -> Result<Json, Halt>
    ensures { GivesSeen (two (by_divisor (quotient bits64)) (map seen args.now)) result }
{
    let (k, a) = the_two(args)?;
    let divisor = divisor_of(k)?;
    let n = int_of(a)?;
    made(i128::from(n) / i128::from(divisor.get()))
}

pub(crate) fn remainder(args: &[Json]) -> Result<Json, Halt>
    ensures { GivesSeen (two (by_divisor (remainder bits64)) (map seen args.now)) result }
{
    let (k, a) = the_two(args)?;
    let divisor = divisor_of(k)?;
    let n = int_of(a)?;
    made(rest(n, divisor))
}

// What a division leaves, with the sign of what is divided.
fn rest(n: i64, divisor: Divisor) -> i128
    ensures { result ≡ int_rem n divisor }
{
    i128::from(n) % i128::from(divisor.get())
}

pub(crate) fn addition(args: &[Json]) -> Result<Json, Halt>
    ensures { GivesSeen (two (addition bits64) (map seen args.now)) result }
{
    let (a, b) = the_two(args)?;
    let x = int_of(a)?;
    let y = int_of(b)?;
    made(i128::from(x) + i128::from(y))
}

pub(crate) fn subtraction(args: &[Json]) -> Result<Json, Halt>
    ensures { GivesSeen (two (subtraction bits64) (map seen args.now)) result }
{
    let (a, b) = the_two(args)?;
    let x = int_of(a)?;
    let y = int_of(b)?;
    made(i128::from(x) - i128::from(y))
}

pub(crate) fn multiplication(args: &[Json]) -> Result<Json, Halt>
    ensures { GivesSeen (two (multiplication bits64) (map seen args.now)) result }
{
    let (a, b) = the_two(args)?;
    let x = int_of(a)?;
    let y = int_of(b)?;
    made(i128::from(x) * i128::from(y))
}

#[tactic(auto, using(qc_rt::proofs::SeenLaws::forms))]
pub(crate) fn lesser(args: &[Json]) -> Result<Json, Halt>
    ensures { GivesSeen (two lesser (map seen args.now)) result }
{
    let (a, b) = the_two(args)?;
    let x = int_of(a)?;
    let y = int_of(b)?;
    Ok(Json::Int(x.min(y)))
}

#[tactic(auto, using(qc_rt::proofs::SeenLaws::forms))]
pub(crate) fn greater(args: &[Json]) -> Result<Json, Halt>
    ensures { GivesSeen (two greater (map seen args.now)) result }
{
    let (a, b) = the_two(args)?;
    let x = int_of(a)?;
    let y = int_of(b)?;
    Ok(Json::Int(x.max(y)))
}
