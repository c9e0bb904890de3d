// The members of arrays of integers, taken together.
ghost use Rattle.std.specs.Prelude.{◌≡◌, ◌≢◌, int_div, map, option_map, pos, IfOk};
ghost use Rattle.qc_data.specs.Kinds.{as_int, made, total};
ghost use Rattle.qc_data.specs.Outcome.{and_then, bits64, each, Gives, Value};
ghost use Rattle.qc_data.specs.declared.data.Datum.TheVariants.{Int};
ghost use Rattle.qc_ops.specs.Numbers.{average, count, greatest_of, least_of, maximum, minimum, sum};
ghost use Rattle.qc_ops.specs.Operands.{optional};
ghost use Rattle.qc_rt.specs.Parameters.{one};
ghost use Rattle.qc_rt.specs.Seen.{seen};
ghost use Rattle.qc_seen.specs.Giving.{GivesSeen};

use qc_containers::Memory;
use qc_data::{Halt, Json};
use qc_seen::{int_of, items_of, made, optional, the_only};
use std::alloc::Global;

pub(crate) fn count(args: &[Json]) -> Result<Json, Halt>
    ensures { GivesSeen (one (count bits64) (map seen args.now)) result }
{
    let a = the_only(args)?;
    let items = items_of(a)?;
    made(items.len() as i128)
}

pub(crate) fn sum(args: &[Json]) -> Result<Json, Halt>
    ensures { GivesSeen (one (sum bits64) (map seen args.now)) result }
{
    let a = the_only(args)?;
    let items = items_of(a)?;
    let total = total(items.as_slice())?;
    made(total)
}

pub(crate) fn average(alloc: Global, args: &[Json]) -> Result<Json, Halt>
    ensures { GivesSeen (one (average bits64) (map seen args.now)) result }
{
    let a = the_only(args)?;
    let items = items_of(a)?;
    let total = total(items.as_slice())?;
    if items.len() == 0 {
        return Ok(optional(alloc, None)?);
    }
    let mean = mean(total, items.len())?;
    Ok(optional(alloc, Some(mean))?)
}

// The total by the number of what it is the total of.
fn mean(total: i128, count: usize) -> Result<Json, Halt>
    requires { count ≢ 0 }
    ensures { GivesSeen (made bits64 (int_div total (pos count))) result }
{
    made(total / count as i128)
}

// The total of the integers, which has room in 128 bits.
#[tactic(auto, using(qc_ops::proofs::Folds::totals))]
fn total(items: &[Json]) -> Result<i128, Halt>
    ensures { Gives (and_then (each as_int (map seen items.now)) (λ ns. Value (total ns))) result }
{
    let mut total: i128 = 0;
    for item in items {
        let n = int_of(item)?;
        total += i128::from(n);
    }
    Ok(total)
}

pub(crate) fn minimum(alloc: Global, args: &[Json]) -> Result<Json, Halt>
    ensures { GivesSeen (one minimum (map seen args.now)) result }
{
    let a = the_only(args)?;
    let items = items_of(a)?;
    let least = least(items.as_slice())?;
    Ok(optional_int(alloc, least)?)
}

pub(crate) fn maximum(alloc: Global, args: &[Json]) -> Result<Json, Halt>
    ensures { GivesSeen (one maximum (map seen args.now)) result }
{
    let a = the_only(args)?;
    let items = items_of(a)?;
    let greatest = greatest(items.as_slice())?;
    Ok(optional_int(alloc, greatest)?)
}

// The least of the integers.
#[tactic(auto, using(qc_ops::proofs::Folds::leasts))]
fn least(items: &[Json]) -> Result<Option<i64>, Halt>
    ensures { Gives (and_then (each as_int (map seen items.now)) (λ ns. Value (least_of ns))) result }
{
    let mut least: Option<i64> = None;
    for item in items {
        let n = int_of(item)?;
        least = match least {
            Some(m) => Some(m.min(n)),
            None => Some(n),
        };
    }
    Ok(least)
}

// The greatest of the integers.
#[tactic(auto, using(qc_ops::proofs::Folds::greatests))]
fn greatest(items: &[Json]) -> Result<Option<i64>, Halt>
    ensures { Gives (and_then (each as_int (map seen items.now)) (λ ns. Value (greatest_of ns))) result }
{
    let mut greatest: Option<i64> = None;
    for item in items {
        let n = int_of(item)?;
        greatest = match greatest {
            Some(m) => Some(m.max(n)),
            None => Some(n),
        };
    }
    Ok(greatest)
}

// Left of the integer, or right of null where there is none.
#[tactic(auto, using(qc_rt::proofs::SeenLaws::forms))]
fn optional_int(alloc: Global, n: Option<i64>) -> Result<Json, Memory>
    ensures { IfOk result (λ made. seen made ≡ optional (option_map Int n)) }
{
    match n {
        Some(n) => optional(alloc, Some(Json::Int(n))),
        None => optional(alloc, None),
    }
}
