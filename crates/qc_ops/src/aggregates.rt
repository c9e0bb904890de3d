// The members of collections of integers, taken together.
ghost use Rattle.std.specs.Prelude.{◌≡◌, ◌≢◌, int_div, option_map, pos, IfOk};
ghost use Rattle.qc_data.specs.Kinds.{as_int, made, total};
ghost use Rattle.qc_data.specs.Outcome.{and_then, bits64, each, Gives, Value};
ghost use Rattle.qc_data.specs.declared.data.Datum.TheVariants.{Int};
ghost use Rattle.qc_ops.specs.Numbers.{average, count, greatest_of, least_of, maximum, minimum, sum};
ghost use Rattle.qc_ops.specs.Operands.{optional};

use crate::operands::{int_of, items_of, made, optional};
use qc_containers::Memory;
use qc_data::{Datum, Halt};
use std::alloc::Global;

pub(crate) fn count(a: &Datum) -> Result<Datum, Halt>
    ensures { Gives (count bits64 a.now) result }
{
    let items = items_of(a)?;
    made(items.len() as i128)
}

pub(crate) fn sum(a: &Datum) -> Result<Datum, Halt>
    ensures { Gives (sum bits64 a.now) result }
{
    let items = items_of(a)?;
    let total = total(items.as_slice())?;
    made(total)
}

pub(crate) fn average(alloc: Global, a: &Datum) -> Result<Datum, Halt>
    ensures { Gives (average bits64 a.now) result }
{
    let items = items_of(a)?;
    let total = total(items.as_slice())?;
    if items.len() == 0 {
        return Ok(optional(alloc, None)?);
    }
    let mean = mean(total, items.len())?;
    Ok(optional(alloc, Some(mean))?)
}

// The total by the number of what it is the total of.
fn mean(total: i128, count: usize) -> Result<Datum, Halt>
    requires { count ≢ 0 }
    ensures { Gives (made bits64 (int_div total (pos count))) result }
{
    made(total / count as i128)
}

// The total of the integers, which has room in 128 bits.
#[tactic(auto, using(crate::proofs::Folds::totals))]
fn total(items: &[Datum]) -> Result<i128, Halt>
    ensures { Gives (and_then (each as_int items.now) (λ ns. Value (total ns))) result }
{
    let mut total: i128 = 0;
    for item in items {
        let n = int_of(item)?;
        total += i128::from(n);
    }
    Ok(total)
}

pub(crate) fn minimum(alloc: Global, a: &Datum) -> Result<Datum, Halt>
    ensures { Gives (minimum a.now) result }
{
    let items = items_of(a)?;
    let least = least(items.as_slice())?;
    Ok(optional_int(alloc, least)?)
}

pub(crate) fn maximum(alloc: Global, a: &Datum) -> Result<Datum, Halt>
    ensures { Gives (maximum a.now) result }
{
    let items = items_of(a)?;
    let greatest = greatest(items.as_slice())?;
    Ok(optional_int(alloc, greatest)?)
}

// The least of the integers.
#[tactic(auto, using(crate::proofs::Folds::leasts))]
fn least(items: &[Datum]) -> Result<Option<i64>, Halt>
    ensures { Gives (and_then (each as_int items.now) (λ ns. Value (least_of ns))) result }
{
    let mut least: Option<i64> = None;
    for item in items {
        let n = int_of(item)?;
        least = match least {
            Some(m) => Some(m.min(n)),
            None => Some(n),
        };
    }
    Ok(least)
}

// The greatest of the integers.
#[tactic(auto, using(crate::proofs::Folds::greatests))]
fn greatest(items: &[Datum]) -> Result<Option<i64>, Halt>
    ensures { Gives (and_then (each as_int items.now) (λ ns. Value (greatest_of ns))) result }
{
    let mut greatest: Option<i64> = None;
    for item in items {
        let n = int_of(item)?;
        greatest = match greatest {
            Some(m) => Some(m.max(n)),
            None => Some(n),
        };
    }
    Ok(greatest)
}

// Left of the integer, or right of unit where there is none.
fn optional_int(alloc: Global, n: Option<i64>) -> Result<Datum, Memory>
    ensures { IfOk result (λ made. made ≡ optional (option_map Int n)) }
{
    match n {
        Some(n) => optional(alloc, Some(Datum::Int(n))),
        None => optional(alloc, None),
    }
}
