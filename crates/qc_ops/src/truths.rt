// Truth values, and comparisons that give them.
ghost use Rattle.qc_data.specs.Outcome.{Gives};
ghost use Rattle.qc_ops.specs.Truths.{compared, conjunction, disjunction, is_below, is_not_above, negation};

use crate::operands::bool_of;
use qc_data::{Datum, Halt};
use std::cmp::Ordering;

pub(crate) fn negation(a: &Datum) -> Result<Datum, Halt>
    ensures { Gives (negation a.now) result }
{
    let p = bool_of(a)?;
    Ok(Datum::Bool(!p))
}

pub(crate) fn conjunction(a: &Datum, b: &Datum) -> Result<Datum, Halt>
    ensures { Gives (conjunction a.now b.now) result }
{
    let p = bool_of(a)?;
    let q = bool_of(b)?;
    Ok(Datum::Bool(p && q))
}

pub(crate) fn disjunction(a: &Datum, b: &Datum) -> Result<Datum, Halt>
    ensures { Gives (disjunction a.now b.now) result }
{
    let p = bool_of(a)?;
    let q = bool_of(b)?;
    Ok(Datum::Bool(p || q))
}

// How two integers or two texts compare.
fn compared(a: &Datum, b: &Datum) -> Result<Ordering, Halt>
    ensures { Gives (compared a.now b.now) result }
{
    match (a, b) {
        (Datum::Int(m), Datum::Int(n)) => Ok(m.cmp(n)),
        (Datum::Text(s), Datum::Text(t)) => Ok(s.as_str().cmp(t.as_str())),
        _ => Err(Halt::Stuck),
    }
}

pub(crate) fn is_below(a: &Datum, b: &Datum) -> Result<Datum, Halt>
    ensures { Gives (is_below a.now b.now) result }
{
    let order = compared(a, b)?;
    Ok(Datum::Bool(order.is_lt()))
}

pub(crate) fn is_not_above(a: &Datum, b: &Datum) -> Result<Datum, Halt>
    ensures { Gives (is_not_above a.now b.now) result }
{
    let order = compared(a, b)?;
    Ok(Datum::Bool(order.is_le()))
}
