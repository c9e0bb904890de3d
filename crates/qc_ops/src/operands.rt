// Operands by their kind, and the forms of what operators give.
ghost use Rattle.std.specs.Prelude.{◌≡◌, option_map, IfOk};
ghost use Rattle.qc_data.specs.Kinds.{as_coll, as_int, made};
ghost use Rattle.qc_data.specs.Outcome.{bits64, Gives, GivesRef};
ghost use Rattle.qc_ops.specs.Operands.{as_bool, as_brand, as_rec, as_text, optional};

use qc_containers::{Boxed, Chars, Memory, Name};
use qc_data::{Datum, Fields, Halt, Items};
use std::alloc::Global;

// The truth value that the datum is.
pub(crate) fn bool_of(d: &Datum) -> Result<bool, Halt>
    ensures { Gives (as_bool d.now) result }
{
    match d {
        Datum::Bool(b) => Ok(*b),
        _ => Err(Halt::Stuck),
    }
}

// The integer that the datum is.
pub(crate) fn int_of(d: &Datum) -> Result<i64, Halt>
    ensures { Gives (as_int d.now) result }
{
    match d {
        Datum::Int(n) => Ok(*n),
        _ => Err(Halt::Stuck),
    }
}

// The text that the datum is.
pub(crate) fn text_of(d: &Datum) -> Result<&Chars, Halt>
    ensures { GivesRef (as_text d.now) result }
{
    match d {
        Datum::Text(text) => Ok(text),
        _ => Err(Halt::Stuck),
    }
}

// The members of the collection that the datum is.
pub(crate) fn items_of(d: &Datum) -> Result<&Items, Halt>
    ensures { GivesRef (as_coll d.now) result }
{
    match d {
        Datum::Coll(items) => Ok(items),
        _ => Err(Halt::Stuck),
    }
}

// The fields of the record that the datum is.
pub(crate) fn fields_of(d: &Datum) -> Result<&Fields, Halt>
    ensures { GivesRef (as_rec d.now) result }
{
    match d {
        Datum::Rec(fields) => Ok(fields),
        _ => Err(Halt::Stuck),
    }
}

// An integer that an operator makes.
pub(crate) fn made(n: i128) -> Result<Datum, Halt>
    ensures { Gives (made bits64 n) result }
{
    if n < i128::from(i64::MIN) || n > i128::from(i64::MAX) {
        Err(Halt::Range)
    } else {
        Ok(Datum::Int(n as i64))
    }
}

// Left of the datum, or right of unit where there is none.
pub(crate) fn optional(alloc: Global, d: Option<Datum>) -> Result<Datum, Memory>
    ensures { IfOk result (λ made. made ≡ optional d) }
{
    match d {
        Some(d) => Ok(Datum::Left(Boxed::of(alloc, d)?)),
        None => Ok(Datum::Right(Boxed::of(alloc, Datum::Unit)?)),
    }
}
