// Texts.
ghost use Rattle.qc_data.specs.Outcome.{Gives};
ghost use Rattle.qc_ops.specs.Texts.{joined, likeness};

use crate::operands::text_of;
use qc_containers::Chars;
use qc_data::{Datum, Halt};
use qc_like::like;
use std::alloc::Global;

pub(crate) fn likeness(pattern: &Chars, a: &Datum) -> Result<Datum, Halt>
    ensures { Gives (likeness pattern.now a.now) result }
{
    let text = text_of(a)?;
    Ok(Datum::Bool(like(pattern.as_str(), text.as_str())))
}

pub(crate) fn joined(alloc: Global, a: &Datum, b: &Datum) -> Result<Datum, Halt>
    ensures { Gives (joined a.now b.now) result }
{
    let first = text_of(a)?;
    let second = text_of(b)?;
    let both = Chars::joined(alloc, first.as_str(), second.as_str())?;
    Ok(Datum::Text(both))
}
