// Sides of sums, and values of classes.
ghost use Rattle.std.specs.Prelude.{◌≡◌, IfOk};
ghost use Rattle.qc_data.specs.Outcome.{Gives, Value, Outcome};
ghost use Rattle.qc_ops.specs.Sides.{cast, class_value, content, is_under, on_left, on_right};

use crate::operands::optional;
use qc_containers::{Boxed, Name};
use qc_data::{Datum, Halt, copy};
use qc_types::Classes;
use std::alloc::Global;

pub(crate) fn on_left(alloc: Global, a: &Datum) -> Result<Datum, Halt>
    ensures { Gives (on_left a.now) result }
{
    let content = copy(alloc, a)?;
    Ok(Datum::Left(Boxed::of(alloc, content)?))
}

pub(crate) fn on_right(alloc: Global, a: &Datum) -> Result<Datum, Halt>
    ensures { Gives (on_right a.now) result }
{
    let content = copy(alloc, a)?;
    Ok(Datum::Right(Boxed::of(alloc, content)?))
}

pub(crate) fn class_value(alloc: Global, name: &Name, a: &Datum) -> Result<Datum, Halt>
    ensures { Gives (class_value name.now a.now) result }
{
    let name = name.copy(alloc)?;
    let content = copy(alloc, a)?;
    Ok(Datum::Brand(name, Boxed::of(alloc, content)?))
}

pub(crate) fn content(alloc: Global, a: &Datum) -> Result<Datum, Halt>
    ensures { Gives (content a.now) result }
{
    match a {
        Datum::Brand(_, content) => Ok(copy(alloc, content.get())?),
        _ => Err(Halt::Stuck),
    }
}

pub(crate) fn cast(alloc: Global, classes: &Classes, name: &Name, a: &Datum) -> Result<Datum, Halt>
    ensures { Gives (cast classes.now name.now a.now) result }
{
    match a {
        Datum::Brand(own, _) => {
            let kept = if is_under(classes, own, name) {
                Some(copy(alloc, a)?)
            } else {
                None
            };
            Ok(optional(alloc, kept)?)
        }
        _ => Err(Halt::Stuck),
    }
}

// Whether the class is the other or below it.
fn is_under(classes: &Classes, name: &Name, other: &Name) -> bool
    ensures { result ≡ is_under classes.now name.now other.now }
{
    name.as_str() == other.as_str() || classes.below(name, other)
}
