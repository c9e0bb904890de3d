// Records.
ghost use Rattle.std.specs.Prelude.{◌≡◌, IfOk};
ghost use Rattle.qc_data.specs.Outcome.{Gives};
ghost use Rattle.qc_ops.specs.Records.{concatenation, field, fields_at, has_names, is_among, merger};
ghost use Rattle.qc_ops.specs.Records.{part_of, projection, record_of};

use crate::joining::{compatible, over, over_taken, put_last};
use crate::op::Names;
use crate::operands::fields_of;
use qc_containers::{Memory, Name};
use qc_data::{Datum, Fields, Halt, Items, copy};
use std::alloc::Global;

pub(crate) fn record_of(alloc: Global, name: &Name, a: &Datum) -> Result<Datum, Halt>
    ensures { Gives (record_of name.now a.now) result }
{
    let name = name.copy(alloc)?;
    let value = copy(alloc, a)?;
    let mut fields = Fields::new(alloc);
    fields.add(name, value)?;
    Ok(Datum::Rec(fields))
}

pub(crate) fn field(alloc: Global, name: &Name, a: &Datum) -> Result<Datum, Halt>
    ensures { Gives (field name.now a.now) result }
{
    let fields = fields_of(a)?;
    match fields.get(name.as_str()) {
        Some(value) => Ok(copy(alloc, value)?),
        None => Err(Halt::Stuck),
    }
}

pub(crate) fn projection(alloc: Global, names: &Names, a: &Datum) -> Result<Datum, Halt>
    ensures { Gives (projection names.now a.now) result }
{
    let part = part_of(alloc, names, a)?;
    Ok(Datum::Rec(part))
}

// The fields of the names, which must all be there.
fn part_of(alloc: Global, names: &Names, a: &Datum) -> Result<Fields, Halt>
    ensures { Gives (part_of names.now a.now) result }
{
    let fields = fields_of(a)?;
    if has_names(names, fields) {
        Ok(fields_at(alloc, names, fields)?)
    } else {
        Err(Halt::Stuck)
    }
}

// Whether the record has each of the names.
fn has_names(names: &Names, fields: &Fields) -> bool
    ensures { result ≡ has_names names.now fields.now }
{
    for name in names.as_slice() {
        if fields.get(name.as_str()).is_none() {
            return false;
        }
    }
    true
}

// Whether the name is one of the names.
pub(crate) fn is_among(name: &Name, names: &Names) -> bool
    ensures { result ≡ is_among name.now names.now }
{
    for other in names.as_slice() {
        if name.as_str() == other.as_str() {
            return true;
        }
    }
    false
}

// The fields of the names.
fn fields_at(alloc: Global, names: &Names, fields: &Fields) -> Result<Fields, Memory>
    ensures { IfOk result (λ made. made ≡ fields_at names.now fields.now) }
{
    let mut part = Fields::new(alloc);
    for pair in fields.as_slice() {
        if is_among(&pair.0, names) {
            put_last(alloc, &mut part, pair)?;
        }
    }
    Ok(part)
}

pub(crate) fn concatenation(alloc: Global, a: &Datum, b: &Datum) -> Result<Datum, Halt>
    ensures { Gives (concatenation a.now b.now) result }
{
    let first = fields_of(a)?;
    let second = fields_of(b)?;
    let all = over(alloc, first, second)?;
    Ok(Datum::Rec(all))
}

// The same of a second record that is not needed again.
pub(crate) fn concatenation_taking(alloc: Global, a: &Datum, b: Datum) -> Result<Datum, Halt>
    ensures { Gives (concatenation a.now b) result }
{
    let first = fields_of(a)?;
    match b {
        Datum::Rec(second) => Ok(Datum::Rec(over_taken(alloc, first, second)?)),
        _ => Err(Halt::Stuck),
    }
}

pub(crate) fn merger(alloc: Global, a: &Datum, b: &Datum) -> Result<Datum, Halt>
    ensures { Gives (merger a.now b.now) result }
{
    let first = fields_of(a)?;
    let second = fields_of(b)?;
    let mut merged = Items::new(alloc);
    if compatible(alloc, first, second)? {
        merged.add(Datum::Rec(over(alloc, first, second)?))?;
    }
    Ok(Datum::Coll(merged))
}
