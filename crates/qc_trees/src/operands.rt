// Operands by their kind.
ghost use Rattle.qc_data.specs.Kinds.{as_coll};
ghost use Rattle.qc_data.specs.Outcome.{Gives, GivesRef};
ghost use Rattle.qc_data.specs.HeldOperands.{GivesHeld, datum_of};
ghost use Rattle.qc_ops.specs.Operands.{as_bool, found};
ghost use Rattle.qc_ops.specs.Records.{field};
ghost use Rattle.qc_types.specs.Schemas.{global};

use qc_containers::Name;
use qc_data::{Datum, Halt, Held, Items, copy};
use qc_types::World;
use std::alloc::Global;

/// The truth value that the datum is; `Stuck` where it is none.
pub fn bool_of(d: &Datum) -> Result<bool, Halt>
    ensures { Gives (as_bool d.now) result }
{
    match d {
        Datum::Bool(b) => Ok(*b),
        _ => Err(Halt::Stuck),
    }
}

/// The members of the collection that the datum is; `Stuck` where it is none.
pub fn items_of(d: &Datum) -> Result<&Items, Halt>
    ensures { GivesRef (as_coll d.now) result }
{
    match d {
        Datum::Coll(items) => Ok(items),
        _ => Err(Halt::Stuck),
    }
}

/// The value of a global; `Stuck` where the world has none of the name.
pub fn global_of<'a>(world: &'a World, name: &Name) -> Result<&'a Datum, Halt>
    ensures { GivesRef (found (global name.now world.now.datum)) result }
{
    match world.get(name.as_str()) {
        Some(value) => Ok(value),
        None => Err(Halt::Stuck),
    }
}

// The value of a record at the name.
fn field_at<'a>(name: &Name, d: &'a Datum) -> Result<&'a Datum, Halt>
    ensures { GivesRef (field name.now d.now) result }
{
    match d {
        Datum::Rec(fields) => match fields.get(name.as_str()) {
            Some(value) => Ok(value),
            None => Err(Halt::Stuck),
        },
        _ => Err(Halt::Stuck),
    }
}

/// The value of a record at the name, lent where the record is; `Stuck` where it has none, or is no record.
pub fn field_of<'a>(alloc: Global, name: &Name, owner: Held<'a>) -> Result<Held<'a>, Halt>
    ensures { GivesHeld (field name.now (datum_of owner.entry)) result }
{
    match owner {
        Held::Lent(owner) => Ok(Held::Lent(field_at(name, owner)?)),
        Held::Made(owner) => Ok(Held::Made(copy(alloc, field_at(name, &owner)?)?)),
    }
}
