// Operands by their kind.
ghost use Rattle.qc_data.specs.Kinds.{as_coll};
ghost use Rattle.qc_data.specs.Outcome.{Gives, GivesRef};
ghost use Rattle.qc_ops.specs.Operands.{as_bool};
ghost use Rattle.qc_oql_tree.specs.OperatorMeanings.{name_of};

use qc_containers::{Chars, Name, NameFault};
use qc_data::{Datum, Halt, Items};
use std::alloc::Global;

// The truth value that the datum is.
pub(crate) fn bool_of(d: &Datum) -> Result<bool, Halt>
    ensures { Gives (as_bool d.now) result }
{
    match d {
        Datum::Bool(b) => Ok(*b),
        _ => Err(Halt::Stuck),
    }
}

// The members of the collection that the datum is.
pub(crate) fn items_of(d: &Datum) -> Result<&Items, Halt>
    ensures { GivesRef (as_coll d.now) result }
{
    match d {
        Datum::Coll(items) => Ok(items),
        _ => Err(Halt::Stuck),
    }
}

// The text as a name, which it must be.
pub(crate) fn name_of(alloc: Global, text: &Chars) -> Result<Name, Halt>
    ensures { Gives (name_of text.now) result }
{
    match Name::of(alloc, text.as_str()) {
        Ok(name) => Ok(name),
        Err(NameFault::BadName) => Err(Halt::Stuck),
        Err(NameFault::Memory) => Err(Halt::Memory),
    }
}
