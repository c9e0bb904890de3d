// Operands by their kind, and collections of joined records.
ghost use Rattle.qc_data.specs.Kinds.{as_coll};
ghost use Rattle.qc_data.specs.Outcome.{gather, Gives, GivesRef};
ghost use Rattle.qc_nra.specs.Forms as forms;
ghost use Rattle.qc_nra.specs.inner.Added.{Adds};
ghost use Rattle.qc_ops.specs.Operands.{as_rec, bag};

use qc_data::{Datum, Fields, Halt, Items};
use qc_ops::{Binary, apply2};
use qc_trees::items_of;
use std::alloc::Global;

// The fields of the record that the datum is.
pub(crate) fn fields_of(d: &Datum) -> Result<&Fields, Halt>
    ensures { GivesRef (as_rec d.now) result }
{
    match d {
        Datum::Rec(fields) => Ok(fields),
        _ => Err(Halt::Stuck),
    }
}

// The collection that the datum is.
pub(crate) fn only_bag(d: Datum) -> Result<Datum, Halt>
    ensures { Gives (bag (as_coll d)) result }
{
    match d {
        Datum::Coll(items) => Ok(Datum::Coll(items)),
        _ => Err(Halt::Stuck),
    }
}

// Each pair of members of two collections as one record.
#[tactic(auto, unfolding(crate::specs::Forms::product_of))]
pub(crate) fn product_of(alloc: Global, first: &Datum, second: &Datum) -> Result<Datum, Halt>
    ensures { Gives (forms.product_of first.now second.now) result }
{
    let first = items_of(first)?;
    let second = items_of(second)?;
    Ok(Datum::Coll(pairs(alloc, first.as_slice(), second.as_slice())?))
}

// The same of their members.
#[tactic(auto, using(crate::proofs::Adding::gather_added))]
fn pairs(alloc: Global, first: &[Datum], second: &[Datum]) -> Result<Items, Halt>
    ensures { Gives (gather (forms.beside second.now) first.now) result }
{
    let mut all = Items::new(alloc);
    for item in first {
        add_beside(alloc, &mut all, second, item)?;
    }
    Ok(all)
}

// Puts a record with each of the members last.
#[tactic(auto, using(crate::proofs::Adding::beside_added))]
pub(crate) fn add_beside(
    alloc: Global,
    all: &mut Items,
    members: &[Datum],
    first: &Datum,
) -> Result<(), Halt>
    ensures { Adds (forms.beside members.now first.now) all.old all.new result }
{
    for member in members {
        all.add(apply2(alloc, &Binary::Cat, first, member)?)?;
    }
    Ok(())
}
