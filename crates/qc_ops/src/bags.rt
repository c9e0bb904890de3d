// Collections.
ghost use Rattle.std.specs.Prelude.{◌≡◌, ◌++◌, OnOk};
ghost use Rattle.qc_data.specs.Kinds.{as_coll};
ghost use Rattle.qc_data.specs.Outcome.{gather, Gives};
ghost use Rattle.qc_ops.specs.Bags.{bag_of, distinct, except, flattened, intersection, membership, only_member, union};
ghost use Rattle.qc_ops.specs.Sameness.{equality};

use crate::operands::{items_of, optional};
use qc_bags::{Keep, kept};
use qc_containers::Memory;
use qc_data::{Datum, Halt, Items, copy};
use qc_keys::{has_same, is_same};
use std::alloc::Global;

pub(crate) fn equality(alloc: Global, a: &Datum, b: &Datum) -> Result<Datum, Halt>
    ensures { Gives (equality a.now b.now) result }
{
    let answer = is_same(alloc, a, b)?;
    Ok(Datum::Bool(answer))
}

pub(crate) fn bag_of(alloc: Global, a: &Datum) -> Result<Datum, Halt>
    ensures { Gives (bag_of a.now) result }
{
    let mut items = Items::new(alloc);
    items.add(copy(alloc, a)?)?;
    Ok(Datum::Coll(items))
}

pub(crate) fn only_member(alloc: Global, a: &Datum) -> Result<Datum, Halt>
    ensures { Gives (only_member a.now) result }
{
    let items = items_of(a)?;
    match items.as_slice() {
        [item] => {
            let item = copy(alloc, item)?;
            Ok(optional(alloc, Some(item))?)
        }
        _ => Ok(optional(alloc, None)?),
    }
}

pub(crate) fn flattened(alloc: Global, a: &Datum) -> Result<Datum, Halt>
    ensures { Gives (flattened a.now) result }
{
    let items = items_of(a)?;
    let all = flat(alloc, items.as_slice())?;
    Ok(Datum::Coll(all))
}

// The members of the members.
#[tactic(auto, using(qc_data::proofs::Outcomes::gather_is))]
fn flat(alloc: Global, items: &[Datum]) -> Result<Items, Halt>
    ensures { Gives (gather as_coll items.now) result }
{
    let mut all = Items::new(alloc);
    for item in items {
        let more = items_of(item)?;
        append(alloc, &mut all, more.as_slice())?;
    }
    Ok(all)
}

// Puts copies of the members last.
fn append(alloc: Global, all: &mut Items, more: &[Datum]) -> Result<(), Memory>
    ensures { OnOk result (all.new ≡ all.old ++ more.now) }
{
    for item in more {
        all.add(copy(alloc, item)?)?;
    }
    Ok(())
}

pub(crate) fn union(alloc: Global, a: &Datum, b: &Datum) -> Result<Datum, Halt>
    ensures { Gives (union a.now b.now) result }
{
    let first = items_of(a)?;
    let second = items_of(b)?;
    let mut all = Items::new(alloc);
    append(alloc, &mut all, first.as_slice())?;
    append(alloc, &mut all, second.as_slice())?;
    Ok(Datum::Coll(all))
}

pub(crate) fn distinct(alloc: Global, a: &Datum) -> Result<Datum, Halt>
    ensures { Gives (distinct a.now) result }
{
    let items = items_of(a)?;
    let firsts = kept(alloc, Keep::First, items.as_slice(), &[])?;
    Ok(Datum::Coll(firsts))
}

pub(crate) fn except(alloc: Global, a: &Datum, b: &Datum) -> Result<Datum, Halt>
    ensures { Gives (except a.now b.now) result }
{
    let first = items_of(a)?;
    let second = items_of(b)?;
    let left = kept(alloc, Keep::Beyond, first.as_slice(), second.as_slice())?;
    Ok(Datum::Coll(left))
}

pub(crate) fn intersection(alloc: Global, a: &Datum, b: &Datum) -> Result<Datum, Halt>
    ensures { Gives (intersection a.now b.now) result }
{
    let first = items_of(a)?;
    let second = items_of(b)?;
    let shared = kept(alloc, Keep::Within, first.as_slice(), second.as_slice())?;
    Ok(Datum::Coll(shared))
}

pub(crate) fn membership(alloc: Global, a: &Datum, b: &Datum) -> Result<Datum, Halt>
    ensures { Gives (membership a.now b.now) result }
{
    let items = items_of(b)?;
    let answer = has_same(alloc, a, items.as_slice())?;
    Ok(Datum::Bool(answer))
}
