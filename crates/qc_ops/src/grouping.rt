// Rows by their values at names.
ghost use Rattle.std.specs.Prelude.{◌≡◌, length, map, zip, IfOk};
ghost use Rattle.std.specs.List.{AllByRecursion};
ghost use Rattle.qc_data.specs.Order.{canon};
ghost use Rattle.qc_data.specs.Outcome.{and_then, each, Gives, Value};
ghost use Rattle.qc_containers.specs.Pairs.{put};
ghost use Rattle.qc_data.specs.declared.data.Datum.TheVariants.{Coll, Rec};
ghost use Rattle.qc_ops.specs.Bags.{firsts};
ghost use Rattle.qc_ops.specs.Grouping.{group_of, grouped, Lacks};
ghost use Rattle.qc_ops.specs.inner.Beside.{Gathers};
ghost use Rattle.qc_ops.specs.Operands.{as_rec};
ghost use Rattle.qc_ops.specs.Records.{projection};

use crate::op::Names;
use crate::operands::{fields_of, items_of};
use crate::records::{is_among, projection};
use qc_containers::{Memory, Name, Share};
use qc_data::{Datum, Halt, Items, copy};
use qc_keys::{Gathering, Key, Tally};
use std::alloc::Global;

pub(crate) fn grouped(alloc: Global, g: &Name, names: &Names, a: &Datum) -> Result<Datum, Halt>
    ensures { Gives (grouped g.now names.now a.now) result }
{
    let items = items_of(a)?;
    if is_among(g, names) {
        return Err(Halt::Stuck);
    }
    let rows = items.as_slice();
    let keys = keys_of(alloc, names, rows)?;
    let groups = groups(alloc, g, keys.as_slice(), rows)?;
    Ok(Datum::Coll(groups))
}

// The rows' projections.
#[tactic(auto, using(qc_data::proofs::Outcomes::gather_is))]
fn keys_of(alloc: Global, names: &Names, rows: &[Datum]) -> Result<Items, Halt>
    ensures { Gives (each (projection names.now) rows.now) result }
{
    let mut keys = Items::new(alloc);
    for row in rows {
        let key = projection(alloc, names, row)?;
        keys.add(key)?;
    }
    Ok(keys)
}

// For each key that is the same as none before it its record with the rows beside it at g. Each canon is made once.
#[tactic(auto, using(qc_data::proofs::Outcomes::gather_is))]
fn groups(alloc: Global, g: &Name, keys: &[Datum], rows: &[Datum]) -> Result<Items, Halt>
    requires lacking { AllByRecursion (Lacks g.now) keys.now }
    requires beside { length keys.now ≡ length rows.now }
    ensures { Gives (each (group_of g.now (zip keys.now rows.now)) (firsts keys.now)) result }
{
    let canons = canons(alloc, keys)?;
    let canons = canons.as_slice();
    let gathering = gathered(alloc, canons, rows)?;
    let mut seen = Tally::new(alloc);
    let mut all = Items::new(alloc);
    for (at, key) in keys.iter().enumerate() {
        let canon = &canons[at];
        let is_first = seen.add(canon.copy(alloc)?)? == 1;
        if is_first {
            let members = gathering.at(alloc, canon)?;
            let group = group_of(alloc, g, key, members)?;
            all.add(group)?;
        }
    }
    Ok(all)
}

// The record of a key with the members at g.
fn group_of(alloc: Global, g: &Name, key: &Datum, members: Items) -> Result<Datum, Halt>
    requires { Lacks g.now key.now }
    ensures { Gives (and_then (as_rec key.now) (λ fields. Value (Rec (put g.now (Coll members) fields)))) result }
{
    let mut fields = fields_of(key)?.share(alloc)?;
    let name = g.copy(alloc)?;
    match fields.put(name, Datum::Coll(members)) {
        Ok(()) => Ok(Datum::Rec(fields)),
        Err(_) => Err(Halt::Memory),
    }
}

// The canons of the data.
fn canons(alloc: Global, items: &[Datum]) -> Result<Vec<Key>, Memory>
    ensures { IfOk result (λ made. made.items ≡ map canon items.now) }
{
    let mut all = Vec::new(alloc);
    for item in items {
        all.push(Key::of(alloc, item)?)?;
    }
    Ok(all)
}

// The rows by the canons beside them.
fn gathered(alloc: Global, canons: &[Key], rows: &[Datum]) -> Result<Gathering, Memory>
    requires { length canons.now ≡ length rows.now }
    ensures { IfOk result (λ made. Gathers made canons.now rows.now) }
{
    let mut all = Gathering::new(alloc);
    for (at, row) in rows.iter().enumerate() {
        all.add(alloc, &canons[at], copy(alloc, row)?)?;
    }
    Ok(all)
}
