// Rows in the order of their values at keys.
ghost use Rattle.std.specs.Prelude.{◌≡◌, map, unwrap_or, IfOk};
ghost use Rattle.std.specs.Option.{option_copied};
ghost use Rattle.qc_data.specs.Order.{cmp, sort_by};
ghost use Rattle.qc_data.specs.Outcome.{Gives};
ghost use Rattle.qc_data.specs.declared.data.Datum.TheVariants.{Rec, Unit as Nothing};
ghost use Rattle.qc_ops.specs.inner.Columns.{keyed_rows, values_cmp};
ghost use Rattle.qc_ops.specs.Sorting.{directed, ordered};

use crate::columns::{Keyed, are_columns, records_of, with_values};
use crate::op::Keys;
use crate::operands::items_of;
use qc_containers::{Memory, Share};
use qc_data::{Datum, Halt, Items, cmp};
use std::alloc::Global;
use std::cmp::Ordering;

pub(crate) fn ordered(alloc: Global, keys: &Keys, a: &Datum) -> Result<Datum, Halt>
    ensures { Gives (ordered keys.now a.now) result }
{
    let items = items_of(a)?;
    let records = records_of(alloc, items.as_slice())?;
    let rows = with_values(alloc, keys, records.as_slice())?;
    if !are_columns(keys, rows.as_slice()) {
        return Err(Halt::Stuck);
    }
    let rows = sorted(keys, rows)?;
    let rows = without_values(alloc, rows.as_slice())?;
    Ok(Datum::Coll(rows))
}

// The rows in the order of their values; those that tie keep theirs.
fn sorted<'a>(keys: &Keys, rows: Vec<Keyed<'a>>) -> Result<Vec<Keyed<'a>>, Memory>
    ensures { IfOk result (λ made. keyed_rows made.items
        ≡ sort_by (λ a b. values_cmp 0 keys.now a.0 b.0) (keyed_rows rows.entry.items)) }
{
    let mut rows = rows;
    rows.sort_by(|first, second| values_cmp(keys, &first.values, &second.values))?;
    Ok(rows)
}

// How the values of one row stand to another's by the keys in turn.
fn values_cmp(keys: &Keys, first: &Items, second: &Items) -> Ordering
    ensures { result ≡ values_cmp 0 keys.now first.now second.now }
{
    for (at, key) in keys.as_slice().iter().enumerate() {
        match directed(key.1, first.get(at), second.get(at)) {
            Ordering::Equal => {}
            decided => return decided,
        }
    }
    Ordering::Equal
}

// How a value stands to another, or the other way round where it is descending.
fn directed(ascending: bool, first: Option<&Datum>, second: Option<&Datum>) -> Ordering
    ensures { result
        ≡ directed ascending (unwrap_or (option_copied first.entry) Nothing)
        (unwrap_or (option_copied second.entry) Nothing) }
{
    if ascending {
        value_cmp(first, second)
    } else {
        value_cmp(second, first)
    }
}

// How a value stands to another, where none counts as unit.
#[tactic(auto, using(crate::proofs::RowOrder::same_units))]
fn value_cmp(first: Option<&Datum>, second: Option<&Datum>) -> Ordering
    ensures { result
        ≡ cmp (unwrap_or (option_copied first.entry) Nothing) (unwrap_or (option_copied second.entry) Nothing) }
{
    match (first, second) {
        (Some(x), Some(y)) => cmp(x, y),
        (Some(x), None) => cmp(x, &Datum::Unit),
        (None, Some(y)) => cmp(&Datum::Unit, y),
        (None, None) => Ordering::Equal,
    }
}

// The rows alone, shared.
fn without_values(alloc: Global, rows: &[Keyed]) -> Result<Items, Memory>
    ensures { IfOk result (λ made. made ≡ map (λ row. Rec row.1) (keyed_rows rows.now)) }
{
    let mut all = Items::new(alloc);
    for row in rows {
        let fields = row.fields.share(alloc)?;
        all.add(Datum::Rec(fields))?;
    }
    Ok(all)
}
