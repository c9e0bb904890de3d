// Rows in the order of their values at keys.
ghost use Rattle.std.specs.Prelude.{◌≡◌, map, unwrap_or, IfOk};
ghost use Rattle.std.specs.Option.{option_copied};
ghost use Rattle.qc_data.specs.Order.{cmp, sort_by};
ghost use Rattle.qc_data.specs.declared.data.Datum.TheVariants.{Unit as Nothing};
ghost use Rattle.qc_ops.specs.Sorting.{directed, ordered};
ghost use Rattle.qc_ops.specs.inner.Columns.{values_cmp};
ghost use Rattle.qc_rt.specs.Parameters.{three};
ghost use Rattle.qc_rt.specs.Runtime.{by_keys};
ghost use Rattle.qc_rt.specs.Seen.{seen};
ghost use Rattle.qc_seen.specs.Giving.{GivesSeen};
ghost use Rattle.qc_runtime.specs.inner.Giving.{GivesBag};

use crate::columns::{Keyed, are_columns, with_values};
use qc_containers::{Chars, Memory};
use qc_data::{Datum, Halt, Items, Json, Jsons, cmp, copy_json};
use qc_seen::{items_of, keys_of, the_three};
use std::alloc::Global;
use std::cmp::Ordering;

#[tactic(auto, using(qc_rt::proofs::SeenLaws::forms))]
pub(crate) fn ordered(alloc: Global, args: &[Json]) -> Result<Json, Halt>
    ensures { GivesSeen (three by_keys (map seen args.now)) result }
{
    let (names, directions, a) = the_three(args)?;
    let keys = keys_of(alloc, names, directions)?;
    let rows = in_order(alloc, keys.as_slice(), a)?;
    Ok(Json::Array(rows))
}

// The rows in the order of their values at the keys.
fn in_order(alloc: Global, keys: &[(Chars, bool)], a: &Json) -> Result<Jsons, Halt>
    ensures { GivesBag (ordered keys.now (seen a.now)) result }
{
    let items = items_of(a)?;
    let rows = with_values(alloc, keys, items.as_slice())?;
    if !are_columns(keys, rows.as_slice()) {
        return Err(Halt::Stuck);
    }
    let rows = sorted(keys, rows)?;
    Ok(trees(alloc, rows.as_slice())?)
}

// The rows in the order of their values; those that tie keep theirs.
fn sorted<'a>(keys: &[(Chars, bool)], rows: Vec<Keyed<'a>>) -> Result<Vec<Keyed<'a>>, Memory>
    ensures { IfOk result (λ made. made.items
        ≡ sort_by (λ x y. values_cmp 0 keys.now x.values y.values) rows.entry.items) }
{
    let mut rows = rows;
    rows.sort_by(|first, second| values_cmp(keys, &first.values, &second.values))?;
    Ok(rows)
}

// How the values of one row stand to another's by the keys in turn.
fn values_cmp(keys: &[(Chars, bool)], first: &Items, second: &Items) -> Ordering
    ensures { result ≡ values_cmp 0 keys.now first.now second.now }
{
    for (at, key) in keys.iter().enumerate() {
        match directed(key.1, first.get(at), second.get(at)) {
            Ordering::Equal => {}
            decided => return decided,
        }
    }
    Ordering::Equal
}

// How a value stands to another, or the other way round where it is descending.
fn directed(ascending: bool, first: Option<&Datum>, second: Option<&Datum>) -> Ordering
    ensures { result
        ≡ directed ascending (unwrap_or (option_copied first.entry) Nothing)
        (unwrap_or (option_copied second.entry) Nothing) }
{
    if ascending {
        value_cmp(first, second)
    } else {
        value_cmp(second, first)
    }
}

// How a value stands to another, where none counts as unit.
#[tactic(auto, using(qc_ops::proofs::RowOrder::same_units))]
fn value_cmp(first: Option<&Datum>, second: Option<&Datum>) -> Ordering
    ensures { result
        ≡ cmp (unwrap_or (option_copied first.entry) Nothing) (unwrap_or (option_copied second.entry) Nothing) }
{
    match (first, second) {
        (Some(x), Some(y)) => cmp(x, y),
        (Some(x), None) => cmp(x, &Datum::Unit),
        (None, Some(y)) => cmp(&Datum::Unit, y),
        (None, None) => Ordering::Equal,
    }
}

// The rows alone, shared.
fn trees(alloc: Global, rows: &[Keyed]) -> Result<Jsons, Memory>
    ensures { IfOk result (λ made. made ≡ map (λ row. row.tree.now) rows.now) }
{
    let mut all = Jsons::new(alloc);
    for row in rows {
        all.add(copy_json(alloc, row.tree)?)?;
    }
    Ok(all)
}
