// Rows in the order of the values of their keys.
ghost use Rattle.std.specs.List.{list_all};
ghost use Rattle.std.specs.Option.{option_copied};
ghost use Rattle.std.specs.Prelude.{◌≡◌, map, unwrap_or, IfOk};
ghost use Rattle.qc_data.specs.Order.{cmp};
ghost use Rattle.qc_data.specs.Outcome.{Value};
ghost use Rattle.qc_data.specs.declared.data.Datum.TheVariants.{Unit as Nothing};
ghost use Rattle.qc_ops.specs.inner.Columns.{behind, GivesRefs};
ghost use Rattle.qc_ops.specs.Operands.{only_if};
ghost use Rattle.qc_ops.specs.Sorting.{directed, one_kind};
ghost use Rattle.qc_oql_eval.specs.inner.SortKinds.{is_of};
ghost use Rattle.qc_oql_eval.specs.inner.SelectRows.{keyed_rows, directions};
ghost use Rattle.qc_oql_tree.specs.SelectMeaning.{are_sortable, is_ascending, keys_cmp, sorted};
ghost use Rattle.qc_oql_eval.specs.inner.Columns.{value_at};

use crate::scope::Row;
use qc_containers::Memory;
use qc_data::{Datum, Halt, Items, cmp};
use qc_oql_tree::{Direction, Key};
use std::alloc::Global;
use std::cmp::Ordering;

// A row with the values of its keys.
#[derive(Drop)]
pub(crate) struct Keyed<'a> {
    // The values.
    pub(crate) keys: Items,
    // The row.
    pub(crate) row: &'a Row,
}

// A kind of values that rows may be ordered by.
#[derive(Clone, Copy)]
enum Kind {
    Int,
    Text,
    Bool,
}

// The rows in order. `Stuck`: a key's values are not of one such kind.
pub(crate) fn in_order<'a>(
    alloc: Global,
    keys: &[Key],
    rows: Vec<Keyed<'a>>,
) -> Result<Vec<&'a Row>, Halt>
    ensures { GivesRefs (only_if (are_sortable (directions keys.now) (map (λ row. row.0) (keyed_rows rows.entry.items)))
        (Value (map (λ row. row.1) (sorted (directions keys.now) (keyed_rows rows.entry.items))))) result }
{
    if !are_sortable(keys, rows.as_slice()) {
        return Err(Halt::Stuck);
    }
    let rows = sorted(keys, rows)?;
    Ok(without_keys(alloc, rows.as_slice())?)
}

// Whether each key's values are of one kind.
#[tactic(auto, using(crate::proofs::Columns::sortable_from_start))]
fn are_sortable(keys: &[Key], rows: &[Keyed]) -> bool
    ensures { result ≡ are_sortable (directions keys.now) (map (λ row. row.0) (keyed_rows rows.now)) }
{
    for (at, _key) in keys.iter().enumerate() {
        if !is_column(at, rows) {
            return false;
        }
    }
    true
}

// Whether the values of the key at the place are of one kind.
fn is_column(at: usize, rows: &[Keyed]) -> bool
    ensures { result ≡ one_kind (map (λ row. value_at at row.0) (keyed_rows rows.now)) }
{
    all_of(Kind::Int, at, rows) || all_of(Kind::Text, at, rows) || all_of(Kind::Bool, at, rows)
}

// Whether the values of the key at the place are of the kind.
fn all_of(kind: Kind, at: usize, rows: &[Keyed]) -> bool
    ensures { result ≡ list_all (is_of kind) (map (λ row. value_at at row.0) (keyed_rows rows.now)) }
{
    for row in rows {
        if !is_of(kind, row.keys.get(at)) {
            return false;
        }
    }
    true
}

// Whether the datum, or unit where there is none, is of the kind.
fn is_of(kind: Kind, d: Option<&Datum>) -> bool
    ensures { result ≡ is_of kind (unwrap_or (option_copied d.entry) Nothing) }
{
    match (kind, d) {
        (Kind::Int, Some(Datum::Int(_))) => true,
        (Kind::Text, Some(Datum::Text(_))) => true,
        (Kind::Bool, Some(Datum::Bool(_))) => true,
        _ => false,
    }
}

// The rows in order; those that tie keep theirs.
fn sorted<'a>(keys: &[Key], rows: Vec<Keyed<'a>>) -> Result<Vec<Keyed<'a>>, Memory>
    ensures { IfOk result (λ made. keyed_rows made.items ≡ sorted (directions keys.now) (keyed_rows rows.entry.items)) }
{
    let mut rows = rows;
    rows.sort_by(|first, second| keys_cmp(keys, &first.keys, &second.keys))?;
    Ok(rows)
}

// How the values of one row's keys stand to another's.
#[tactic(auto, using(crate::proofs::Columns::keys_from_start))]
fn keys_cmp(keys: &[Key], first: &Items, second: &Items) -> Ordering
    ensures { result ≡ keys_cmp (directions keys.now) first.now second.now }
{
    for (at, key) in keys.iter().enumerate() {
        match directed(key.direction, first.get(at), second.get(at)) {
            Ordering::Equal => {}
            decided => return decided,
        }
    }
    Ordering::Equal
}

// How a value stands to another, or the other way round where it is descending.
fn directed(direction: Direction, first: Option<&Datum>, second: Option<&Datum>) -> Ordering
    ensures { result ≡ directed (is_ascending direction) (unwrap_or (option_copied first.entry) Nothing)
        (unwrap_or (option_copied second.entry) Nothing) }
{
    match direction {
        Direction::Asc => value_cmp(first, second),
        Direction::Desc => value_cmp(second, first),
    }
}

// How a value stands to another, where none counts as unit.
#[tactic(auto, using(qc_ops::proofs::RowOrder::same_units))]
fn value_cmp(first: Option<&Datum>, second: Option<&Datum>) -> Ordering
    ensures { result
        ≡ cmp (unwrap_or (option_copied first.entry) Nothing) (unwrap_or (option_copied second.entry) Nothing) }
{
    match (first, second) {
        (Some(x), Some(y)) => cmp(x, y),
        (Some(x), None) => cmp(x, &Datum::Unit),
        (None, Some(y)) => cmp(&Datum::Unit, y),
        (None, None) => Ordering::Equal,
    }
}

// The rows alone.
fn without_keys<'a>(alloc: Global, rows: &[Keyed<'a>]) -> Result<Vec<&'a Row>, Memory>
    ensures { IfOk result (λ made. behind made.items ≡ map (λ row. row.1) (keyed_rows rows.now)) }
{
    let mut all = Vec::new(alloc);
    for row in rows {
        all.push(row.row)?;
    }
    Ok(all)
}
