// Rows beside their values at keys, and the columns of these values.
ghost use Rattle.std.specs.List.{list_all};
ghost use Rattle.std.specs.Option.{option_copied};
ghost use Rattle.std.specs.Prelude.{◌≡◌, map, unwrap_or, IfOk};
ghost use Rattle.qc_data.specs.Outcome.{each};
ghost use Rattle.qc_data.specs.declared.data.Datum.TheVariants.{Unit as Nothing};
ghost use Rattle.qc_ops.specs.inner.Columns.{are_columns, behind, is_of, keyed_rows, nth, values_at, with_values};
ghost use Rattle.qc_ops.specs.inner.Columns.{GivesRefs};
ghost use Rattle.qc_ops.specs.Operands.{as_rec};
ghost use Rattle.qc_ops.specs.Sorting.{one_kind};

use crate::op::Keys;
use crate::operands::fields_of;
use qc_containers::Memory;
use qc_data::{Datum, Fields, Halt, Items, copy};
use std::alloc::Global;

// A row beside its values at the keys.
#[derive(Drop)]
pub(crate) struct Keyed<'a> {
    // The values.
    pub(crate) values: Items,
    // The row's fields.
    pub(crate) fields: &'a Fields,
}

// A kind of values that rows may be ordered by.
#[derive(Clone, Copy, Debug)]
enum Kind {
    Int,
    Text,
    Bool,
}

// The fields of the rows, which must all be records.
#[tactic(auto, using(qc_data::proofs::Outcomes::gather_is))]
pub(crate) fn records_of(alloc: Global, rows: &[Datum]) -> Result<Vec<&Fields>, Halt>
    ensures { GivesRefs (each as_rec rows.now) result }
{
    let mut records = Vec::new(alloc);
    for row in rows {
        let fields = fields_of(row)?;
        match records.push(fields) {
            Ok(()) => {}
            Err(_) => return Err(Halt::Memory),
        }
    }
    Ok(records)
}

// The records beside their values at the keys.
pub(crate) fn with_values<'a>(
    alloc: Global,
    keys: &Keys,
    records: &[&'a Fields],
) -> Result<Vec<Keyed<'a>>, Memory>
    ensures { IfOk result (λ made. keyed_rows made.items ≡ map (with_values keys.now) (behind records.now)) }
{
    let mut all = Vec::new(alloc);
    for record in records {
        let values = values_at(alloc, keys, record)?;
        let fields = *record;
        all.push(Keyed { values, fields })?;
    }
    Ok(all)
}

// The record's values at the keys, and unit where one is not there.
fn values_at(alloc: Global, keys: &Keys, fields: &Fields) -> Result<Items, Memory>
    ensures { IfOk result (λ made. made ≡ values_at keys.now fields.now) }
{
    let mut values = Items::new(alloc);
    for key in keys.as_slice() {
        let value = copied(alloc, fields.get(key.0.as_str()))?;
        values.add(value)?;
    }
    Ok(values)
}

// A copy of the datum, or unit where there is none.
fn copied(alloc: Global, d: Option<&Datum>) -> Result<Datum, Memory>
    ensures { IfOk result (λ made. made ≡ unwrap_or (option_copied d.entry) Nothing) }
{
    match d {
        Some(d) => copy(alloc, d),
        None => Ok(Datum::Unit),
    }
}

// Whether at each key the rows' values are of one kind.
pub(crate) fn are_columns(keys: &Keys, rows: &[Keyed]) -> bool
    ensures { result ≡ are_columns 0 keys.now (keyed_rows rows.now) }
{
    for (at, _key) in keys.as_slice().iter().enumerate() {
        if !is_column(at, rows) {
            return false;
        }
    }
    true
}

// Whether the rows' values at the place are of one kind.
fn is_column(at: usize, rows: &[Keyed]) -> bool
    ensures { result ≡ one_kind (map (λ row. nth at row.0) (keyed_rows rows.now)) }
{
    all_of(Kind::Int, at, rows) || all_of(Kind::Text, at, rows) || all_of(Kind::Bool, at, rows)
}

// Whether the rows' values at the place are of the kind.
fn all_of(kind: Kind, at: usize, rows: &[Keyed]) -> bool
    ensures { result ≡ list_all (is_of kind) (map (λ row. nth at row.0) (keyed_rows rows.now)) }
{
    for row in rows {
        if !is_of(kind, row.values.get(at)) {
            return false;
        }
    }
    true
}

// Whether the datum, or unit where there is none, is of the kind.
fn is_of(kind: Kind, d: Option<&Datum>) -> bool
    ensures { result ≡ is_of kind (unwrap_or (option_copied d.entry) Nothing) }
{
    match (kind, d) {
        (Kind::Int, Some(Datum::Int(_))) => true,
        (Kind::Text, Some(Datum::Text(_))) => true,
        (Kind::Bool, Some(Datum::Bool(_))) => true,
        _ => false,
    }
}
