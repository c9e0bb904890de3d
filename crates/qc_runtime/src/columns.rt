// Rows beside their values at keys, and the columns of these values.
ghost use Rattle.std.specs.List.{list_all};
ghost use Rattle.std.specs.Option.{option_copied};
ghost use Rattle.std.specs.Prelude.{◌≡◌, map, option_map, unwrap_or, IfOk};
ghost use Rattle.qc_data.specs.declared.data.Datum.TheVariants.{Unit as Nothing};
ghost use Rattle.qc_ops.specs.Sorting.{one_kind};
ghost use Rattle.qc_ops.specs.inner.Columns.{nth};
ghost use Rattle.qc_rt.specs.Seen.{seen};
ghost use Rattle.qc_runtime.specs.inner.Columns.{atom, columns_hold, GivesKeyed, GivesValues, is_of, key_values};
ghost use Rattle.qc_rt.specs.Seen.{fields_seen};

use qc_containers::{Chars, Memory};
use qc_data::{Datum, Halt, Items, Json, Members};
use qc_seen::fields_of;
use std::alloc::Global;

// A row beside its values at the keys.
#[derive(Drop)]
pub(crate) struct Keyed<'a> {
    // The values, and unit in place of those that rows cannot be ordered by.
    pub(crate) values: Items,
    // The row.
    pub(crate) tree: &'a Json,
}

// A kind of values that rows may be ordered by.
#[derive(Clone, Copy, Debug)]
enum Kind {
    Int,
    Text,
    Bool,
}

// The rows, which must all be plain objects, beside their values at the keys.
pub(crate) fn with_values<'a>(
    alloc: Global,
    keys: &[(Chars, bool)],
    rows: &'a [Json],
) -> Result<Vec<Keyed<'a>>, Halt>
    ensures { GivesKeyed keys.now (map seen rows.now) result }
{
    let mut all = Vec::new(alloc);
    for tree in rows {
        let values = row_values(alloc, keys, tree)?;
        match all.push(Keyed { values, tree }) {
            Ok(()) => {}
            Err(_) => return Err(Halt::Memory),
        }
    }
    Ok(all)
}

// The values at the keys of a row, which must be a plain object.
fn row_values(alloc: Global, keys: &[(Chars, bool)], tree: &Json) -> Result<Items, Halt>
    ensures { GivesValues keys.now (seen tree.now) result }
{
    let fields = fields_of(tree)?;
    Ok(values_at(alloc, keys, fields)?)
}

// The object's values at the keys.
fn values_at(alloc: Global, keys: &[(Chars, bool)], fields: &Members) -> Result<Items, Memory>
    ensures { IfOk result (λ made. made ≡ key_values keys.now (fields_seen fields.now)) }
{
    let mut values = Items::new(alloc);
    for key in keys {
        let value = atom(alloc, fields.get(key.0.as_str()))?;
        values.add(value)?;
    }
    Ok(values)
}

// The value that the tree is, if rows may be ordered by it, and else unit.
#[tactic(auto, using(qc_rt::proofs::SeenLaws::forms))]
fn atom(alloc: Global, j: Option<&Json>) -> Result<Datum, Memory>
    ensures { IfOk result (λ made. made ≡ atom (unwrap_or (option_map seen (option_copied j.entry)) Nothing)) }
{
    match j {
        Some(Json::Int(n)) => Ok(Datum::Int(*n)),
        Some(Json::Text(text)) => Ok(Datum::Text(text.copy(alloc)?)),
        Some(Json::Bool(b)) => Ok(Datum::Bool(*b)),
        _ => Ok(Datum::Unit),
    }
}

// Whether at each key the rows' values are of one kind.
pub(crate) fn are_columns(keys: &[(Chars, bool)], rows: &[Keyed]) -> bool
    ensures { result ≡ columns_hold 0 keys.now (map (λ row. row.values) rows.now) }
{
    for (at, _key) in keys.iter().enumerate() {
        if !is_column(at, rows) {
            return false;
        }
    }
    true
}

// Whether the rows' values at the place are of one kind.
fn is_column(at: usize, rows: &[Keyed]) -> bool
    ensures { result ≡ one_kind (map (nth at) (map (λ row. row.values) rows.now)) }
{
    all_of(Kind::Int, at, rows) || all_of(Kind::Text, at, rows) || all_of(Kind::Bool, at, rows)
}

// Whether the rows' values at the place are of the kind.
fn all_of(kind: Kind, at: usize, rows: &[Keyed]) -> bool
    ensures { result ≡ list_all (is_of kind) (map (nth at) (map (λ row. row.values) rows.now)) }
{
    for row in rows {
        if !is_of(kind, row.values.get(at)) {
            return false;
        }
    }
    true
}

// Whether the datum, or unit where there is none, is of the kind.
fn is_of(kind: Kind, d: Option<&Datum>) -> bool
    ensures { result ≡ is_of kind (unwrap_or (option_copied d.entry) Nothing) }
{
    match (kind, d) {
        (Kind::Int, Some(Datum::Int(_))) => true,
        (Kind::Text, Some(Datum::Text(_))) => true,
        (Kind::Bool, Some(Datum::Bool(_))) => true,
        _ => false,
    }
}
