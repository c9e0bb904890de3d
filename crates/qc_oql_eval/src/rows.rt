// Rows of a select.
ghost use Rattle.std.specs.Prelude.{◌≡◌, [], ◌∷◌, ◌++◌, IfOk, OnOk};
ghost use Rattle.qc_ops.specs.inner.Columns.{behind};
ghost use Rattle.qc_oql_tree.specs.SelectMeaning.{rows_with};

use crate::scope::{Row, Rows};
use qc_containers::{Chars, Memory};
use qc_data::{Datum, copy};
use std::alloc::Global;

// The one row that binds nothing.
pub(crate) fn only_row(alloc: Global) -> Result<Rows, Memory>
    ensures { IfOk result (λ rows. rows ≡ [] ∷ []) }
{
    let mut rows = Rows::new(alloc);
    rows.add(Row::new(alloc))?;
    Ok(rows)
}

// Puts last, for each member, the row with the name bound to it.
#[tactic(auto, unfolding(qc_oql_tree::specs::SelectMeaning::rows_with))]
pub(crate) fn spread(
    alloc: Global,
    rows: &mut Rows,
    name: &Chars,
    members: &[&Datum],
    row: &[(Chars, Datum)],
) -> Result<(), Memory>
    ensures { OnOk result (rows.new ≡ rows.old ++ rows_with name.now row.now (behind members.now)) }
{
    for member in members {
        rows.add(bound(alloc, name, member, row)?)?;
    }
    Ok(())
}

// The row with the name bound to the value.
fn bound(alloc: Global, name: &Chars, value: &Datum, row: &[(Chars, Datum)]) -> Result<Row, Memory>
    ensures { IfOk result (λ made. made ≡ (name.now, value.now) ∷ row.now) }
{
    let mut made = Row::new(alloc);
    made.add((name.copy(alloc)?, copy(alloc, value)?))?;
    for pair in row {
        made.add((pair.0.copy(alloc)?, copy(alloc, &pair.1)?))?;
    }
    Ok(made)
}

// References to all items.
pub(crate) fn references<T>(alloc: Global, items: &[T]) -> Result<Vec<&T>, Memory>
    ensures { IfOk result (λ made. behind made.items ≡ items.now) }
{
    let mut all = Vec::new(alloc);
    for item in items {
        all.push(item)?;
    }
    Ok(all)
}
