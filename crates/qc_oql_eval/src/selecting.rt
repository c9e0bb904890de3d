// The outcome of selects in 64 bits: rows, the order of those that are kept, and their values.
ghost use Rattle.std.specs.Prelude.{◌++◌, map, option_map};
ghost use Rattle.qc_data.specs.Outcome.{bits64, each, gather, Gives};
ghost use Rattle.qc_ops.specs.inner.Columns.{behind, GivesRefs};
ghost use Rattle.qc_oql_eval.specs.inner.Scopes.{bindings_of};
ghost use Rattle.qc_oql_eval.specs.inner.Selected.{of_kept};
ghost use Rattle.qc_oql_tree.specs.Meaning as meaning;
ghost use Rattle.qc_oql_eval.specs.inner.SelectRows.{GivesKeyed, GivesOneKeyed};
ghost use Rattle.qc_oql_tree.specs.SelectMeaning as selecting;

use crate::expression::outcome;
use crate::operators::distinct_if;
use crate::ordering::{Keyed, in_order};
use crate::rows::{only_row, references, spread};
use crate::scope::{Row, Rows, Scope};
use qc_data::{Datum, Halt, Items};
use qc_oql_tree::{Key, Named, Oql, Order, Select};
use qc_types::World;
use std::alloc::Global;

// The values of a select, by the rows that its condition keeps: in order, and with `distinct` the first occurrences.
#[cycle(eval)]
pub(crate) fn selected(
    alloc: Global,
    world: &World,
    scope: &Scope,
    select: &Select,
    kept: Rows,
) -> Result<Datum, Halt>
    ensures { Gives (of_kept bits64 world.now select.now (bindings_of scope.now) kept) result }
{
    let sorted = ordered(alloc, world, scope, &select.order, kept.as_slice())?;
    let values = values_of(alloc, world, scope, &select.value, sorted.as_slice())?;
    distinct_if(alloc, world.classes(), select.distinct, values)
}

// All rows of the sources, the first source outermost.
#[cycle(eval)]
pub(crate) fn rows_of(
    alloc: Global,
    world: &World,
    scope: &Scope,
    sources: &[Named],
) -> Result<Rows, Halt>
    ensures { Gives
        (selecting.rows_of (map (meaning.named bits64 world.now) sources.now) (bindings_of scope.now)) result }
{
    let mut rows = only_row(alloc)?;
    for source in sources {
        rows = extended(alloc, world, scope, source, rows.as_slice())?;
    }
    Ok(rows)
}

// The rows with a source's name bound to each of its members.
#[cycle(eval)]
#[tactic(auto, using(qc_data::proofs::Outcomes::gather_is, qc_oql_tree::proofs::MeaningForms::named_name))]
pub(crate) fn extended(
    alloc: Global,
    world: &World,
    scope: &Scope,
    source: &Named,
    rows: &[Row],
) -> Result<Rows, Halt>
    ensures { Gives
        (gather (selecting.extended (meaning.named bits64 world.now source.now) (bindings_of scope.now)) rows.now)
        result }
{
    let mut all = Rows::new(alloc);
    for row in rows {
        let items = source_items(alloc, world, scope, source, row)?;
        let members = references(alloc, items.as_slice())?;
        spread(
            alloc,
            &mut all,
            &source.name,
            members.as_slice(),
            row.as_slice(),
        )?;
    }
    Ok(all)
}

// The members of a source behind a row.
#[cycle(eval)]
#[tactic(auto, unfolding(qc_oql_tree::specs::SelectMeaning::source_items))]
fn source_items(
    alloc: Global,
    world: &World,
    scope: &Scope,
    source: &Named,
    row: &Row,
) -> Result<Items, Halt>
    ensures { Gives
        (selecting.source_items (meaning.named bits64 world.now source.now) (bindings_of scope.now) row.now) result }
{
    match source_value(alloc, world, scope, source, row)? {
        Datum::Coll(items) => Ok(items),
        _ => Err(Halt::Stuck),
    }
}

// The value of a source behind a row.
#[cycle(eval)]
#[tactic(auto, using(qc_oql_tree::proofs::MeaningForms::named_is))]
fn source_value(
    alloc: Global,
    world: &World,
    scope: &Scope,
    source: &Named,
    row: &Row,
) -> Result<Datum, Halt>
    ensures { Gives ((meaning.named bits64 world.now source.now).1 (row.now ++ bindings_of scope.now)) result }
{
    outcome(
        alloc,
        world,
        &Scope::Row(row.as_slice(), &*scope),
        &source.of,
    )
}

// The rows in the order of the keys, if there are any.
#[cycle(eval)]
#[tactic(auto, using(qc_oql_tree::proofs::MeaningForms::order_is))]
fn ordered<'a>(
    alloc: Global,
    world: &World,
    scope: &Scope,
    order: &Option<Order>,
    rows: &'a [Row],
) -> Result<Vec<&'a Row>, Halt>
    ensures { GivesRefs
        (selecting.ordered (option_map (meaning.order bits64 world.now) order.now) (bindings_of scope.now) rows.now)
        result }
{
    match order {
        None => Ok(references(alloc, rows)?),
        Some(order) => ordered_by(alloc, world, scope, order.keys.as_slice(), rows),
    }
}

// The rows in the order of the keys.
#[cycle(eval)]
#[tactic(auto, unfolding(qc_oql_tree::specs::SelectMeaning::ordered_by))]
fn ordered_by<'a>(
    alloc: Global,
    world: &World,
    scope: &Scope,
    keys: &[Key],
    rows: &'a [Row],
) -> Result<Vec<&'a Row>, Halt>
    ensures { GivesRefs
        (selecting.ordered_by (map (meaning.key bits64 world.now) keys.now) (bindings_of scope.now) rows.now) result }
{
    let keyed = keyed_rows(alloc, world, scope, keys, rows)?;
    in_order(alloc, keys, keyed)
}

// The rows with the values of the keys.
#[cycle(eval)]
#[tactic(auto, using(qc_data::proofs::Outcomes::gather_is))]
fn keyed_rows<'a>(
    alloc: Global,
    world: &World,
    scope: &Scope,
    keys: &[Key],
    rows: &'a [Row],
) -> Result<Vec<Keyed<'a>>, Halt>
    ensures { GivesKeyed
        (each (selecting.keyed (map (meaning.key bits64 world.now) keys.now) (bindings_of scope.now)) rows.now) result }
{
    let mut all = Vec::new(alloc);
    for row in rows {
        let keyed = keyed_row(alloc, world, scope, keys, row)?;
        match all.push(keyed) {
            Ok(()) => {}
            Err(_) => return Err(Halt::Memory),
        }
    }
    Ok(all)
}

// The row with the values of the keys.
#[cycle(eval)]
#[tactic(auto, unfolding(qc_oql_tree::specs::SelectMeaning::keyed))]
fn keyed_row<'a>(
    alloc: Global,
    world: &World,
    scope: &Scope,
    keys: &[Key],
    row: &'a Row,
) -> Result<Keyed<'a>, Halt>
    ensures { GivesOneKeyed
        (selecting.keyed (map (meaning.key bits64 world.now) keys.now) (bindings_of scope.now) row.now) result }
{
    let keys = row_keys(alloc, world, scope, keys, row)?;
    Ok(Keyed { keys, row })
}

// The values of the keys on a row.
#[cycle(eval)]
fn row_keys(
    alloc: Global,
    world: &World,
    scope: &Scope,
    keys: &[Key],
    row: &Row,
) -> Result<Items, Halt>
    ensures { Gives
        (selecting.key_values (map (meaning.key bits64 world.now) keys.now) (row.now ++ bindings_of scope.now)) result }
{
    key_values(alloc, world, &Scope::Row(row.as_slice(), &*scope), keys)
}

// The values of the keys.
#[cycle(eval)]
#[tactic(auto, using(qc_data::proofs::Outcomes::gather_is, qc_oql_tree::proofs::MeaningForms::key_is), unfolding(qc_oql_tree::specs::SelectMeaning::key_values))]
fn key_values(alloc: Global, world: &World, scope: &Scope, keys: &[Key]) -> Result<Items, Halt>
    ensures { Gives
        (selecting.key_values (map (meaning.key bits64 world.now) keys.now) (bindings_of scope.now)) result }
{
    let mut values = Items::new(alloc);
    for key in keys {
        values.add(outcome(alloc, world, scope, &key.of)?)?;
    }
    Ok(values)
}

// The value for each row.
#[cycle(eval)]
#[tactic(auto, using(qc_data::proofs::Outcomes::gather_is))]
fn values_of(
    alloc: Global,
    world: &World,
    scope: &Scope,
    value: &Oql,
    rows: &[&Row],
) -> Result<Items, Halt>
    ensures { Gives
        (each (λ row. meaning.oql bits64 world.now value.now (row ++ bindings_of scope.now)) (behind rows.now)) result }
{
    let mut values = Items::new(alloc);
    for row in rows {
        values.add(outcome(alloc, world, &Scope::Row(row.as_slice(), &*scope), value)?)?;
    }
    Ok(values)
}
