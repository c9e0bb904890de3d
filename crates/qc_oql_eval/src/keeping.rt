// The rows of a select that its condition keeps: members of the last source are lent, and tested before they are rows.
ghost use Rattle.std.specs.Prelude.{[], ◌∷◌, option_map};
ghost use Rattle.qc_data.specs.Outcome.{bits64, gather, Gives};
ghost use Rattle.qc_ops.specs.inner.Columns.{GivesRefs};
ghost use Rattle.qc_oql_eval.specs.inner.Kept.{kept_member, kept_members, GivesKept};
ghost use Rattle.qc_oql_eval.specs.inner.Scopes.{bindings_of};
ghost use Rattle.qc_oql_eval.specs.inner.Selected.{kept_rows};
ghost use Rattle.qc_oql_tree.specs.Meaning as meaning;
ghost use Rattle.qc_oql_tree.specs.SelectMeaning.{filtered};

use crate::expression::{operand, truth};
use crate::operands::items_of;
use crate::quantifying::member_truth;
use crate::rows::{only_row, references, spread};
use crate::scope::{Rows, Scope};
use crate::selecting::{extended, rows_of};
use qc_containers::Chars;
use qc_data::{Datum, Halt};
use qc_oql_tree::{Filter, Oql, Select};
use qc_types::World;
use std::alloc::Global;

// The rows that the condition keeps. Where it halts on a row, the later rows still have their turn at the last source,
// since a source that halts comes before each condition.
#[cycle(eval)]
pub(crate) fn kept_rows(
    alloc: Global,
    world: &World,
    scope: &Scope,
    select: &Select,
) -> Result<Rows, Halt>
    ensures { Gives (kept_rows bits64 world.now select.now (bindings_of scope.now)) result }
{
    match select.sources.as_slice() {
        [] => only_kept(alloc, world, scope, &select.filter),
        [earlier @ .., last] => {
            let rows = rows_of(alloc, world, scope, earlier)?;
            let mut rest = rows.as_slice();
            let mut kept = Rows::new(alloc);
            while let [row, later @ ..] = rest {
                let row = row.as_slice();
                let behind = Scope::Row(row, &*scope);
                let source = operand(alloc, world, &behind, &last.of)?;
                let members = items_of(source.get())?.as_slice();
                let filter = &select.filter;
                match kept_members(alloc, world, &behind, filter, &last.name, members) {
                    Ok(members) => {
                        spread(alloc, &mut kept, &last.name, members.as_slice(), row)?;
                    }
                    Err(halt) => {
                        extended(alloc, world, scope, last, later)?;
                        return Err(halt);
                    }
                }
                rest = later;
            }
            Ok(kept)
        }
    }
}

// The one row that binds nothing, if the condition keeps it.
#[cycle(eval)]
#[tactic(auto, using(qc_oql_tree::proofs::MeaningForms::filter_is), unfolding(qc_oql_tree::specs::SelectMeaning::kept_row))]
fn only_kept(
    alloc: Global,
    world: &World,
    scope: &Scope,
    filter: &Option<Filter>,
) -> Result<Rows, Halt>
    ensures { Gives
        (filtered (option_map (meaning.filter bits64 world.now) filter.now) (bindings_of scope.now) ([] ∷ [])) result }
{
    match filter {
        None => Ok(only_row(alloc)?),
        Some(filter) => {
            if truth(alloc, world, scope, &filter.test)? {
                Ok(only_row(alloc)?)
            } else {
                Ok(Rows::new(alloc))
            }
        }
    }
}

// The members that the condition keeps, if there is one.
#[cycle(eval)]
#[tactic(auto, using(qc_oql_tree::proofs::MeaningForms::filter_is))]
fn kept_members<'a>(
    alloc: Global,
    world: &World,
    scope: &Scope,
    filter: &Option<Filter>,
    name: &Chars,
    members: &'a [Datum],
) -> Result<Vec<&'a Datum>, Halt>
    ensures { GivesRefs
        (kept_members (option_map (meaning.filter bits64 world.now) filter.now) name.now (bindings_of scope.now)
        members.now) result }
{
    match filter {
        None => Ok(references(alloc, members)?),
        Some(filter) => members_meeting(alloc, world, scope, &filter.test, name, members),
    }
}

// The members on which the condition is true.
#[cycle(eval)]
#[tactic(auto, using(qc_data::proofs::Outcomes::gather_is))]
fn members_meeting<'a>(
    alloc: Global,
    world: &World,
    scope: &Scope,
    test: &Oql,
    name: &Chars,
    members: &'a [Datum],
) -> Result<Vec<&'a Datum>, Halt>
    ensures { GivesRefs
        (gather (kept_member (meaning.oql bits64 world.now test.now) name.now (bindings_of scope.now)) members.now)
        result }
{
    let mut kept = Vec::new(alloc);
    for member in members {
        if let Some(member) = kept_member(alloc, world, scope, test, name, member)? {
            match kept.push(member) {
                Ok(()) => {}
                Err(_) => return Err(Halt::Memory),
            }
        }
    }
    Ok(kept)
}

// The member, if the condition is true on it.
#[cycle(eval)]
fn kept_member<'a>(
    alloc: Global,
    world: &World,
    scope: &Scope,
    test: &Oql,
    name: &Chars,
    member: &'a Datum,
) -> Result<Option<&'a Datum>, Halt>
    ensures { GivesKept
        (kept_member (meaning.oql bits64 world.now test.now) name.now (bindings_of scope.now) member.now) result }
{
    if member_truth(alloc, world, scope, test, name, member)? {
        Ok(Some(member))
    } else {
        Ok(None)
    }
}
