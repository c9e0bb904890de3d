// Actions that grow lists.
ghost use Rattle.std.specs.Prelude.{◌≡◌, OnOk};
ghost use Rattle.qc_oql_table.specs.Actions as spec;

use crate::stack::{take_entries, take_entry, take_keys, take_members, take_tree};
use qc_containers::Memory;
use qc_grammar::Stack;
use qc_oql_table::Value;
use qc_oql_tree::{Direction, Key};
use std::alloc::Global;

/// One more name with its expression.
pub(crate) fn entry(alloc: Global, stack: &mut Stack<Value>) -> Result<(), Memory>
    ensures { OnOk result (stack.new ≡ spec.entry stack.old) }
{
    let next = take_entry(alloc, stack)?;
    let mut entries = take_entries(alloc, stack);
    entries.add(next)?;
    stack.push(Value::Entries(entries))
}

/// One more member of a bag.
pub(crate) fn member(alloc: Global, stack: &mut Stack<Value>) -> Result<(), Memory>
    ensures { OnOk result (stack.new ≡ spec.member stack.old) }
{
    let next = take_tree(stack);
    let mut members = take_members(alloc, stack);
    members.add(next)?;
    stack.push(Value::Members(members))
}

/// One more key, with its direction.
pub(crate) fn key(
    alloc: Global,
    direction: Direction,
    stack: &mut Stack<Value>,
) -> Result<(), Memory>
    ensures { OnOk result (stack.new ≡ spec.key direction stack.old) }
{
    let of = take_tree(stack);
    let mut keys = take_keys(alloc, stack);
    keys.add(Key { of, direction })?;
    stack.push(Value::Keys(keys))
}
