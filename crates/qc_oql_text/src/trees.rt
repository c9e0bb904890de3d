// Actions that make a tree of its parts.
ghost use Rattle.std.specs.Prelude.{◌≡◌, OnOk};
ghost use Rattle.qc_oql_table.specs.Actions as spec;

use crate::stack::{
    take_divisor, take_entries, take_entry, take_filter, take_keys, take_mark, take_members,
    take_order, take_text, take_tree,
};
use qc_containers::{Boxed, Memory};
use qc_grammar::Stack;
use qc_oql_table::Value;
use qc_oql_tree::operators::{binary_of, branding_of, division_of, unary_of};
use qc_oql_tree::{Filter, Oql, Order, Quantifier, Select, making};
use std::alloc::Global;

/// `select value from sources where condition order by keys`
pub(crate) fn select(alloc: Global, distinct: bool, stack: &mut Stack<Value>) -> Result<(), Memory>
    ensures { OnOk result (stack.new ≡ spec.select distinct stack.old) }
{
    let order = take_order(stack);
    let filter = take_filter(stack);
    let sources = take_entries(alloc, stack);
    let value = take_tree(stack);
    let mark = take_mark(stack);
    let select = Select {
        distinct,
        value,
        sources,
        filter,
        order,
    };
    let select = Boxed::of(alloc, select)?;
    stack.push(Value::Tree(Oql::Select(mark.at, select)))
}

/// `where condition`
pub(crate) fn filter(stack: &mut Stack<Value>) -> Result<(), Memory>
    ensures { OnOk result (stack.new ≡ spec.filter stack.old) }
{
    let test = take_tree(stack);
    let mark = take_mark(stack);
    stack.push(Value::Filtered(Some(Filter { at: mark.at, test })))
}

/// `order by key, ..`
pub(crate) fn order(alloc: Global, stack: &mut Stack<Value>) -> Result<(), Memory>
    ensures { OnOk result (stack.new ≡ spec.order stack.old) }
{
    let keys = take_keys(alloc, stack);
    let mark = take_mark(stack);
    stack.push(Value::Ordered(Some(Order { at: mark.at, keys })))
}

/// `if condition then value else value`
pub(crate) fn if_else(alloc: Global, stack: &mut Stack<Value>) -> Result<(), Memory>
    ensures { OnOk result (stack.new ≡ spec.if_else stack.old) }
{
    let fails = take_tree(stack);
    let holds = take_tree(stack);
    let condition = take_tree(stack);
    let mark = take_mark(stack);
    let tree = making::conditional(alloc, mark.at, condition, (holds, fails))?;
    stack.push(Value::Tree(tree))
}

/// `exists name in source : condition`, or `for all` in place of `exists`.
pub(crate) fn quantified(
    alloc: Global,
    quantifier: Quantifier,
    stack: &mut Stack<Value>,
) -> Result<(), Memory>
    ensures { OnOk result (stack.new ≡ spec.quantified quantifier stack.old) }
{
    let holds = take_tree(stack);
    let bind = take_entry(alloc, stack)?;
    let mark = take_mark(stack);
    let tree = making::quantified(alloc, mark.at, quantifier, bind, holds)?;
    stack.push(Value::Tree(tree))
}

/// An operator or a function with its operand.
pub(crate) fn unary(alloc: Global, stack: &mut Stack<Value>) -> Result<(), Memory>
    ensures { OnOk result (stack.new ≡ spec.unary stack.old) }
{
    let of = Boxed::of(alloc, take_tree(stack))?;
    let mark = take_mark(stack);
    stack.push(Value::Tree(Oql::Unary(mark.at, unary_of(mark.kind), of)))
}

/// An operator between its operands.
pub(crate) fn binary(alloc: Global, stack: &mut Stack<Value>) -> Result<(), Memory>
    ensures { OnOk result (stack.new ≡ spec.binary stack.old) }
{
    let right = take_tree(stack);
    let mark = take_mark(stack);
    let left = take_tree(stack);
    let tree = making::binary(alloc, mark.at, binary_of(mark.kind), left, right)?;
    stack.push(Value::Tree(tree))
}

/// A function of two operands.
pub(crate) fn call(alloc: Global, stack: &mut Stack<Value>) -> Result<(), Memory>
    ensures { OnOk result (stack.new ≡ spec.call stack.old) }
{
    let right = take_tree(stack);
    let left = take_tree(stack);
    let mark = take_mark(stack);
    let tree = making::binary(alloc, mark.at, binary_of(mark.kind), left, right)?;
    stack.push(Value::Tree(tree))
}

/// `value / divisor` or `value mod divisor`
pub(crate) fn divide(alloc: Global, stack: &mut Stack<Value>) -> Result<(), Memory>
    ensures { OnOk result (stack.new ≡ spec.divide stack.old) }
{
    let divisor = take_divisor(stack);
    let mark = take_mark(stack);
    let of = Boxed::of(alloc, take_tree(stack))?;
    stack.push(Value::Tree(Oql::Divide(mark.at, division_of(mark.kind), of, divisor)))
}

/// `struct(label: value, ..)`
pub(crate) fn structure(alloc: Global, stack: &mut Stack<Value>) -> Result<(), Memory>
    ensures { OnOk result (stack.new ≡ spec.struct stack.old) }
{
    let fields = take_entries(alloc, stack);
    let mark = take_mark(stack);
    stack.push(Value::Tree(Oql::Struct(mark.at, fields)))
}

/// `bag(value, ..)`
pub(crate) fn bag(alloc: Global, stack: &mut Stack<Value>) -> Result<(), Memory>
    ensures { OnOk result (stack.new ≡ spec.bag stack.old) }
{
    let members = take_members(alloc, stack);
    let mark = take_mark(stack);
    stack.push(Value::Tree(Oql::Bag(mark.at, members)))
}

/// `cast(class, value)` or `brand(class, value)`
pub(crate) fn brand(alloc: Global, stack: &mut Stack<Value>) -> Result<(), Memory>
    ensures { OnOk result (stack.new ≡ spec.brand stack.old) }
{
    let of = Boxed::of(alloc, take_tree(stack))?;
    let class = take_text(alloc, stack)?;
    let mark = take_mark(stack);
    stack.push(Value::Tree(Oql::Brand(mark.at, branding_of(mark.kind), class, of)))
}

/// `match(value, left name: value, right name: value)`
pub(crate) fn matched(alloc: Global, stack: &mut Stack<Value>) -> Result<(), Memory>
    ensures { OnOk result (stack.new ≡ spec.matched stack.old) }
{
    let right = take_entry(alloc, stack)?;
    let left = take_entry(alloc, stack)?;
    let value = take_tree(stack);
    let mark = take_mark(stack);
    let tree = making::matching(alloc, mark.at, value, (left, right))?;
    stack.push(Value::Tree(tree))
}
