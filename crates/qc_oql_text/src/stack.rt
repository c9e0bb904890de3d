// Values taken from the stack. Where another is on top than is wanted, one stands for it
// (qc_oql_table/specs/Values.antt).
ghost use Rattle.std.specs.Prelude.{◌≡◌, [], IfOk};
ghost use Rattle.qc_oql_table.specs.Values as spec;

use qc_containers::{Chars, List, Memory};
use qc_grammar::Stack;
use qc_oql_table::{Mark, Value, Word};
use qc_oql_tree::{Constant, Filter, Key, Named, Oql, Order};
use std::alloc::Global;

/// Lets a value go that is not wanted.
fn let_go<T: Drop>(_value: T) {}

/// Takes the place and the kind of a token.
pub(crate) fn take_mark(stack: &mut Stack<Value>) -> Mark
    ensures value { result ≡ spec.the_mark stack.old }
    ensures rest { stack.new ≡ spec.rest stack.old }
{
    let top = stack.pop();
    let mark = match &top {
        Some(Value::Mark(mark)) => *mark,
        _ => Mark { at: 0, kind: 0 },
    };
    let_go(top);
    mark
}

/// The word that stands for one.
fn no_word(alloc: Global) -> Result<Word, Memory>
    ensures { IfOk result (λ word. word ≡ spec.the_word []) }
{
    let text = Chars::of(alloc, "")?;
    Ok(Word { at: 0, text })
}

/// Takes the text of a token.
fn take_word(alloc: Global, stack: &mut Stack<Value>) -> Result<Word, Memory>
    ensures value { IfOk result (λ word. word ≡ spec.the_word stack.old) }
    ensures rest { stack.new ≡ spec.rest stack.old }
{
    match stack.pop() {
        Some(Value::Name(word)) => Ok(word),
        other => {
            let_go(other);
            no_word(alloc)
        }
    }
}

/// Takes the text of a token, without its place.
pub(crate) fn take_text(alloc: Global, stack: &mut Stack<Value>) -> Result<Chars, Memory>
    ensures value { IfOk result (λ text. text ≡ (spec.the_word stack.old).text) }
    ensures rest { stack.new ≡ spec.rest stack.old }
{
    let word = take_word(alloc, stack)?;
    Ok(word.text)
}

/// Takes the literal by which a value is divided.
pub(crate) fn take_divisor(stack: &mut Stack<Value>) -> i64
    ensures value { result ≡ spec.the_divisor stack.old }
    ensures rest { stack.new ≡ spec.rest stack.old }
{
    let top = stack.pop();
    let divisor = match &top {
        Some(Value::Divisor(divisor)) => *divisor,
        _ => 0,
    };
    let_go(top);
    divisor
}

/// Takes an expression.
pub(crate) fn take_tree(stack: &mut Stack<Value>) -> Oql
    ensures value { result ≡ spec.the_tree stack.old }
    ensures rest { stack.new ≡ spec.rest stack.old }
{
    match stack.pop() {
        Some(Value::Tree(tree)) => tree,
        other => {
            let_go(other);
            Oql::Constant(0, Constant::Nil)
        }
    }
}

/// Takes the members of a bag.
pub(crate) fn take_members(alloc: Global, stack: &mut Stack<Value>) -> List<Oql>
    ensures value { result ≡ spec.the_members stack.old }
    ensures rest { stack.new ≡ spec.rest stack.old }
{
    match stack.pop() {
        Some(Value::Members(members)) => members,
        other => {
            let_go(other);
            List::new(alloc)
        }
    }
}

/// Takes names with expressions.
pub(crate) fn take_entries(alloc: Global, stack: &mut Stack<Value>) -> List<Named>
    ensures value { result ≡ spec.the_entries stack.old }
    ensures rest { stack.new ≡ spec.rest stack.old }
{
    match stack.pop() {
        Some(Value::Entries(entries)) => entries,
        other => {
            let_go(other);
            List::new(alloc)
        }
    }
}

/// Takes the keys of an order.
pub(crate) fn take_keys(alloc: Global, stack: &mut Stack<Value>) -> List<Key>
    ensures value { result ≡ spec.the_keys stack.old }
    ensures rest { stack.new ≡ spec.rest stack.old }
{
    match stack.pop() {
        Some(Value::Keys(keys)) => keys,
        other => {
            let_go(other);
            List::new(alloc)
        }
    }
}

/// Takes a condition, if there is one.
pub(crate) fn take_filter(stack: &mut Stack<Value>) -> Option<Filter>
    ensures value { result ≡ spec.the_filter stack.old }
    ensures rest { stack.new ≡ spec.rest stack.old }
{
    match stack.pop() {
        Some(Value::Filtered(filter)) => filter,
        other => {
            let_go(other);
            None
        }
    }
}

/// Takes an order, if there is one.
pub(crate) fn take_order(stack: &mut Stack<Value>) -> Option<Order>
    ensures value { result ≡ spec.the_order stack.old }
    ensures rest { stack.new ≡ spec.rest stack.old }
{
    match stack.pop() {
        Some(Value::Ordered(order)) => order,
        other => {
            let_go(other);
            None
        }
    }
}

/// Takes an expression and the name below it. `Err` says that memory was wanting.
pub(crate) fn take_entry(alloc: Global, stack: &mut Stack<Value>) -> Result<Named, Memory>
    ensures value { IfOk result (λ entry. entry ≡ spec.the_entry stack.old) }
    ensures rest { stack.new ≡ spec.rest (spec.rest stack.old) }
{
    let of = take_tree(stack);
    let word = take_word(alloc, stack)?;
    Ok(Named {
        at: word.at,
        name: word.text,
        of,
    })
}
