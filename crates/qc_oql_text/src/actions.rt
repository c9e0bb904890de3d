// The actions of the grammar, by their numbers.
ghost use Rattle.std.specs.Prelude.{◌≡◌, OnOk};
ghost use Rattle.qc_lex.specs.Words.{lexemes};
ghost use Rattle.qc_oql_table.specs.Actions as spec;

use crate::{lists, tokens, trees};
use qc_containers::{List, Memory};
use qc_grammar::{Event, Stack};
use qc_lex::Words;
use qc_oql_table::Value;
use qc_oql_table::actions::{
    DO_ASC, DO_BAG, DO_BINARY, DO_BRAND, DO_CALL, DO_CONSTANT, DO_DESC, DO_DIVIDE, DO_DOT,
    DO_ENTRY, DO_EXISTS, DO_FILTER, DO_FOR_ALL, DO_IF_ELSE, DO_LIKE, DO_MARK, DO_MEMBER, DO_NAME,
    DO_NEGATIVE, DO_NO_FILTER, DO_NO_KEYS, DO_NO_MEMBERS, DO_NO_ORDER, DO_NONE, DO_ORDER,
    DO_POSITIVE, DO_SELECT, DO_SELECT_DISTINCT, DO_STRUCT, DO_TEXT, DO_UNARY, DO_VARIABLE,
    DO_WHOLE,
};
use qc_oql_tree::{Direction, Quantifier};
use std::alloc::Global;

/// An action of a word, behind the tokens before it.
#[tactic(auto, unfolding(qc_oql_table::specs::Actions::act))]
pub(crate) fn act(
    alloc: Global,
    words: &Words,
    event: Event,
    stack: &mut Stack<Value>,
) -> Result<(), Memory>
    ensures { OnOk result (stack.new ≡ spec.act (lexemes words.now) event.action event.at stack.old) }
{
    let action = event.action;
    let count = event.at;
    if action == DO_MARK {
        tokens::mark(words, count, stack)
    } else if action == DO_NAME {
        tokens::name(alloc, words, count, stack)
    } else if action == DO_VARIABLE {
        tokens::variable(alloc, words, count, stack)
    } else if action == DO_WHOLE {
        tokens::whole(words, count, stack)
    } else if action == DO_TEXT {
        tokens::text(alloc, words, count, stack)
    } else if action == DO_CONSTANT {
        tokens::constant(words, count, stack)
    } else if action == DO_POSITIVE {
        tokens::positive(words, count, stack)
    } else if action == DO_NEGATIVE {
        tokens::negative(words, count, stack)
    } else if action == DO_DOT {
        tokens::dot(alloc, words, count, stack)
    } else if action == DO_LIKE {
        tokens::like(alloc, words, count, stack)
    } else {
        act_list(alloc, action, stack)
    }
}

/// An action that begins or grows a list, or makes a tree.
#[tactic(auto, unfolding(qc_oql_table::specs::Actions::act_list))]
fn act_list(alloc: Global, action: u32, stack: &mut Stack<Value>) -> Result<(), Memory>
    ensures { OnOk result (stack.new ≡ spec.act_list action stack.old) }
{
    if action == DO_NONE {
        stack.push(Value::Entries(List::new(alloc)))
    } else if action == DO_ENTRY {
        lists::entry(alloc, stack)
    } else if action == DO_NO_MEMBERS {
        stack.push(Value::Members(List::new(alloc)))
    } else if action == DO_MEMBER {
        lists::member(alloc, stack)
    } else if action == DO_NO_KEYS {
        stack.push(Value::Keys(List::new(alloc)))
    } else if action == DO_ASC {
        lists::key(alloc, Direction::Asc, stack)
    } else if action == DO_DESC {
        lists::key(alloc, Direction::Desc, stack)
    } else if action == DO_NO_FILTER {
        stack.push(Value::Filtered(None))
    } else if action == DO_NO_ORDER {
        stack.push(Value::Ordered(None))
    } else {
        act_tree(alloc, action, stack)
    }
}

/// An action that makes a tree of its parts.
#[tactic(auto, unfolding(qc_oql_table::specs::Actions::act_tree))]
fn act_tree(alloc: Global, action: u32, stack: &mut Stack<Value>) -> Result<(), Memory>
    ensures { OnOk result (stack.new ≡ spec.act_tree action stack.old) }
{
    if action == DO_SELECT_DISTINCT {
        trees::select(alloc, true, stack)
    } else if action == DO_SELECT {
        trees::select(alloc, false, stack)
    } else if action == DO_FILTER {
        trees::filter(stack)
    } else if action == DO_ORDER {
        trees::order(alloc, stack)
    } else if action == DO_IF_ELSE {
        trees::if_else(alloc, stack)
    } else if action == DO_FOR_ALL {
        trees::quantified(alloc, Quantifier::ForAll, stack)
    } else if action == DO_EXISTS {
        trees::quantified(alloc, Quantifier::Exists, stack)
    } else if action == DO_UNARY {
        trees::unary(alloc, stack)
    } else if action == DO_BINARY {
        trees::binary(alloc, stack)
    } else if action == DO_CALL {
        trees::call(alloc, stack)
    } else if action == DO_DIVIDE {
        trees::divide(alloc, stack)
    } else if action == DO_STRUCT {
        trees::structure(alloc, stack)
    } else if action == DO_BAG {
        trees::bag(alloc, stack)
    } else if action == DO_BRAND {
        trees::brand(alloc, stack)
    } else {
        trees::matched(alloc, stack)
    }
}
