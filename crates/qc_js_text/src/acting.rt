// The actions of the grammar, by their numbers.
ghost use Rattle.std.specs.Prelude.{◌≡◌, OnOk};
ghost use Rattle.qc_js_text.specs.inner.Actions as spec;

use crate::actions::{
    DO_ARRAY, DO_CALL, DO_CALLED, DO_COLLECT, DO_CONST, DO_FALSE, DO_FOR, DO_IF, DO_INT, DO_ITEM,
    DO_LET, DO_NAME, DO_NO_STATEMENTS, DO_NONE, DO_NULL, DO_PUSH, DO_SET, DO_STATEMENT, DO_TEXT,
    DO_TRUE, DO_VARIABLE, DO_WORLD,
};
use crate::value::Value;
use crate::{making, taking};
use qc_containers::{List, Memory};
use qc_grammar::{Event, Stack};
use qc_js::Expr;
use qc_js_lex::Lexeme;
use std::alloc::Global;

/// An action of a word, behind the lexemes before it.
#[tactic(auto, unfolding(crate::specs::inner::Actions::act))]
pub(crate) fn act(
    alloc: Global,
    lexemes: &[Lexeme],
    event: Event,
    stack: &mut Stack<Value>,
) -> Result<(), Memory>
    ensures { OnOk result (stack.new ≡ spec.act lexemes.now event.action event.at stack.old) }
{
    let action = event.action;
    let count = event.at;
    if action == DO_NAME {
        taking::name(lexemes, count, stack)
    } else if action == DO_CALLED {
        taking::called(lexemes, count, stack)
    } else if action == DO_VARIABLE {
        taking::variable(lexemes, count, stack)
    } else if action == DO_INT {
        taking::int(lexemes, count, stack)
    } else if action == DO_TEXT {
        taking::text(alloc, lexemes, count, stack)
    } else if action == DO_WORLD {
        stack.push(Value::Tree(Expr::World))
    } else if action == DO_TRUE {
        stack.push(Value::Tree(Expr::True))
    } else if action == DO_FALSE {
        stack.push(Value::Tree(Expr::False))
    } else if action == DO_NULL {
        stack.push(Value::Tree(Expr::Null))
    } else {
        act_list(alloc, action, stack)
    }
}

/// An action that begins or grows a list, makes an expression of its parts, or a statement.
#[tactic(auto, unfolding(crate::specs::inner::Actions::act_list))]
fn act_list(alloc: Global, action: u32, stack: &mut Stack<Value>) -> Result<(), Memory>
    ensures { OnOk result (stack.new ≡ spec.act_list action stack.old) }
{
    if action == DO_NONE {
        stack.push(Value::Members(List::new(alloc)))
    } else if action == DO_ITEM {
        making::item(alloc, stack)
    } else if action == DO_ARRAY {
        making::array(alloc, stack)
    } else if action == DO_CALL {
        making::call(alloc, stack)
    } else if action == DO_NO_STATEMENTS {
        stack.push(Value::Statements(List::new(alloc)))
    } else if action == DO_STATEMENT {
        making::statement(alloc, stack)
    } else {
        act_stmt(alloc, action, stack)
    }
}

/// An action that makes a statement of its parts.
#[tactic(auto, unfolding(crate::specs::inner::Actions::act_stmt))]
fn act_stmt(alloc: Global, action: u32, stack: &mut Stack<Value>) -> Result<(), Memory>
    ensures { OnOk result (stack.new ≡ spec.act_stmt action stack.old) }
{
    if action == DO_LET {
        making::let_one(stack)
    } else if action == DO_SET {
        making::set_one(stack)
    } else if action == DO_CONST {
        making::const_one(stack)
    } else if action == DO_COLLECT {
        making::collect_one(alloc, stack)
    } else if action == DO_PUSH {
        making::push_one(stack)
    } else if action == DO_FOR {
        making::for_one(alloc, stack)
    } else if action == DO_IF {
        making::if_one(alloc, stack)
    } else {
        making::block_one(alloc, stack)
    }
}
