// Values taken from the stack. Where another is on top than is wanted, one stands for it (specs/inner/Values.antt).
ghost use Rattle.std.specs.Prelude.{◌≡◌};
ghost use Rattle.qc_js_text.specs.inner.Values as spec;

use crate::value::Value;
use qc_containers::List;
use qc_grammar::Stack;
use qc_js::{Expr, Stmt};
use qc_rt::Rt;
use std::alloc::Global;

/// Lets a value go that is not wanted.
fn let_go<T: Drop>(_value: T) {}

/// Takes the number of a variable.
pub(crate) fn take_name(stack: &mut Stack<Value>) -> u128
    ensures value { result ≡ spec.the_name stack.old }
    ensures rest { stack.new ≡ spec.rest stack.old }
{
    let top = stack.pop();
    let name = match &top {
        Some(Value::Name(x)) => *x,
        _ => 0,
    };
    let_go(top);
    name
}

/// Takes a function.
pub(crate) fn take_function(stack: &mut Stack<Value>) -> Rt
    ensures value { result ≡ spec.the_function stack.old }
    ensures rest { stack.new ≡ spec.rest stack.old }
{
    let top = stack.pop();
    let function = match &top {
        Some(Value::Function(function)) => *function,
        _ => Rt::Nothing,
    };
    let_go(top);
    function
}

/// Takes an expression.
pub(crate) fn take_tree(stack: &mut Stack<Value>) -> Expr
    ensures value { result ≡ spec.the_tree stack.old }
    ensures rest { stack.new ≡ spec.rest stack.old }
{
    match stack.pop() {
        Some(Value::Tree(tree)) => tree,
        other => {
            let_go(other);
            Expr::Null
        }
    }
}

/// Takes members of an array, or arguments.
pub(crate) fn take_members(alloc: Global, stack: &mut Stack<Value>) -> List<Expr>
    ensures value { result ≡ spec.the_members stack.old }
    ensures rest { stack.new ≡ spec.rest stack.old }
{
    match stack.pop() {
        Some(Value::Members(members)) => members,
        other => {
            let_go(other);
            List::new(alloc)
        }
    }
}

/// Takes a statement.
pub(crate) fn take_statement(stack: &mut Stack<Value>) -> Stmt
    ensures value { result ≡ spec.the_statement stack.old }
    ensures rest { stack.new ≡ spec.rest stack.old }
{
    match stack.pop() {
        Some(Value::Statement(statement)) => statement,
        other => {
            let_go(other);
            Stmt::Let(0)
        }
    }
}

/// Takes statements in order.
pub(crate) fn take_statements(alloc: Global, stack: &mut Stack<Value>) -> List<Stmt>
    ensures value { result ≡ spec.the_statements stack.old }
    ensures rest { stack.new ≡ spec.rest stack.old }
{
    match stack.pop() {
        Some(Value::Statements(statements)) => statements,
        other => {
            let_go(other);
            List::new(alloc)
        }
    }
}
