// Actions that grow lists, and those that make a tree of its parts.
ghost use Rattle.std.specs.Prelude.{◌≡◌, OnOk};
ghost use Rattle.qc_js_text.specs.inner.Actions as spec;

use crate::stack::{
    take_function, take_members, take_name, take_statement, take_statements, take_tree,
};
use crate::value::Value;
use qc_containers::Memory;
use qc_grammar::Stack;
use qc_js::{Expr, Stmt};
use std::alloc::Global;

/// One more member.
pub(crate) fn item(alloc: Global, stack: &mut Stack<Value>) -> Result<(), Memory>
    ensures { OnOk result (stack.new ≡ spec.item stack.old) }
{
    let next = take_tree(stack);
    let mut members = take_members(alloc, stack);
    members.add(next)?;
    stack.push(Value::Members(members))
}

/// One more statement.
pub(crate) fn statement(alloc: Global, stack: &mut Stack<Value>) -> Result<(), Memory>
    ensures { OnOk result (stack.new ≡ spec.statement stack.old) }
{
    let next = take_statement(stack);
    let mut statements = take_statements(alloc, stack);
    statements.add(next)?;
    stack.push(Value::Statements(statements))
}

/// `[member, ..]`
pub(crate) fn array(alloc: Global, stack: &mut Stack<Value>) -> Result<(), Memory>
    ensures { OnOk result (stack.new ≡ spec.array stack.old) }
{
    let members = take_members(alloc, stack);
    stack.push(Value::Tree(Expr::Array(members)))
}

/// `rt.function(argument, ..)`
pub(crate) fn call(alloc: Global, stack: &mut Stack<Value>) -> Result<(), Memory>
    ensures { OnOk result (stack.new ≡ spec.call stack.old) }
{
    let arguments = take_members(alloc, stack);
    let function = take_function(stack);
    stack.push(Value::Tree(Expr::Call(function, arguments)))
}

/// `let name;`
pub(crate) fn let_one(stack: &mut Stack<Value>) -> Result<(), Memory>
    ensures { OnOk result (stack.new ≡ spec.let_one stack.old) }
{
    let name = take_name(stack);
    stack.push(Value::Statement(Stmt::Let(name)))
}

/// `name = value;`
pub(crate) fn set_one(stack: &mut Stack<Value>) -> Result<(), Memory>
    ensures { OnOk result (stack.new ≡ spec.set_one stack.old) }
{
    let value = take_tree(stack);
    let name = take_name(stack);
    stack.push(Value::Statement(Stmt::Set(name, value)))
}

/// `const name = value;`
pub(crate) fn const_one(stack: &mut Stack<Value>) -> Result<(), Memory>
    ensures { OnOk result (stack.new ≡ spec.const_one stack.old) }
{
    let value = take_tree(stack);
    let name = take_name(stack);
    stack.push(Value::Statement(Stmt::Const(name, value)))
}

/// `const name = []; { statement .. }`
pub(crate) fn collect_one(alloc: Global, stack: &mut Stack<Value>) -> Result<(), Memory>
    ensures { OnOk result (stack.new ≡ spec.collect_one stack.old) }
{
    let block = take_statements(alloc, stack);
    let name = take_name(stack);
    stack.push(Value::Statement(Stmt::Collect(name, block)))
}

/// `name.push(value);`
pub(crate) fn push_one(stack: &mut Stack<Value>) -> Result<(), Memory>
    ensures { OnOk result (stack.new ≡ spec.push_one stack.old) }
{
    let value = take_tree(stack);
    let name = take_name(stack);
    stack.push(Value::Statement(Stmt::Push(name, value)))
}

/// `for (const name of value) { statement .. }`
pub(crate) fn for_one(alloc: Global, stack: &mut Stack<Value>) -> Result<(), Memory>
    ensures { OnOk result (stack.new ≡ spec.for_one stack.old) }
{
    let block = take_statements(alloc, stack);
    let value = take_tree(stack);
    let name = take_name(stack);
    stack.push(Value::Statement(Stmt::For(name, value, block)))
}

/// `if (condition) { statement .. } else { statement .. }`
pub(crate) fn if_one(alloc: Global, stack: &mut Stack<Value>) -> Result<(), Memory>
    ensures { OnOk result (stack.new ≡ spec.if_one stack.old) }
{
    let other = take_statements(alloc, stack);
    let block = take_statements(alloc, stack);
    let condition = take_tree(stack);
    stack.push(Value::Statement(Stmt::If(condition, block, other)))
}

/// `{ statement .. }`
pub(crate) fn block_one(alloc: Global, stack: &mut Stack<Value>) -> Result<(), Memory>
    ensures { OnOk result (stack.new ≡ spec.block_one stack.old) }
{
    let block = take_statements(alloc, stack);
    stack.push(Value::Statement(Stmt::Block(block)))
}
