// Actions that put the lexeme before on the stack.
ghost use Rattle.std.specs.Prelude.{◌≡◌, pred, IfOk, OnOk};
ghost use Rattle.qc_js_text.specs.inner.Actions as spec;

use crate::value::Value;
use qc_containers::{Chars, Memory};
use qc_grammar::Stack;
use qc_js::Expr;
use qc_js_lex::Lexeme;
use qc_rt::Rt;
use std::alloc::Global;

// The place of the last of the first lexemes, of which there are so many.
fn place(count: u32) -> usize
    ensures { result ≡ pred count }
{
    count.saturating_sub(1) as usize
}

// The number of the variable that the lexeme before is.
fn variable_before(lexemes: &[Lexeme], count: u32) -> u128
    ensures { result ≡ spec.var_of (spec.before lexemes.now count) }
{
    match lexemes.get(place(count)) {
        Some(Lexeme::Var(x)) => *x,
        _ => 0,
    }
}

// The function that it is.
fn function_before(lexemes: &[Lexeme], count: u32) -> Rt
    ensures { result ≡ spec.called_of (spec.before lexemes.now count) }
{
    match lexemes.get(place(count)) {
        Some(Lexeme::Function(function)) => *function,
        _ => Rt::Nothing,
    }
}

// The integer that it is.
fn int_before(lexemes: &[Lexeme], count: u32) -> i64
    ensures { result ≡ spec.int_of (spec.before lexemes.now count) }
{
    match lexemes.get(place(count)) {
        Some(Lexeme::Int(n)) => *n,
        _ => 0,
    }
}

// The content of the string that it is.
fn text_before(alloc: Global, lexemes: &[Lexeme], count: u32) -> Result<Chars, Memory>
    ensures { IfOk result (λ text. text ≡ spec.text_of (spec.before lexemes.now count)) }
{
    match lexemes.get(place(count)) {
        Some(Lexeme::Text(text)) => text.copy(alloc),
        _ => Chars::of(alloc, ""),
    }
}

/// The number of a variable.
pub(crate) fn name(lexemes: &[Lexeme], count: u32, stack: &mut Stack<Value>) -> Result<(), Memory>
    ensures { OnOk result (stack.new ≡ spec.name lexemes.now count stack.old) }
{
    stack.push(Value::Name(variable_before(lexemes, count)))
}

/// A function of the runtime.
pub(crate) fn called(lexemes: &[Lexeme], count: u32, stack: &mut Stack<Value>) -> Result<(), Memory>
    ensures { OnOk result (stack.new ≡ spec.called lexemes.now count stack.old) }
{
    stack.push(Value::Function(function_before(lexemes, count)))
}

/// The value of a variable.
pub(crate) fn variable(
    lexemes: &[Lexeme],
    count: u32,
    stack: &mut Stack<Value>,
) -> Result<(), Memory>
    ensures { OnOk result (stack.new ≡ spec.variable lexemes.now count stack.old) }
{
    stack.push(Value::Tree(Expr::Var(variable_before(lexemes, count))))
}

/// An integer.
pub(crate) fn int(lexemes: &[Lexeme], count: u32, stack: &mut Stack<Value>) -> Result<(), Memory>
    ensures { OnOk result (stack.new ≡ spec.int lexemes.now count stack.old) }
{
    stack.push(Value::Tree(Expr::Int(int_before(lexemes, count))))
}

/// A text.
pub(crate) fn text(
    alloc: Global,
    lexemes: &[Lexeme],
    count: u32,
    stack: &mut Stack<Value>,
) -> Result<(), Memory>
    ensures { OnOk result (stack.new ≡ spec.text lexemes.now count stack.old) }
{
    let text = text_before(alloc, lexemes, count)?;
    stack.push(Value::Tree(Expr::Text(text)))
}
