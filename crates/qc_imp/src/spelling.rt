// The written form of programs, put piece by piece.
ghost use Rattle.std.specs.Prelude.{◌≡◌, ◌++◌, codes, map, IfOk, OnOk};
ghost use Rattle.std.specs.String.{string_bytes};
ghost use Rattle.qc_imp.specs.Spelling as spec;
ghost use Rattle.qc_trees.specs.OperatorTexts.{next, variable_text};

use crate::expression_texts::{push_first_expression, push_last_expression, push_next_expression};
use crate::tree::{Imp, ImpExpr, ImpStmt};
use qc_containers::{Chars, Memory};
use qc_trees::{push, push_bound};
use std::alloc::Global;

/// The written form of the program.
pub fn spell(alloc: Global, t: &Imp) -> Result<Chars, Memory>
    ensures { IfOk result (λ text. text ≡ spec.spelling t.now) }
{
    let mut text = String::new(alloc);
    push(&mut text, "(prog")?;
    push_next(alloc, &t.body, &mut text)?;
    push_bound(&mut text, "", t.result)?;
    push(&mut text, ")")?;
    Chars::of(alloc, text.as_str())
}

// Puts a statement.
#[cycle(statement_text)]
fn push_statement(alloc: Global, s: &ImpStmt, text: &mut String) -> Result<(), Memory>
    ensures { OnOk result (string_bytes text.new ≡ string_bytes text.old ++ spec.stmt_spelling s.now) }
{
    match s {
        ImpStmt::Block(statements) => {
            push(text, "(block")?;
            push_parts(alloc, statements.as_slice(), text)
        }
        ImpStmt::Var(x) => {
            push_bound(text, "(var", *x)?;
            push(text, ")")
        }
        ImpStmt::Val(x, e) => push_valued(alloc, text, "(val", *x, e.get()),
        ImpStmt::Set(x, e) => push_valued(alloc, text, "(set", *x, e.get()),
        ImpStmt::Collect(x, statements) => {
            push_bound(text, "(collect", *x)?;
            push_parts(alloc, statements.as_slice(), text)
        }
        ImpStmt::Push(x, e) => push_valued(alloc, text, "(push", *x, e.get()),
        ImpStmt::For(x, e, a) => {
            push_bound(text, "(for", *x)?;
            push_next_expression(alloc, e.get(), text)?;
            push_last(alloc, a.get(), text)
        }
        ImpStmt::If(e, a, b) => {
            push_first_expression(alloc, e.get(), text, "if")?;
            push_next(alloc, a.get(), text)?;
            push_last(alloc, b.get(), text)
        }
    }
}

// Puts a text, a variable and an expression, and the end of the form.
fn push_valued(
    alloc: Global,
    text: &mut String,
    before: &str,
    x: u128,
    e: &ImpExpr,
) -> Result<(), Memory>
    ensures { OnOk result
        (string_bytes text.new ≡ string_bytes text.old
        ++ (before.now ++ (next (variable_text x) ++ (next (spec.expr_spelling e.now) ++ codes ")")))) }
{
    push_bound(text, before, x)?;
    push_last_expression(alloc, e, text)
}

// Puts statements behind spaces, and the end of their form.
#[cycle(statement_text)]
fn push_parts(alloc: Global, statements: &[ImpStmt], text: &mut String) -> Result<(), Memory>
    ensures { OnOk result
        (string_bytes text.new
        ≡ string_bytes text.old ++ spec.after_parts (map spec.stmt_spelling statements.now)) }
{
    for statement in statements {
        push_next(alloc, statement, text)?;
    }
    push(text, ")")
}

// Puts a statement behind a space.
#[cycle(statement_text)]
fn push_next(alloc: Global, s: &ImpStmt, text: &mut String) -> Result<(), Memory>
    ensures { OnOk result (string_bytes text.new ≡ string_bytes text.old ++ next (spec.stmt_spelling s.now)) }
{
    push(text, " ")?;
    push_statement(alloc, s, text)
}

// Puts the last statement, and the end of the form.
#[cycle(statement_text)]
fn push_last(alloc: Global, s: &ImpStmt, text: &mut String) -> Result<(), Memory>
    ensures { OnOk result
        (string_bytes text.new ≡ string_bytes text.old ++ (next (spec.stmt_spelling s.now) ++ codes ")")) }
{
    push_next(alloc, s, text)?;
    push(text, ")")
}
