// The written form of programs, put piece by piece.
ghost use Rattle.std.specs.Prelude.{◌≡◌, ◌++◌, codes, IfOk, OnOk};
ghost use Rattle.std.specs.String.{string_bytes};
ghost use Rattle.qc_nnrs.specs.Spelling as spec;
ghost use Rattle.qc_trees.specs.OperatorTexts.{next, variable_text};

use crate::expression_texts::{push_bound_value, push_value, push_write};
use crate::tree::{Nnrs, NnrsStmt};
use qc_containers::{Chars, Memory};
use qc_trees::{push, push_bound};
use std::alloc::Global;

/// The written form of the program.
pub fn spell(alloc: Global, t: &Nnrs) -> Result<Chars, Memory>
    ensures { IfOk result (λ text. text ≡ spec.spelling t.now) }
{
    let mut text = String::new(alloc);
    push(&mut text, "(prog")?;
    push_part(alloc, &t.body, &mut text)?;
    push_bound(&mut text, "", t.result)?;
    push(&mut text, ")")?;
    Chars::of(alloc, text.as_str())
}

// Puts a statement.
#[cycle(push)]
fn push_tree(alloc: Global, s: &NnrsStmt, text: &mut String) -> Result<(), Memory>
    ensures { OnOk result (string_bytes text.new ≡ string_bytes text.old ++ spec.stmt_spelling s.now) }
{
    match s {
        NnrsStmt::Seq(a, b) => {
            push(text, "(seq")?;
            push_part(alloc, a.get(), text)?;
            push_last(alloc, b.get(), text)
        }
        NnrsStmt::Let(x, e, b) => {
            push_bound_value(alloc, e.get(), text, "(let", *x)?;
            push_last(alloc, b.get(), text)
        }
        NnrsStmt::LetMut(x, a, b) => {
            push_bound_part(alloc, a.get(), text, "(letmut", *x)?;
            push_last(alloc, b.get(), text)
        }
        NnrsStmt::LetColl(x, a, b) => {
            push_bound_part(alloc, a.get(), text, "(letcoll", *x)?;
            push_last(alloc, b.get(), text)
        }
        NnrsStmt::Set(x, e) => push_write(alloc, e.get(), text, "(set", *x),
        NnrsStmt::Push(x, e) => push_write(alloc, e.get(), text, "(push", *x),
        NnrsStmt::For(x, e, b) => {
            push_bound_value(alloc, e.get(), text, "(for", *x)?;
            push_last(alloc, b.get(), text)
        }
        NnrsStmt::If(e, a, b) => {
            push(text, "(if")?;
            push_value(alloc, e.get(), text)?;
            push_part(alloc, a.get(), text)?;
            push_last(alloc, b.get(), text)
        }
        NnrsStmt::Either(e, x, a, y, b) => {
            push(text, "(either")?;
            push_value(alloc, e.get(), text)?;
            push_bound_part(alloc, a.get(), text, "", *x)?;
            push_bound_part(alloc, b.get(), text, "", *y)?;
            push(text, ")")
        }
    }
}

// Puts a statement behind a space.
#[cycle(push)]
fn push_part(alloc: Global, s: &NnrsStmt, text: &mut String) -> Result<(), Memory>
    ensures { OnOk result (string_bytes text.new ≡ string_bytes text.old ++ next (spec.stmt_spelling s.now)) }
{
    push(text, " ")?;
    push_tree(alloc, s, text)
}

// Puts a text, and a variable and a statement, each behind a space.
#[cycle(push)]
fn push_bound_part(
    alloc: Global,
    s: &NnrsStmt,
    text: &mut String,
    before: &str,
    x: u128,
) -> Result<(), Memory>
    ensures { OnOk result
        (string_bytes text.new
        ≡ string_bytes text.old ++ (before.now ++ (next (variable_text x) ++ next (spec.stmt_spelling s.now)))) }
{
    push_bound(text, before, x)?;
    push_part(alloc, s, text)
}

// Puts the last statement of a form, and the end of the form.
#[cycle(push)]
fn push_last(alloc: Global, s: &NnrsStmt, text: &mut String) -> Result<(), Memory>
    ensures { OnOk result
        (string_bytes text.new ≡ string_bytes text.old ++ (next (spec.stmt_spelling s.now) ++ codes ")")) }
{
    push_part(alloc, s, text)?;
    push(text, ")")
}
