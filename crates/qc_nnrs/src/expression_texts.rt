// The written forms of variables and of expressions, put piece by piece.
ghost use Rattle.std.specs.Prelude.{◌≡◌, ◌++◌, codes, OnOk};
ghost use Rattle.std.specs.String.{string_bytes};
ghost use Rattle.qc_nnrs.specs.Spelling as spec;
ghost use Rattle.qc_trees.specs.OperatorTexts.{next, variable_text};

use crate::tree::NnrsExpr;
use qc_containers::Memory;
use qc_trees::{
    binary_word, open_unary, push, push_bound, push_constant, push_global, push_variable,
};
use std::alloc::Global;

// Puts an expression.
#[cycle(texts)]
fn push_tree(alloc: Global, e: &NnrsExpr, text: &mut String) -> Result<(), Memory>
    ensures { OnOk result (string_bytes text.new ≡ string_bytes text.old ++ spec.expr_spelling e.now) }
{
    match e {
        NnrsExpr::Var(x) => push_variable(text, *x),
        NnrsExpr::Const(d) => push_constant(alloc, text, d),
        NnrsExpr::Global(name) => push_global(alloc, text, name),
        NnrsExpr::Unary(op, a) => {
            open_unary(alloc, text, op)?;
            push_end(alloc, a.get(), text)
        }
        NnrsExpr::Binary(op, a, b) => {
            push(text, "(")?;
            push(text, binary_word(*op))?;
            push_value(alloc, a.get(), text)?;
            push_end(alloc, b.get(), text)
        }
    }
}

// Puts an expression behind a space.
#[cycle(texts)]
pub(crate) fn push_value(alloc: Global, e: &NnrsExpr, text: &mut String) -> Result<(), Memory>
    ensures { OnOk result (string_bytes text.new ≡ string_bytes text.old ++ next (spec.expr_spelling e.now)) }
{
    push(text, " ")?;
    push_tree(alloc, e, text)
}

// Puts the last expression of a form, and the end of the form.
#[cycle(texts)]
fn push_end(alloc: Global, e: &NnrsExpr, text: &mut String) -> Result<(), Memory>
    ensures { OnOk result
        (string_bytes text.new ≡ string_bytes text.old ++ (next (spec.expr_spelling e.now) ++ codes ")")) }
{
    push_value(alloc, e, text)?;
    push(text, ")")
}

// Puts a text, and a variable and an expression, each behind a space.
pub(crate) fn push_bound_value(
    alloc: Global,
    e: &NnrsExpr,
    text: &mut String,
    before: &str,
    x: u128,
) -> Result<(), Memory>
    ensures { OnOk result
        (string_bytes text.new
        ≡ string_bytes text.old ++ (before.now ++ (next (variable_text x) ++ next (spec.expr_spelling e.now)))) }
{
    push_bound(text, before, x)?;
    push_value(alloc, e, text)
}

// Puts a write: a text, the variable and the expression, and the end of the form.
pub(crate) fn push_write(
    alloc: Global,
    e: &NnrsExpr,
    text: &mut String,
    before: &str,
    x: u128,
) -> Result<(), Memory>
    ensures { OnOk result
        (string_bytes text.new
        ≡ string_bytes text.old
        ++ (before.now ++ (next (variable_text x) ++ (next (spec.expr_spelling e.now) ++ codes ")")))) }
{
    push_bound_value(alloc, e, text, before, x)?;
    push(text, ")")
}
