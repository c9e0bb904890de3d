// The written form of expressions, put piece by piece.
ghost use Rattle.std.specs.Prelude.{◌≡◌, ◌++◌, codes, OnOk};
ghost use Rattle.std.specs.String.{string_bytes};
ghost use Rattle.qc_imp.specs.Spelling as spec;
ghost use Rattle.qc_trees.specs.OperatorTexts.{next, opened};

use crate::tree::ImpExpr;
use qc_containers::Memory;
use qc_trees::{binary_word, open_unary, push, push_constant, push_global, push_variable};
use std::alloc::Global;

// Puts an expression.
#[cycle(expression_text)]
fn push_expression(alloc: Global, e: &ImpExpr, text: &mut String) -> Result<(), Memory>
    ensures { OnOk result (string_bytes text.new ≡ string_bytes text.old ++ spec.expr_spelling e.now) }
{
    match e {
        ImpExpr::Var(x) => push_variable(text, *x),
        ImpExpr::Const(d) => push_constant(alloc, text, d),
        ImpExpr::Global(name) => push_global(alloc, text, name),
        ImpExpr::Unary(op, a) => {
            open_unary(alloc, text, op)?;
            push_last_expression(alloc, a.get(), text)
        }
        ImpExpr::Binary(op, a, b) => {
            push_first_expression(alloc, a.get(), text, binary_word(*op))?;
            push_last_expression(alloc, b.get(), text)
        }
        ImpExpr::IsLeft(a) => {
            push(text, "(isleft")?;
            push_last_expression(alloc, a.get(), text)
        }
        ImpExpr::Payload(a) => {
            push(text, "(payload")?;
            push_last_expression(alloc, a.get(), text)
        }
    }
}

// Puts a head and the first part behind it.
#[cycle(expression_text)]
pub(crate) fn push_first_expression(
    alloc: Global,
    a: &ImpExpr,
    text: &mut String,
    head: &str,
) -> Result<(), Memory>
    ensures { OnOk result
        (string_bytes text.new ≡ string_bytes text.old ++ opened head.now (spec.expr_spelling a.now)) }
{
    push(text, "(")?;
    push(text, head)?;
    push_next_expression(alloc, a, text)
}

// Puts a part behind a space.
#[cycle(expression_text)]
pub(crate) fn push_next_expression(
    alloc: Global,
    a: &ImpExpr,
    text: &mut String,
) -> Result<(), Memory>
    ensures { OnOk result (string_bytes text.new ≡ string_bytes text.old ++ next (spec.expr_spelling a.now)) }
{
    push(text, " ")?;
    push_expression(alloc, a, text)
}

// Puts the last part, and the end of the form.
#[cycle(expression_text)]
pub(crate) fn push_last_expression(
    alloc: Global,
    a: &ImpExpr,
    text: &mut String,
) -> Result<(), Memory>
    ensures { OnOk result
        (string_bytes text.new ≡ string_bytes text.old ++ (next (spec.expr_spelling a.now) ++ codes ")")) }
{
    push_next_expression(alloc, a, text)?;
    push(text, ")")
}
