// The written form of trees, put piece by piece.
ghost use Rattle.std.specs.Prelude.{◌≡◌, ◌++◌, codes, IfOk, OnOk};
ghost use Rattle.std.specs.String.{string_bytes};
ghost use Rattle.qc_nnrc.specs.Spelling as spec;
ghost use Rattle.qc_trees.specs.OperatorTexts.{next, opened};

use crate::tree::Nnrc;
use qc_containers::{Chars, Memory};
use qc_trees::{
    binary_word, open_unary, push, push_bound, push_constant, push_global, push_variable,
};
use std::alloc::Global;

/// The written form of the tree.
pub fn spell(alloc: Global, e: &Nnrc) -> Result<Chars, Memory>
    ensures { IfOk result (λ text. text ≡ spec.spelling e.now) }
{
    let mut text = String::new(alloc);
    push_tree(alloc, e, &mut text)?;
    Chars::of(alloc, text.as_str())
}

// Puts a tree.
#[cycle(push)]
fn push_tree(alloc: Global, e: &Nnrc, text: &mut String) -> Result<(), Memory>
    ensures { OnOk result (string_bytes text.new ≡ string_bytes text.old ++ spec.spelling e.now) }
{
    match e {
        Nnrc::Var(x) => push_variable(text, *x),
        Nnrc::Const(d) => push_constant(alloc, text, d),
        Nnrc::Global(name) => push_global(alloc, text, name),
        Nnrc::Unary(op, a) => {
            open_unary(alloc, text, op)?;
            push_last(alloc, a.get(), text)
        }
        Nnrc::Binary(op, a, b) => {
            push_first(alloc, a.get(), text, binary_word(*op))?;
            push_last(alloc, b.get(), text)
        }
        Nnrc::Let(x, a, b) => {
            push_bound(text, "(let", *x)?;
            push_next(alloc, a.get(), text)?;
            push_last(alloc, b.get(), text)
        }
        Nnrc::For(x, a, b) => {
            push_bound(text, "(for", *x)?;
            push_next(alloc, a.get(), text)?;
            push_last(alloc, b.get(), text)
        }
        Nnrc::If(a, b, c) => {
            push_first(alloc, a.get(), text, "if")?;
            push_next(alloc, b.get(), text)?;
            push_last(alloc, c.get(), text)
        }
        Nnrc::Either(a, x, b, y, c) => {
            push_first(alloc, a.get(), text, "either")?;
            push_bound(text, "", *x)?;
            push_next(alloc, b.get(), text)?;
            push_bound(text, "", *y)?;
            push_last(alloc, c.get(), text)
        }
    }
}

// Puts a head and the first part behind it.
#[cycle(push)]
fn push_first(alloc: Global, a: &Nnrc, text: &mut String, head: &str) -> Result<(), Memory>
    ensures { OnOk result
        (string_bytes text.new ≡ string_bytes text.old ++ opened head.now (spec.spelling a.now)) }
{
    push(text, "(")?;
    push(text, head)?;
    push_next(alloc, a, text)
}

// Puts a part behind a space.
#[cycle(push)]
fn push_next(alloc: Global, a: &Nnrc, text: &mut String) -> Result<(), Memory>
    ensures { OnOk result (string_bytes text.new ≡ string_bytes text.old ++ next (spec.spelling a.now)) }
{
    push(text, " ")?;
    push_tree(alloc, a, text)
}

// Puts the last part, and the end of the form.
#[cycle(push)]
fn push_last(alloc: Global, a: &Nnrc, text: &mut String) -> Result<(), Memory>
    ensures { OnOk result
        (string_bytes text.new ≡ string_bytes text.old ++ (next (spec.spelling a.now) ++ codes ")")) }
{
    push_next(alloc, a, text)?;
    push(text, ")")
}
