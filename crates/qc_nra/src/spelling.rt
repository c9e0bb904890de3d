// The written form of trees, put piece by piece.
ghost use Rattle.std.specs.Prelude.{◌≡◌, ◌++◌, codes, IfOk, OnOk};
ghost use Rattle.std.specs.String.{string_bytes};
ghost use Rattle.qc_nra.specs.Spelling as spec;
ghost use Rattle.qc_trees.specs.OperatorTexts.{next, opened};

use crate::tree::Nra;
use qc_containers::{Chars, Memory};
use qc_trees::{binary_word, open_unary, push, push_constant, push_global};
use std::alloc::Global;

/// The written form of the tree.
pub fn spell(alloc: Global, q: &Nra) -> Result<Chars, Memory>
    ensures { IfOk result (λ text. text ≡ spec.spelling q.now) }
{
    let mut text = String::new(alloc);
    push_tree(alloc, q, &mut text)?;
    Chars::of(alloc, text.as_str())
}

// Puts a tree.
#[cycle(push)]
fn push_tree(alloc: Global, q: &Nra, text: &mut String) -> Result<(), Memory>
    ensures { OnOk result (string_bytes text.new ≡ string_bytes text.old ++ spec.spelling q.now) }
{
    match q {
        Nra::Const(d) => push_constant(alloc, text, d),
        Nra::Input => push(text, "in"),
        Nra::Env => push(text, "env"),
        Nra::Global(name) => push_global(alloc, text, name),
        Nra::Unary(op, a) => {
            open_unary(alloc, text, op)?;
            push_last(alloc, a.get(), text)
        }
        Nra::Binary(op, a, b) => {
            push_first(alloc, a.get(), text, binary_word(*op))?;
            push_last(alloc, b.get(), text)
        }
        Nra::Comp(a, b) => {
            push_first(alloc, a.get(), text, "comp")?;
            push_last(alloc, b.get(), text)
        }
        Nra::Map(a, b) => {
            push_first(alloc, a.get(), text, "map")?;
            push_last(alloc, b.get(), text)
        }
        Nra::Select(a, b) => {
            push_first(alloc, a.get(), text, "select")?;
            push_last(alloc, b.get(), text)
        }
        Nra::Product(a, b) => {
            push_first(alloc, a.get(), text, "product")?;
            push_last(alloc, b.get(), text)
        }
        Nra::DepJoin(a, b) => {
            push_first(alloc, a.get(), text, "djoin")?;
            push_last(alloc, b.get(), text)
        }
        Nra::Default(a, b) => {
            push_first(alloc, a.get(), text, "default")?;
            push_last(alloc, b.get(), text)
        }
        Nra::EnvComp(a, b) => {
            push_first(alloc, a.get(), text, "compenv")?;
            push_last(alloc, b.get(), text)
        }
        Nra::MapEnv(a) => {
            push(text, "(mapenv")?;
            push_last(alloc, a.get(), text)
        }
        Nra::Either(a, b) => {
            push_first(alloc, a.get(), text, "either")?;
            push_last(alloc, b.get(), text)
        }
        Nra::If(a, b, c) => {
            push_first(alloc, a.get(), text, "if")?;
            push_next(alloc, b.get(), text)?;
            push_last(alloc, c.get(), text)
        }
    }
}

// Puts a head and the first part behind it.
#[cycle(push)]
fn push_first(alloc: Global, a: &Nra, text: &mut String, head: &str) -> Result<(), Memory>
    ensures { OnOk result
        (string_bytes text.new ≡ string_bytes text.old ++ opened head.now (spec.spelling a.now)) }
{
    push(text, "(")?;
    push(text, head)?;
    push_next(alloc, a, text)
}

// Puts a part behind a space.
#[cycle(push)]
fn push_next(alloc: Global, a: &Nra, text: &mut String) -> Result<(), Memory>
    ensures { OnOk result (string_bytes text.new ≡ string_bytes text.old ++ next (spec.spelling a.now)) }
{
    push(text, " ")?;
    push_tree(alloc, a, text)
}

// Puts the last part, and the end of the form.
#[cycle(push)]
fn push_last(alloc: Global, a: &Nra, text: &mut String) -> Result<(), Memory>
    ensures { OnOk result
        (string_bytes text.new ≡ string_bytes text.old ++ (next (spec.spelling a.now) ++ codes ")")) }
{
    push_next(alloc, a, text)?;
    push(text, ")")
}
