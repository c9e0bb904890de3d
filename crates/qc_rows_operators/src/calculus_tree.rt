// The tree of the calculus that a row describes: an array of a word, variables, parameters and parts.
ghost use Rattle.std.specs.Prelude.{◌+◌, ◌≤◌, IfOk};
ghost use Rattle.qc_nnrc.specs.Sizes.{size};

use qc_containers::Boxed;
use qc_data::{Json, Jsons};
use qc_nnrc::Nnrc;
use qc_rows::{Odd, binary, datum, named, operator_of, take_node, variable, word};
use std::alloc::Global;

/// The tree that the array describes. It takes a node of the room for each node, so that it has no more of them.
#[cycle(tree)]
pub fn tree(alloc: Global, json: &Json, room: &mut u64) -> Result<Nnrc, Odd>
    ensures { IfOk result (λ made. size made + room.new ≤ room.old) }
{
    match json {
        Json::Array(items) => form(alloc, items, room),
        _ => Err(Odd::Form),
    }
}

#[cycle(tree)]
fn form(alloc: Global, items: &Jsons, room: &mut u64) -> Result<Nnrc, Odd>
    ensures { IfOk result (λ made. size made + room.new ≤ room.old) }
{
    match items.as_slice() {
        [] => Err(Odd::Form),
        [first, ..] => worded(alloc, word(first)?, items, room),
    }
}

// The form of the word that the items begin with.
#[cycle(tree)]
fn worded(alloc: Global, word: &str, items: &Jsons, room: &mut u64) -> Result<Nnrc, Odd>
    ensures { IfOk result (λ made. size made + room.new ≤ room.old) }
{
    take_node(room)?;
    match word {
        "var" | "const" | "global" => leaf(alloc, word, items.as_slice()),
        "let" | "for" => binder(alloc, word, items, room),
        "if" | "either" => choice(alloc, word, items, room),
        _ => operator(alloc, word, items, room),
    }
}

// A part of a tree.
#[cycle(tree)]
fn part(alloc: Global, json: &Json, room: &mut u64) -> Result<Boxed<Nnrc>, Odd>
    ensures { IfOk result (λ made. size made + room.new ≤ room.old) }
{
    let made = tree(alloc, json, room)?;
    Ok(Boxed::of(alloc, made)?)
}

// A form without parts.
fn leaf(alloc: Global, word: &str, items: &[Json]) -> Result<Nnrc, Odd>
    ensures { IfOk result (λ made. size made ≤ 1) }
{
    match items {
        [_, json] if word == "var" => Ok(Nnrc::Var(variable(json)?)),
        [_, json] if word == "const" => Ok(Nnrc::Const(datum(alloc, json)?)),
        [_, json] if word == "global" => Ok(Nnrc::Global(named(alloc, json)?)),
        _ => Err(Odd::Form),
    }
}

// A form that binds a variable in its second part.
#[cycle(tree)]
fn binder(alloc: Global, word: &str, items: &Jsons, room: &mut u64) -> Result<Nnrc, Odd>
    ensures { IfOk result (λ made. size made + room.new ≤ 1 + room.old) }
{
    match items.as_slice() {
        [_, x, a, b] => {
            let x = variable(x)?;
            let a = part(alloc, a, room)?;
            let b = part(alloc, b, room)?;
            if word == "let" {
                Ok(Nnrc::Let(x, a, b))
            } else {
                Ok(Nnrc::For(x, a, b))
            }
        }
        _ => Err(Odd::Form),
    }
}

// A form of three parts, one of which is chosen by the value of the first.
#[cycle(tree)]
fn choice(alloc: Global, word: &str, items: &Jsons, room: &mut u64) -> Result<Nnrc, Odd>
    ensures { IfOk result (λ made. size made + room.new ≤ 1 + room.old) }
{
    match items.as_slice() {
        [_, a, b, c] if word == "if" => {
            let a = part(alloc, a, room)?;
            let b = part(alloc, b, room)?;
            let c = part(alloc, c, room)?;
            Ok(Nnrc::If(a, b, c))
        }
        [_, a, x, b, y, c] if word == "either" => {
            let (x, y) = (variable(x)?, variable(y)?);
            let a = part(alloc, a, room)?;
            let b = part(alloc, b, room)?;
            let c = part(alloc, c, room)?;
            Ok(Nnrc::Either(a, x, b, y, c))
        }
        _ => Err(Odd::Form),
    }
}

// An operator on two parts or on one, which is the last item.
#[cycle(tree)]
fn operator(alloc: Global, word: &str, items: &Jsons, room: &mut u64) -> Result<Nnrc, Odd>
    ensures { IfOk result (λ made. size made + room.new ≤ 1 + room.old) }
{
    match (binary(word), items.as_slice()) {
        (Some(operator), [_, a, b]) => {
            let a = part(alloc, a, room)?;
            let b = part(alloc, b, room)?;
            Ok(Nnrc::Binary(operator, a, b))
        }
        (None, [.., a]) => {
            let operator = operator_of(alloc, word, items.as_slice())?;
            Ok(Nnrc::Unary(operator, part(alloc, a, room)?))
        }
        _ => Err(Odd::Form),
    }
}
