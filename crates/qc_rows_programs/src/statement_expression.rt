// The expression of statements that a row describes: an array of a word, a variable or parameters, and parts.
ghost use Rattle.std.specs.Prelude.{◌+◌, ◌≤◌, IfOk};
ghost use Rattle.qc_nnrs.specs.Sizes.{expr_size};

use qc_containers::Boxed;
use qc_data::{Json, Jsons};
use qc_nnrs::NnrsExpr;
use qc_rows::{Odd, binary, datum, named, operator_of, take_node, variable, word};
use std::alloc::Global;

/// The expression that the array describes. It takes a node of the room for each node, so that it has no more of them.
#[cycle(expression)]
pub fn expression(alloc: Global, json: &Json, room: &mut u64) -> Result<Boxed<NnrsExpr>, Odd>
    ensures { IfOk result (λ made. expr_size made + room.new ≤ room.old) }
{
    let made = tree(alloc, json, room)?;
    Ok(Boxed::of(alloc, made)?)
}

// The same without a box.
#[cycle(expression)]
fn tree(alloc: Global, json: &Json, room: &mut u64) -> Result<NnrsExpr, Odd>
    ensures { IfOk result (λ made. expr_size made + room.new ≤ room.old) }
{
    match json {
        Json::Array(items) => form(alloc, items, room),
        _ => Err(Odd::Form),
    }
}

#[cycle(expression)]
fn form(alloc: Global, items: &Jsons, room: &mut u64) -> Result<NnrsExpr, Odd>
    ensures { IfOk result (λ made. expr_size made + room.new ≤ room.old) }
{
    match items.as_slice() {
        [] => Err(Odd::Form),
        [first, ..] => worded(alloc, word(first)?, items, room),
    }
}

// The form of the word that the items begin with.
#[cycle(expression)]
fn worded(alloc: Global, word: &str, items: &Jsons, room: &mut u64) -> Result<NnrsExpr, Odd>
    ensures { IfOk result (λ made. expr_size made + room.new ≤ room.old) }
{
    take_node(room)?;
    match word {
        "var" | "const" | "global" => leaf(alloc, word, items.as_slice()),
        _ => operator(alloc, word, items, room),
    }
}

// A form without parts.
fn leaf(alloc: Global, word: &str, items: &[Json]) -> Result<NnrsExpr, Odd>
    ensures { IfOk result (λ made. expr_size made ≤ 1) }
{
    match items {
        [_, json] if word == "var" => Ok(NnrsExpr::Var(variable(json)?)),
        [_, json] if word == "const" => Ok(NnrsExpr::Const(datum(alloc, json)?)),
        [_, json] if word == "global" => Ok(NnrsExpr::Global(named(alloc, json)?)),
        _ => Err(Odd::Form),
    }
}

// An operator on two parts or on one, which is the last item.
#[cycle(expression)]
fn operator(alloc: Global, word: &str, items: &Jsons, room: &mut u64) -> Result<NnrsExpr, Odd>
    ensures { IfOk result (λ made. expr_size made + room.new ≤ 1 + room.old) }
{
    match (binary(word), items.as_slice()) {
        (Some(operator), [_, a, b]) => {
            let a = expression(alloc, a, room)?;
            let b = expression(alloc, b, room)?;
            Ok(NnrsExpr::Binary(operator, a, b))
        }
        (None, [.., a]) => {
            let operator = operator_of(alloc, word, items.as_slice())?;
            Ok(NnrsExpr::Unary(operator, expression(alloc, a, room)?))
        }
        _ => Err(Odd::Form),
    }
}
