// The tree of the algebra that a row describes: an array of a word, parameters and parts.
ghost use Rattle.std.specs.Prelude.{◌≡◌, ◌+◌, ◌≤◌, IfOk};
ghost use Rattle.qc_nra.specs.Sizes.{size};

use qc_containers::Boxed;
use qc_data::{Json, Jsons};
use qc_nra::Nra;
use qc_ops::Binary;
use qc_rows::{Odd, binary, datum, named, operator_of, take_node, word};
use std::alloc::Global;

// A form of two parts.
#[derive(Drop)]
enum Pair {
    On(Binary),
    Comp,
    Map,
    Select,
    Product,
    DepJoin,
    Default,
    EnvComp,
    Either,
}

/// The tree that the array describes. It takes a node of the room for each node, so that it has no more of them.
#[cycle(tree)]
pub fn tree(alloc: Global, json: &Json, room: &mut u64) -> Result<Nra, Odd>
    ensures { IfOk result (λ made. size made + room.new ≤ room.old) }
{
    match json {
        Json::Array(items) => form(alloc, items, room),
        _ => Err(Odd::Form),
    }
}

#[cycle(tree)]
fn form(alloc: Global, items: &Jsons, room: &mut u64) -> Result<Nra, Odd>
    ensures { IfOk result (λ made. size made + room.new ≤ room.old) }
{
    match items.as_slice() {
        [] => Err(Odd::Form),
        [first, ..] => worded(alloc, word(first)?, items, room),
    }
}

// The form of the word that the items begin with.
#[cycle(tree)]
fn worded(alloc: Global, word: &str, items: &Jsons, room: &mut u64) -> Result<Nra, Odd>
    ensures { IfOk result (λ made. size made + room.new ≤ room.old) }
{
    take_node(room)?;
    match (pair_of(word), items.as_slice()) {
        (Some(pair), [_, a, b]) => {
            let a = part(alloc, a, room)?;
            let b = part(alloc, b, room)?;
            Ok(paired(pair, a, b))
        }
        (Some(_), _) => Err(Odd::Form),
        (None, [_, a, b, c]) if word == "if" => {
            let a = part(alloc, a, room)?;
            let b = part(alloc, b, room)?;
            let c = part(alloc, c, room)?;
            Ok(Nra::If(a, b, c))
        }
        (None, [_, a]) if word == "mapenv" => Ok(Nra::MapEnv(part(alloc, a, room)?)),
        (None, all) => match word {
            "in" | "env" | "const" | "global" => leaf(alloc, word, all),
            _ => on_one(alloc, word, items, room),
        },
    }
}

// A part of a tree.
#[cycle(tree)]
fn part(alloc: Global, json: &Json, room: &mut u64) -> Result<Boxed<Nra>, Odd>
    ensures { IfOk result (λ made. size made + room.new ≤ room.old) }
{
    let made = tree(alloc, json, room)?;
    Ok(Boxed::of(alloc, made)?)
}

// A form without parts.
fn leaf(alloc: Global, word: &str, items: &[Json]) -> Result<Nra, Odd>
    ensures { IfOk result (λ made. size made ≡ 1) }
{
    match items {
        [_] if word == "in" => Ok(Nra::Input),
        [_] if word == "env" => Ok(Nra::Env),
        [_, json] if word == "const" => Ok(Nra::Const(datum(alloc, json)?)),
        [_, json] if word == "global" => Ok(Nra::Global(named(alloc, json)?)),
        _ => Err(Odd::Form),
    }
}

// An operator on one part, which is the last item.
#[cycle(tree)]
fn on_one(alloc: Global, word: &str, items: &Jsons, room: &mut u64) -> Result<Nra, Odd>
    ensures { IfOk result (λ made. size made + room.new ≤ 1 + room.old) }
{
    let operator = operator_of(alloc, word, items.as_slice())?;
    match items.as_slice() {
        [.., a] => Ok(Nra::Unary(operator, part(alloc, a, room)?)),
        [] => Err(Odd::Form),
    }
}

// The form of two parts that the word names.
fn pair_of(word: &str) -> Option<Pair> {
    match word {
        "comp" => Some(Pair::Comp),
        "map" => Some(Pair::Map),
        "select" => Some(Pair::Select),
        "product" => Some(Pair::Product),
        "djoin" => Some(Pair::DepJoin),
        "default" => Some(Pair::Default),
        "compenv" => Some(Pair::EnvComp),
        "either" => Some(Pair::Either),
        _ => Some(Pair::On(binary(word)?)),
    }
}

// A form of its two parts.
fn paired(pair: Pair, a: Boxed<Nra>, b: Boxed<Nra>) -> Nra
    ensures { size result ≡ 1 + (size a + size b) }
{
    match pair {
        Pair::On(operator) => Nra::Binary(operator, a, b),
        Pair::Comp => Nra::Comp(a, b),
        Pair::Map => Nra::Map(a, b),
        Pair::Select => Nra::Select(a, b),
        Pair::Product => Nra::Product(a, b),
        Pair::DepJoin => Nra::DepJoin(a, b),
        Pair::Default => Nra::Default(a, b),
        Pair::EnvComp => Nra::EnvComp(a, b),
        Pair::Either => Nra::Either(a, b),
    }
}
