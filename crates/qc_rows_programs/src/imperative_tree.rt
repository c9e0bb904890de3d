// The imperative program that a row describes: arrays of a word, variables and parts.
ghost use Rattle.std.specs.Prelude.{◌≡◌, ◌+◌, ◌≤◌, map, sum, IfOk, OnOk};
ghost use Rattle.qc_imp.specs.Sizes.{size, stmt_size};

use crate::imperative_expression::expression;
use qc_containers::{Boxed, List};
use qc_data::{Json, Jsons};
use qc_imp::{Imp, ImpStmt};
use qc_rows::{Odd, items, take_node, variable, word};
use std::alloc::Global;

/// The program that the array describes. It takes a node of the room for each node, so that it has no more of them.
pub fn program(alloc: Global, json: &Json, room: &mut u64) -> Result<Imp, Odd>
    ensures { IfOk result (λ made. size made + room.new ≤ room.old) }
{
    take_node(room)?;
    match items(json)? {
        [first, body, result] => {
            if word(first)? != "prog" {
                return Err(Odd::Form);
            }
            let result = variable(result)?;
            let body = statement(alloc, body, room)?;
            Ok(Imp { body, result })
        }
        _ => Err(Odd::Form),
    }
}

// The statement that the array describes.
#[cycle(statement)]
fn statement(alloc: Global, json: &Json, room: &mut u64) -> Result<ImpStmt, Odd>
    ensures { IfOk result (λ made. stmt_size made + room.new ≤ room.old) }
{
    match json {
        Json::Array(items) => form(alloc, items, room),
        _ => Err(Odd::Form),
    }
}

#[cycle(statement)]
fn form(alloc: Global, items: &Jsons, room: &mut u64) -> Result<ImpStmt, Odd>
    ensures { IfOk result (λ made. stmt_size made + room.new ≤ room.old) }
{
    match items.as_slice() {
        [] => Err(Odd::Form),
        [first, ..] => worded(alloc, word(first)?, items, room),
    }
}

// The form of the word that the items begin with.
#[cycle(statement)]
fn worded(alloc: Global, word: &str, items: &Jsons, room: &mut u64) -> Result<ImpStmt, Odd>
    ensures { IfOk result (λ made. stmt_size made + room.new ≤ room.old) }
{
    take_node(room)?;
    match word {
        "var" => declaration(items.as_slice()),
        "val" | "set" | "push" => valued(alloc, word, items.as_slice(), room),
        "block" | "collect" => block(alloc, word, items, room),
        "for" | "if" => controlled(alloc, word, items, room),
        _ => Err(Odd::Form),
    }
}

// A part of a statement that is one.
#[cycle(statement)]
fn part(alloc: Global, json: &Json, room: &mut u64) -> Result<Boxed<ImpStmt>, Odd>
    ensures { IfOk result (λ made. stmt_size made + room.new ≤ room.old) }
{
    let made = statement(alloc, json, room)?;
    Ok(Boxed::of(alloc, made)?)
}

// A variable that has no value yet.
fn declaration(items: &[Json]) -> Result<ImpStmt, Odd>
    ensures { IfOk result (λ made. stmt_size made ≤ 1) }
{
    match items {
        [_, x] => Ok(ImpStmt::Var(variable(x)?)),
        _ => Err(Odd::Form),
    }
}

// A form that gives the value of an expression to a variable.
fn valued(alloc: Global, word: &str, items: &[Json], room: &mut u64) -> Result<ImpStmt, Odd>
    ensures { IfOk result (λ made. stmt_size made + room.new ≤ 1 + room.old) }
{
    match items {
        [_, x, e] => {
            let x = variable(x)?;
            let e = expression(alloc, e, room)?;
            match word {
                "val" => Ok(ImpStmt::Val(x, e)),
                "set" => Ok(ImpStmt::Set(x, e)),
                _ => Ok(ImpStmt::Push(x, e)),
            }
        }
        _ => Err(Odd::Form),
    }
}

// A form of statements in order.
#[cycle(statement)]
fn block(alloc: Global, word: &str, items: &Jsons, room: &mut u64) -> Result<ImpStmt, Odd>
    ensures { IfOk result (λ made. stmt_size made + room.new ≤ 1 + room.old) }
{
    match items.as_slice() {
        [_, parts] if word == "block" => Ok(ImpStmt::Block(all(alloc, parts, room)?)),
        [_, x, parts] if word == "collect" => {
            let x = variable(x)?;
            Ok(ImpStmt::Collect(x, all(alloc, parts, room)?))
        }
        _ => Err(Odd::Form),
    }
}

// The statements that the array describes.
#[cycle(statement)]
fn all(alloc: Global, json: &Json, room: &mut u64) -> Result<List<ImpStmt>, Odd>
    ensures { IfOk result (λ made. sum (map stmt_size made) + room.new ≤ room.old) }
{
    match json {
        Json::Array(parts) => in_order(alloc, parts, room),
        _ => Err(Odd::Form),
    }
}

#[cycle(statement)]
fn in_order(alloc: Global, parts: &Jsons, room: &mut u64) -> Result<List<ImpStmt>, Odd>
    ensures { IfOk result (λ made. sum (map stmt_size made) + room.new ≤ room.old) }
{
    let mut made = List::new(alloc);
    for json in parts.as_slice() {
        let s = statement(alloc, json, room)?;
        add(&mut made, s)?;
    }
    Ok(made)
}

// A statement behind the others.
#[tactic(auto, using(crate::proofs::Counted::counted_behind))]
fn add(statements: &mut List<ImpStmt>, s: ImpStmt) -> Result<(), Odd>
    ensures { OnOk result
        (sum (map stmt_size statements.new) ≡ sum (map stmt_size statements.old) + stmt_size s) }
{
    Ok(statements.add(s)?)
}

// A form of a statement for each member of a collection, or of two, one of which is chosen by the value of an
// expression.
#[cycle(statement)]
fn controlled(alloc: Global, word: &str, items: &Jsons, room: &mut u64) -> Result<ImpStmt, Odd>
    ensures { IfOk result (λ made. stmt_size made + room.new ≤ 1 + room.old) }
{
    match items.as_slice() {
        [_, x, e, a] if word == "for" => {
            let x = variable(x)?;
            let e = expression(alloc, e, room)?;
            Ok(ImpStmt::For(x, e, part(alloc, a, room)?))
        }
        [_, e, a, b] if word == "if" => {
            let e = expression(alloc, e, room)?;
            let a = part(alloc, a, room)?;
            let b = part(alloc, b, room)?;
            Ok(ImpStmt::If(e, a, b))
        }
        _ => Err(Odd::Form),
    }
}
