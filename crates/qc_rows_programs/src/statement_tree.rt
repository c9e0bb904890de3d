// The program of statements that a row describes: arrays of a word, variables and parts.
ghost use Rattle.std.specs.Prelude.{◌+◌, ◌≤◌, IfOk};
ghost use Rattle.qc_nnrs.specs.Sizes.{size, stmt_size};

use crate::statement_expression::expression;
use qc_containers::Boxed;
use qc_data::{Json, Jsons};
use qc_nnrs::{Nnrs, NnrsStmt};
use qc_rows::{Odd, items, take_node, variable, word};
use std::alloc::Global;

/// The program that the array describes. It takes a node of the room for each node, so that it has no more of them.
pub fn program(alloc: Global, json: &Json, room: &mut u64) -> Result<Nnrs, Odd>
    ensures { IfOk result (λ made. size made + room.new ≤ room.old) }
{
    take_node(room)?;
    match items(json)? {
        [first, body, result] => {
            if word(first)? != "prog" {
                return Err(Odd::Form);
            }
            let result = variable(result)?;
            let body = statement(alloc, body, room)?;
            Ok(Nnrs { body, result })
        }
        _ => Err(Odd::Form),
    }
}

// The statement that the array describes.
#[cycle(statement)]
fn statement(alloc: Global, json: &Json, room: &mut u64) -> Result<NnrsStmt, Odd>
    ensures { IfOk result (λ made. stmt_size made + room.new ≤ room.old) }
{
    match json {
        Json::Array(items) => form(alloc, items, room),
        _ => Err(Odd::Form),
    }
}

#[cycle(statement)]
fn form(alloc: Global, items: &Jsons, room: &mut u64) -> Result<NnrsStmt, Odd>
    ensures { IfOk result (λ made. stmt_size made + room.new ≤ room.old) }
{
    match items.as_slice() {
        [] => Err(Odd::Form),
        [first, ..] => worded(alloc, word(first)?, items, room),
    }
}

// The form of the word that the items begin with.
#[cycle(statement)]
fn worded(alloc: Global, word: &str, items: &Jsons, room: &mut u64) -> Result<NnrsStmt, Odd>
    ensures { IfOk result (λ made. stmt_size made + room.new ≤ room.old) }
{
    take_node(room)?;
    match word {
        "set" | "push" => write(alloc, word, items.as_slice(), room),
        "let" | "for" => reader(alloc, word, items, room),
        "letmut" | "letcoll" => writer(alloc, word, items, room),
        "seq" => sequence(alloc, items, room),
        "if" | "either" => choice(alloc, word, items, room),
        _ => Err(Odd::Form),
    }
}

// A part of a statement that is one.
#[cycle(statement)]
fn part(alloc: Global, json: &Json, room: &mut u64) -> Result<Boxed<NnrsStmt>, Odd>
    ensures { IfOk result (λ made. stmt_size made + room.new ≤ room.old) }
{
    let made = statement(alloc, json, room)?;
    Ok(Boxed::of(alloc, made)?)
}

// A form that writes the value of an expression to a variable.
fn write(alloc: Global, word: &str, items: &[Json], room: &mut u64) -> Result<NnrsStmt, Odd>
    ensures { IfOk result (λ made. stmt_size made + room.new ≤ 1 + room.old) }
{
    match items {
        [_, x, e] => {
            let x = variable(x)?;
            let e = expression(alloc, e, room)?;
            if word == "set" {
                Ok(NnrsStmt::Set(x, e))
            } else {
                Ok(NnrsStmt::Push(x, e))
            }
        }
        _ => Err(Odd::Form),
    }
}

// A form that binds a variable which is read to an expression, or to its members.
#[cycle(statement)]
fn reader(alloc: Global, word: &str, items: &Jsons, room: &mut u64) -> Result<NnrsStmt, Odd>
    ensures { IfOk result (λ made. stmt_size made + room.new ≤ 1 + room.old) }
{
    match items.as_slice() {
        [_, x, e, b] => {
            let x = variable(x)?;
            let e = expression(alloc, e, room)?;
            let b = part(alloc, b, room)?;
            if word == "let" {
                Ok(NnrsStmt::Let(x, e, b))
            } else {
                Ok(NnrsStmt::For(x, e, b))
            }
        }
        _ => Err(Odd::Form),
    }
}

// Two statements in order.
#[cycle(statement)]
fn sequence(alloc: Global, items: &Jsons, room: &mut u64) -> Result<NnrsStmt, Odd>
    ensures { IfOk result (λ made. stmt_size made + room.new ≤ 1 + room.old) }
{
    match items.as_slice() {
        [_, a, b] => {
            let a = part(alloc, a, room)?;
            let b = part(alloc, b, room)?;
            Ok(NnrsStmt::Seq(a, b))
        }
        _ => Err(Odd::Form),
    }
}

// A form that binds a variable which its first statement writes to.
#[cycle(statement)]
fn writer(alloc: Global, word: &str, items: &Jsons, room: &mut u64) -> Result<NnrsStmt, Odd>
    ensures { IfOk result (λ made. stmt_size made + room.new ≤ 1 + room.old) }
{
    match items.as_slice() {
        [_, x, a, b] => {
            let x = variable(x)?;
            let a = part(alloc, a, room)?;
            let b = part(alloc, b, room)?;
            if word == "letmut" {
                Ok(NnrsStmt::LetMut(x, a, b))
            } else {
                Ok(NnrsStmt::LetColl(x, a, b))
            }
        }
        _ => Err(Odd::Form),
    }
}

// A form of two statements, one of which is chosen by the value of an expression.
#[cycle(statement)]
fn choice(alloc: Global, word: &str, items: &Jsons, room: &mut u64) -> Result<NnrsStmt, Odd>
    ensures { IfOk result (λ made. stmt_size made + room.new ≤ 1 + room.old) }
{
    match items.as_slice() {
        [_, e, a, b] if word == "if" => {
            let e = expression(alloc, e, room)?;
            let a = part(alloc, a, room)?;
            let b = part(alloc, b, room)?;
            Ok(NnrsStmt::If(e, a, b))
        }
        [_, e, x, a, y, b] if word == "either" => {
            let (x, y) = (variable(x)?, variable(y)?);
            let e = expression(alloc, e, room)?;
            let a = part(alloc, a, room)?;
            let b = part(alloc, b, room)?;
            Ok(NnrsStmt::Either(e, x, a, y, b))
        }
        _ => Err(Odd::Form),
    }
}
