//! The program that tries rows on operators, their values and their types, and on trees of the languages between.
#![tactic(auto)]

mod algebra;
mod algebra_tree;
mod bindings;
mod calculus;
mod calculus_tree;

use qc_data::{Datum, Halt, Json, enc};
use qc_ops::{Binary, Unary, apply1, apply2};
use qc_rows::{
    Compared, Form, Odd, Rows, Texts, binary, datum, fault_text, good_classes, items, pair,
    parameters, tree_text, ty, type_or_none, unary,
};
use qc_types::Classes;
use qc_typing::{type1, type2};
use std::alloc::Global;
use std::process::ExitCode;

fn main(rt: HostRuntime) -> ExitCode {
    qc_rows::run(&rt, &Operators)
}

/// Rows on operators.
struct Operators;

impl Rows for Operators {
    fn try_row(
        &self,
        alloc: Global,
        kind: &str,
        texts: &Texts,
        row: &mut Form,
    ) -> Result<Compared, Odd> {
        let came = match kind {
            "operators" => value(alloc, row)?,
            "types" => type_of(alloc, row)?,
            "algebra" => return algebra::tried(alloc, texts, row),
            "calculus" => return calculus::tried(alloc, texts, row),
            _ => return Err(Odd::Form),
        };
        Compared::of(alloc, texts, row, came.as_str())
    }
}

// What the row's operator gives on its operands.
fn value(alloc: Global, row: &mut Form) -> Result<String, Odd> {
    let word = row.word("op")?;
    let operands = row.member("operands")?;
    let classes = good_classes(alloc, row)?;
    match binary(word) {
        Some(operator) => value_of_two(alloc, &operator, operands),
        None => value_of_one(alloc, &classes, &unary_of(alloc, word, row)?, operands),
    }
}

fn value_of_one(
    alloc: Global,
    classes: &Classes,
    operator: &Unary,
    operands: &Json,
) -> Result<String, Odd> {
    let a = datum(alloc, one(operands)?)?;
    outcome_text(alloc, apply1(alloc, classes, operator, &a))
}

fn value_of_two(alloc: Global, operator: &Binary, operands: &Json) -> Result<String, Odd> {
    let (a, b) = pair(operands)?;
    let a = datum(alloc, a)?;
    let b = datum(alloc, b)?;
    outcome_text(alloc, apply2(alloc, operator, &a, &b))
}

fn outcome_text(alloc: Global, outcome: Result<Datum, Halt>) -> Result<String, Odd> {
    match outcome {
        Ok(value) => tree_text(alloc, &enc(alloc, &value)?),
        Err(Halt::Range) => fault_text(alloc, "Range"),
        Err(Halt::Stuck) => fault_text(alloc, "Stuck"),
        Err(Halt::Memory) => Err(Odd::Memory),
    }
}

// The type that the row's operator gives on operands of its types.
fn type_of(alloc: Global, row: &mut Form) -> Result<String, Odd> {
    let word = row.word("op")?;
    let operands = row.member("operands")?;
    let classes = good_classes(alloc, row)?;
    match binary(word) {
        Some(operator) => type_of_two(alloc, &classes, &operator, operands),
        None => type_of_one(alloc, &classes, &unary_of(alloc, word, row)?, operands),
    }
}

fn type_of_one(
    alloc: Global,
    classes: &Classes,
    operator: &Unary,
    operands: &Json,
) -> Result<String, Odd> {
    let a = ty(alloc, one(operands)?)?;
    type_or_none(alloc, type1(alloc, classes, operator, &a)?)
}

fn type_of_two(
    alloc: Global,
    classes: &Classes,
    operator: &Binary,
    operands: &Json,
) -> Result<String, Odd> {
    let (a, b) = pair(operands)?;
    let a = ty(alloc, a)?;
    let b = ty(alloc, b)?;
    type_or_none(alloc, type2(alloc, classes, operator, &a, &b)?)
}

// The operator on one value that the row names, with its parameters.
fn unary_of(alloc: Global, word: &str, row: &mut Form) -> Result<Unary, Odd> {
    let mut taken = Vec::new(alloc);
    for name in parameters(word) {
        taken.push(row.member(name)?)?;
    }
    unary(alloc, word, &taken)
}

fn one(operands: &Json) -> Result<&Json, Odd> {
    match items(operands)? {
        [a] => Ok(a),
        _ => Err(Odd::Form),
    }
}
