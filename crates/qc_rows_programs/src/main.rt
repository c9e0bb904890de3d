//! The program that tries rows on programs of statements, on imperative programs and on scripts.
#![tactic(auto)]

mod imperative;
mod imperative_expression;
mod imperative_tree;
mod outcome;
mod scripts;
mod statement_expression;
mod statement_tree;
mod statements;

use qc_rows::{Compared, Form, Odd, Rows, Texts};
use std::alloc::Global;
use std::process::ExitCode;

fn main(rt: HostRuntime) -> ExitCode {
    qc_rows::run(&rt, &Programs)
}

/// Rows on programs.
struct Programs;

impl Rows for Programs {
    fn try_row(
        &self,
        alloc: Global,
        kind: &str,
        texts: &Texts,
        row: &mut Form,
    ) -> Result<Compared, Odd> {
        match kind {
            "statements" => statements::tried(alloc, texts, row),
            "imp" => imperative::tried(alloc, texts, row),
            "scripts" => scripts::tried(alloc, texts, row),
            _ => Err(Odd::Form),
        }
    }
}
