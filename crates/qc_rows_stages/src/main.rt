//! The program that tries rows on stages: a query is read, translated as far as a stage, and evaluated there.
#![tactic(auto)]

mod staged;

use qc_rows::{Compared, Form, Odd, Rows, Texts};
use std::alloc::Global;
use std::process::ExitCode;

fn main(rt: HostRuntime) -> ExitCode {
    qc_rows::run(&rt, &Stages)
}

/// Rows on stages.
struct Stages;

impl Rows for Stages {
    fn try_row(
        &self,
        alloc: Global,
        kind: &str,
        texts: &Texts,
        row: &mut Form,
    ) -> Result<Compared, Odd> {
        if kind != "stages" {
            return Err(Odd::Form);
        }
        staged::tried(alloc, texts, row)
    }
}
