// A query's answer in two steps: its program is written, and then executed.
use crate::ended::Ended;
use crate::words::push;
use qc_io::{MemShelf, MemSink};
use qc_rows::Odd;
use std::alloc::Global;
use std::rc::RcStr;

/// The bytes that each output has room for.
const ROOM: usize = 1_048_576;

/// The words of both steps. The script that the second reads is what the first wrote.
#[derive(Drop)]
pub struct Steps {
    compile: Vec<RcStr>,
    exec: Vec<RcStr>,
}

impl Steps {
    /// The words without files.
    pub fn new(alloc: Global) -> Result<Steps, Odd> {
        let mut compile = Vec::new(alloc);
        push(
            alloc,
            &mut compile,
            &["qcert", "compile", "--source", "oql"],
        )?;
        let mut exec = Vec::new(alloc);
        push(alloc, &mut exec, &["qcert", "exec", "--script", "script"])?;
        Ok(Steps { compile, exec })
    }

    /// The words of the step that reads the file.
    pub fn with(&mut self, file: &str) -> &mut Vec<RcStr> {
        if file == "input" {
            &mut self.exec
        } else {
            &mut self.compile
        }
    }

    /// What the second step leaves behind, or the first where it is refused.
    pub fn take(&self, alloc: Global, shelf: &mut MemShelf) -> Result<Ended, Odd> {
        let first = ended(alloc, &self.compile, shelf)?;
        if first.status != 0 {
            return Ok(first);
        }
        shelf.add("script", &first.out)?;
        ended(alloc, &self.exec, shelf)
    }
}

// What a call with these words leaves behind.
fn ended(alloc: Global, words: &[RcStr], shelf: &mut MemShelf) -> Result<Ended, Odd> {
    let mut out = MemSink::new(alloc, ROOM)?;
    let mut err = MemSink::new(alloc, ROOM)?;
    let status = qcert::run(alloc, words, shelf, &mut out, &mut err);
    Ok(Ended {
        status,
        out: Vec::from_slice(alloc, out.written())?,
        err: Vec::from_slice(alloc, err.written())?,
        asked: None,
    })
}
