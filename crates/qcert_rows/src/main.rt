//! The program that tries rows on the whole compiler: calls of `run`, and what each leaves behind.
#![tactic(auto)]

mod ended;
mod steps;
mod words;

use crate::ended::Ended;
use crate::steps::Steps;
use crate::words::add_words;
use qc_containers::Chars;
use qc_data::{Json, Jsons};
use qc_io::{MemShelf, MemSink};
use qc_rows::{Compared, Form, Odd, Rows, Texts, count, items, members, tree_text};
use std::alloc::Global;
use std::process::ExitCode;

/// The bytes that an output has room for, where the row doesn't say.
const ROOM: u64 = 1_048_576;

/// The bytes that the output of faults has room for, where the row doesn't say.
const ERR_ROOM: u64 = 65_536;

/// The most bytes that an output has room for.
const MOST_ROOM: u64 = 16_777_216;

fn main(rt: HostRuntime) -> ExitCode {
    qc_rows::run(&rt, &Calls)
}

/// Rows that call the whole compiler.
struct Calls;

impl Rows for Calls {
    fn try_row(
        &self,
        alloc: Global,
        kind: &str,
        texts: &Texts,
        row: &mut Form,
    ) -> Result<Compared, Odd> {
        if kind != "calls" {
            return Err(Odd::Form);
        }
        let mut shelf = MemShelf::new(alloc);
        let mut words = Vec::new(alloc);
        let steps = add_words(alloc, texts, row, &mut words, &mut shelf)?;
        add_files(alloc, texts, row, &mut shelf)?;
        let mut out = sink(alloc, row, "room", ROOM, "put_fails")?;
        let mut err = sink(alloc, row, "err_room", ERR_ROOM, "err_fails")?;
        let wanted = Ended::wanted(alloc, texts, row)?;
        let status = qcert::run(alloc, &words, &mut shelf, &mut out, &mut err);
        let came = Ended {
            status,
            out: Vec::from_slice(alloc, out.written())?,
            err: Vec::from_slice(alloc, err.written())?,
            asked: match wanted.asked {
                Some(_) => Some(names_asked(alloc, &shelf)?),
                None => None,
            },
        };
        let mut compared = Compared {
            wanted: wanted.bytes(alloc)?,
            came: came.bytes(alloc)?,
        };
        if let Some(steps) = steps {
            if wanted.is_outcome() {
                add_steps(alloc, &steps, &mut shelf, &wanted, &mut compared)?;
            }
        }
        Ok(compared)
    }
}

// Adds what both steps leave behind, which is to be the same.
fn add_steps(
    alloc: Global,
    steps: &Steps,
    shelf: &mut MemShelf,
    wanted: &Ended,
    compared: &mut Compared,
) -> Result<(), Odd> {
    let came = steps.take(alloc, shelf)?;
    compared.wanted.extend_from_slice(&wanted.bytes(alloc)?)?;
    compared.came.extend_from_slice(&came.bytes(alloc)?)?;
    Ok(())
}

// Adds the files that the row lists, and says which fetches fail.
fn add_files(
    alloc: Global,
    texts: &Texts,
    row: &mut Form,
    shelf: &mut MemShelf,
) -> Result<(), Odd> {
    if let Some(files) = row.maybe("files") {
        for file in members(files)? {
            let bytes = texts.bytes(alloc, &file.1)?;
            shelf.add(file.0.as_str(), &bytes)?;
        }
    }
    if let Some(failing) = row.maybe("fetch_fails") {
        for call in items(failing)? {
            shelf.fail_at(count(call)?)?;
        }
    }
    Ok(())
}

// An output with the room that the row gives it, and the puts that fail there.
fn sink(
    alloc: Global,
    row: &mut Form,
    room: &str,
    usual: u64,
    fails: &str,
) -> Result<MemSink, Odd> {
    let room = match row.maybe(room) {
        Some(json) => count(json)?,
        None => usual,
    };
    if room > MOST_ROOM {
        return Err(Odd::Form);
    }
    let mut sink = MemSink::new(alloc, room as usize)?;
    if let Some(failing) = row.maybe(fails) {
        for call in items(failing)? {
            sink.fail_at(count(call)?)?;
        }
    }
    Ok(sink)
}

// The names that the shelf was asked for, in order.
fn names_asked(alloc: Global, shelf: &MemShelf) -> Result<String, Odd> {
    let Some(names) = shelf.asked() else {
        return Err(Odd::Memory);
    };
    let mut asked = Jsons::new(alloc);
    for name in names {
        asked.add(Json::Text(Chars::of(alloc, name.as_str())?))?;
    }
    tree_text(alloc, &Json::Array(asked))
}
