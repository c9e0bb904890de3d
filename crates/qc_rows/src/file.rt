// Files of rows, and the programs that try them.
use crate::compared::Compared;
use crate::form::{self, Form};
use crate::odd::Odd;
use crate::report::Report;
use crate::texts::Texts;
use qc_data::Json;
use qc_io::{FileShelf, Shelf, Sink, StdSink};
use qc_schema::read_json;
use std::alloc::Global;
use std::env;
use std::process::ExitCode;

/// The most bytes of a file of rows.
const MOST_BYTES: u64 = 16_777_216;

/// What a program does with a row.
pub trait Rows {
    /// Makes the call that a row of this kind names, and takes what it wants.
    fn try_row(
        &self,
        alloc: Global,
        kind: &str,
        texts: &Texts,
        row: &mut Form,
    ) -> Result<Compared, Odd>;
}

/// Tries the files that the program's words name, and tells of each. It succeeds where each row of each holds.
pub fn run<R: Rows>(rt: &HostRuntime, rows: &R) -> ExitCode {
    let mut shelf = FileShelf::new(rt);
    let mut out = StdSink::new(rt.stdout());
    match try_words(rt, rows, &mut shelf, &mut out) {
        Ok(true) => ExitCode::SUCCESS,
        _ => ExitCode::FAILURE,
    }
}

fn try_words<R: Rows, S: Shelf, O: Sink>(
    rt: &HostRuntime,
    rows: &R,
    shelf: &mut S,
    out: &mut O,
) -> Result<bool, Odd> {
    let Ok(words) = env::args(rt) else {
        return Err(Odd::Form);
    };
    let mut all = true;
    for word in words.skip(1) {
        let hold = try_named(rt.alloc(), rows, word.as_str(), shelf, out)?;
        all = all && hold;
    }
    Ok(all)
}

fn try_named<R: Rows, S: Shelf, O: Sink>(
    alloc: Global,
    rows: &R,
    name: &str,
    shelf: &mut S,
    out: &mut O,
) -> Result<bool, Odd> {
    let mut report = Report::new(out, name);
    let mut bytes = Vec::new(alloc);
    if shelf.fetch(name, MOST_BYTES, &mut bytes).is_err() {
        return report.unread();
    }
    let Ok(file) = read_json(alloc, &bytes) else {
        return report.unread();
    };
    try_file(alloc, rows, &file, &mut report)?;
    report.end(alloc)
}

fn try_file<R: Rows, O: Sink>(
    alloc: Global,
    rows: &R,
    file: &Json,
    report: &mut Report<O>,
) -> Result<(), Odd> {
    let mut form = Form::of(file)?;
    let kind = form.word("kind")?;
    let texts = Texts::of(alloc, form.maybe("texts"))?;
    let all = form::items(form.member("rows")?)?;
    form.end()?;
    for row in all {
        report.row(row, try_one(alloc, rows, kind, &texts, row))?;
    }
    Ok(())
}

fn try_one<R: Rows>(
    alloc: Global,
    rows: &R,
    kind: &str,
    texts: &Texts,
    row: &Json,
) -> Result<Compared, Odd> {
    let mut form = Form::of(row)?;
    let _name = form.word("row")?;
    let compared = rows.try_row(alloc, kind, texts, &mut form)?;
    form.end()?;
    Ok(compared)
}
