// What reading a script gives, and what the calls on its program give.
use crate::outcome::judged;
use qc_io::MemSink;
use qc_js::{Js, emit};
use qc_js_run::exec;
use qc_js_text::{JsFault, read_js};
use qc_rows::{Answers, Compared, Form, Odd, Texts, fault_text, spelled, tree_outcome};
use std::alloc::Global;

/// The most bytes that a layout has.
const ROOM: usize = 1_048_576;

/// The row's script, which is read, and of whose program each call that the row names is made.
pub fn tried(alloc: Global, texts: &Texts, row: &mut Form) -> Result<Compared, Odd> {
    let bytes = texts.bytes(alloc, row.member("script")?)?;
    match read_js(alloc, &bytes) {
        Ok(js) => answered(alloc, row, &js),
        Err(fault) => {
            let told = told(alloc, fault)?;
            Compared::of(alloc, texts, row, told.as_str())
        }
    }
}

// The fault, with its place.
fn told(alloc: Global, fault: JsFault) -> Result<String, Odd> {
    match fault {
        JsFault::TooLong => fault_text(alloc, "TooLong"),
        JsFault::BadScan { at } => Ok(format!(in alloc; "fault BadScan at byte {at}")?),
        JsFault::BadJs => fault_text(alloc, "BadJs"),
        JsFault::Memory => Err(Odd::Memory),
    }
}

// What the row wants of the calls, and what they give.
fn answered(alloc: Global, row: &mut Form, js: &Js) -> Result<Compared, Odd> {
    let mut answers = Answers::of(alloc, row)?;
    judged(alloc, &mut answers, true)?;
    laid_out(alloc, js, &mut answers)?;
    executed(alloc, row, js, &mut answers)?;
    answers.compared(alloc)
}

// Adds the text of the program, where the row asks for it.
fn laid_out(alloc: Global, js: &Js, answers: &mut Answers) -> Result<(), Odd> {
    if !answers.asks("layout") {
        return Ok(());
    }
    let mut out = MemSink::new(alloc, ROOM)?;
    if emit(js, &mut out).is_err() {
        return Err(Odd::Form);
    }
    match str::from_utf8(out.written()) {
        Ok(text) => spelled(alloc, answers, "layout", text),
        Err(_) => Err(Odd::Form),
    }
}

// Adds what the program answers on the row's input, where the row asks for it.
fn executed(alloc: Global, row: &mut Form, js: &Js, answers: &mut Answers) -> Result<(), Odd> {
    if !answers.asks("exec") {
        return Ok(());
    }
    let outcome = exec(alloc, js, row.member("input")?);
    answers.add(alloc, "exec", tree_outcome(alloc, outcome)?)
}
