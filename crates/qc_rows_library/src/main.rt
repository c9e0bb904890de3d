//! The program that tries rows on the functions of the libraries.
#![tactic(auto)]

mod bytes;
mod faults;
mod runtime;
mod values;

use qc_rows::{Compared, Form, Odd, Rows, Texts};
use std::alloc::Global;
use std::process::ExitCode;

fn main(rt: HostRuntime) -> ExitCode {
    qc_rows::run(&rt, &Library)
}

/// Rows that call a function of a library.
struct Library;

impl Rows for Library {
    fn try_row(
        &self,
        alloc: Global,
        kind: &str,
        texts: &Texts,
        row: &mut Form,
    ) -> Result<Compared, Odd> {
        if kind != "library" {
            return Err(Odd::Form);
        }
        let came = came(alloc, texts, row)?;
        Compared::of(alloc, texts, row, came.as_str())
    }
}

// What the call that the row names gives.
fn came(alloc: Global, texts: &Texts, row: &mut Form) -> Result<String, Odd> {
    match row.word("call")? {
        "read_json" => bytes::tree(alloc, texts, row),
        "read_schema" => bytes::schema(alloc, texts, row),
        "read_input" => bytes::input(alloc, texts, row),
        "name" => bytes::a_name(alloc, texts, row),
        "like" => bytes::is_like(alloc, texts, row),
        "scan" => bytes::pieces(alloc, texts, row),
        "query" => bytes::query(alloc, texts, row),
        "fits" => values::fits(alloc, row),
        "subtype" => values::is_below(alloc, row),
        "join" => values::join_of(alloc, row),
        "classes" => values::are_good(alloc, row),
        "cmp" => values::order(alloc, row),
        "same" => values::are_same(alloc, row),
        "canon" => values::canon_of(alloc, row),
        "dec" => values::encodes(alloc, row),
        "fault_text" => faults::told(alloc, row),
        "rt" => runtime::applied(alloc, row),
        _ => Err(Odd::Form),
    }
}
