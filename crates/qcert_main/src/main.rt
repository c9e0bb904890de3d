//! The query compiler as a program: the words of its command line, the files of the system and the standard streams.
#![tactic(auto)]

use qc_io::{FileShelf, StdSink};
use qc_work::Refusal;
use std::env;
use std::io::{self, ErrorKind};
use std::process::ExitCode;
use std::rc::RcStr;

fn main(rt: HostRuntime) -> ExitCode {
    let words = match words(&rt) {
        Ok(words) => words,
        // Words that are not all text are no job, and neither are none.
        Err(error) if error.kind() == ErrorKind::InvalidData => Vec::new(rt.alloc()),
        Err(_) => return ExitCode::from(Refusal::Memory.status()),
    };
    let mut shelf = FileShelf::new(&rt);
    let mut out = StdSink::new(rt.stdout());
    let mut err = StdSink::new(rt.stderr());
    ExitCode::from(qcert::run(rt.alloc(), &words, &mut shelf, &mut out, &mut err))
}

fn words(rt: &HostRuntime) -> io::Result<Vec<RcStr>> {
    let mut words = Vec::new(rt.alloc());
    for word in env::args(rt)? {
        words.push(RcStr::from_string(word)?)?;
    }
    Ok(words)
}
