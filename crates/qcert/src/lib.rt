//! The query compiler: from the words of a command line and the bytes of a query to the bytes of a JavaScript program.
#![tactic(auto)]

mod job;
mod program;
mod serving;
mod stages;
mod telling;

pub use program::run;
