//! The tokens of program texts: bytes to lexemes, or the first byte at which none begins.
#![tactic(auto)]

mod lexeme;
mod scanning;
mod step;
mod words;

pub use lexeme::Lexeme;
pub use scanning::{Scan, lexemes_of};
