//! The scanner of the source languages: bytes to the tokens that they are, by the table of each language.
#![tactic(auto)]

mod class;
mod digits;
mod fault;
mod front;
mod quotes;
mod scanning;
mod token;
mod words;

pub use fault::ScanFault;
pub use scanning::scan;
pub use token::{Kind, Table, Token};
pub use words::Words;
