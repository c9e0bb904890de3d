//! Exact parsing: a grammar as a table that one interpreter reads, the one tree or the exact place of the fault.
#![tactic(auto)]

mod fault;
mod machine;
mod stack;
mod symbol;
mod table;

pub use fault::SyntaxFault;
pub use machine::read;
pub use stack::Stack;
pub use symbol::{Event, Symbol};
pub use table::Table;
