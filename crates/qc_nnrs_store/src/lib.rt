//! The variables of programs of statements while they run: what may be done with each, and what is written to it.
#![tactic(auto)]

mod chain;
mod writing;

pub use chain::{Chain, is_pushed, is_read, is_set, value_in};
pub use writing::{Writes, push_to, set_to, take_all, take_last};
