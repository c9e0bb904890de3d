//! Sameness of data; data as keys of hash maps by it, tallies of them, and data gathered at them.
#![tactic(auto)]

mod feeding;
mod gathering;
mod key;
mod plain;
mod sameness;
mod tally;

pub use gathering::Gathering;
pub use key::Key;
pub use sameness::{has_same, is_same};
pub use tally::Tally;
