//! The table of OQL, and what its actions mean: the tokens of a scan to the actions that make the one tree which they
//! spell, or to the place of the fault.
#![tactic(auto)]

pub mod actions;
mod reading;
mod table;
mod value;

pub use reading::derivation;
pub use value::{Mark, Value, Word};
