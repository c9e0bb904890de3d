//! The variables that are free in trees of the calculus.
#![tactic(auto)]

mod variables;

pub use variables::free_in;
