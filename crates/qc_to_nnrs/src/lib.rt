//! The pass from the calculus to programs of statements, which keeps values.
#![tactic(auto)]

mod calculus;
mod calculus_trees;
mod names;
mod steps;

pub use calculus::NnrcToNnrs;
