//! The passes between the languages that lie between the algebra and programs, which keep values.
#![tactic(auto)]

mod algebra;
mod algebra_trees;

pub use algebra::NraToNnrc;
