//! The functions that programs call: their table, and what they give on JSON trees.
#![tactic(auto)]

mod function;

pub use function::Rt;
