//! The runtime of programs: its functions computed on JSON trees.
#![tactic(auto)]

mod aggregates;
mod applying;
mod arrays;
mod columns;
mod grouping;
mod numbers;
mod objects;
mod sameness;
mod sides;
mod sorting;
mod texts;
mod truths;

pub use applying::{apply, apply_rt};
