//! The operators of queries: 25 on one value and 17 on two, with their values in 64 bits.
#![tactic(auto)]

mod aggregates;
mod apply;
mod bags;
mod columns;
mod copying;
mod divisor;
mod grouping;
mod joining;
mod numbers;
mod op;
mod operands;
mod records;
mod sides;
mod sorting;
mod texts;
mod truths;

pub use apply::{apply1, apply2, apply2_taking};
pub use divisor::Divisor;
pub use op::{Binary, Keys, Names, Unary};
