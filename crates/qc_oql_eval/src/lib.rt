//! The evaluator of OQL queries in 64 bits.
#![tactic(auto)]

mod expression;
mod keeping;
mod operands;
mod operators;
mod ordering;
mod quantifying;
mod query;
mod record;
mod rows;
mod scope;
mod selecting;

pub use query::eval;
