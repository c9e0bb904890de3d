//! The types of OQL queries in a schema, and the places of their faults.
#![tactic(auto)]

mod expression;
mod faults;
mod operators;
mod parts;
mod query;
mod record;
mod scope;

pub use query::check;
