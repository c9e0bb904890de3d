//! OQL queries in the tokens of a file: read and checked in a schema, or the first fault and its place.
#![tactic(auto)]

mod language;
mod reading;

pub use reading::{TypedQuery, read};
