//! The types of trees of the algebra, and the proof that they are right.
#![tactic(auto)]

mod inferring;
mod parts;

pub use inferring::{Context, infer};
