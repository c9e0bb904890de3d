//! The types of trees of the calculus, and the proof that they are right.
#![tactic(auto)]

mod inferring;

pub use inferring::infer;
