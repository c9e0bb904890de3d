//! Texts against patterns, in which `%` is any run of characters and `_` any one.
#![tactic(auto)]

mod pattern;

pub use pattern::like;
