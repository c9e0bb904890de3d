//! The text of OQL: the tokens of a scan to the one tree that they spell, or to the place of the fault.
#![tactic(auto)]

mod actions;
mod lists;
mod reader;
mod stack;
mod tokens;
mod trees;

pub use reader::parse;
