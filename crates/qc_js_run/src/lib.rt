//! Programs run: what they answer on the JSON of a world, and programs as a language.
#![tactic(auto)]

mod evaluating;
mod expressions;
mod language;
mod slots;
mod store;

pub use evaluating::exec;
pub use language::Script;
