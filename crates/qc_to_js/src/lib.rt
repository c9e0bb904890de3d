//! The pass from programs over data to programs on JSON, which answer the encodings of what those answer.
#![tactic(auto)]

mod data;
mod expressions;
mod functions;
mod parameters;
mod programs;
mod statements;

pub use programs::to_js;
