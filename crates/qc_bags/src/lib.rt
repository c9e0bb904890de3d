//! Members of lists by how many copies of them there are.
#![tactic(auto)]

mod copies;

pub use copies::{Keep, flags, kept};
