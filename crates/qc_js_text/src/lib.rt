//! The text of programs: bytes to the one tree that they spell, or to why they spell none.
#![tactic(auto)]

mod acting;
mod actions;
mod depth;
mod fault;
mod laws;
mod making;
mod parsing;
mod reading;
mod stack;
mod table;
mod taking;
mod value;

pub use fault::JsFault;
pub use laws::{layout_is_read_back, one_program};
pub use reading::{MOST_BYTES, MOST_OPEN, read_js};
