//! What source languages share from bytes to a typed query: tokens, faults, and that there is one query or one fault.
#![tactic(auto)]

mod fault;
mod tokens;

pub use fault::QueryFault;
pub use tokens::tokens_of;
