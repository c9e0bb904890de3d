//! Which imperative programs are well formed.
#![tactic(auto)]

mod fitting;
mod scope;

pub use fitting::well_formed;
