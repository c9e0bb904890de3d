//! Which programs of statements are well formed.
#![tactic(auto)]

mod fitting;

pub use fitting::well_formed;
