//! The pass from statements to programs over variables that are declared in blocks, which keeps values.
#![tactic(auto)]

mod building;
mod expression_trees;
mod numbering;
mod statement_trees;
mod statements;

pub use statements::NnrsToImp;
