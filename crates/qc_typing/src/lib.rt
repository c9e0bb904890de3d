//! The types that operators give, by the types of their operands.
#![tactic(auto)]

mod bags;
mod binary;
mod classes;
mod fault;
mod fields;
mod kinds;
mod records;
mod rows;
mod unary;

pub use binary::type2;
pub use fault::TypeFault;
pub use kinds::{bound_by, coll_of, either_of, is_atom, sides_of};
pub use unary::type1;
