//! Types of data, classes, schemas and worlds: subtyping, what fits a type, and joins.
#![tactic(auto)]

mod classes;
mod compare;
mod conforming;
mod faults;
mod goodness;
mod index;
mod joining;
mod naming;
mod rows;
mod schema;
mod ty;
mod world;

pub use classes::Classes;
pub use compare::subtype;
pub use conforming::conforms;
pub use faults::{ClassFault, TypeFault, WorldFault};
pub use joining::join;
pub use schema::Schema;
pub use ty::{ClassDef, Row, Ty, Width, copy_row, copy_ty};
pub use world::World;
