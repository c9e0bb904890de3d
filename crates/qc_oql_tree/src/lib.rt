//! The trees of OQL, and in specs/ all that a reader must believe of the language: grammar, meaning and types.
#![tactic(auto)]

pub mod kinds;
mod lexeme;
pub mod making;
pub mod operators;
mod pairing;
mod tree;
mod words;

pub use lexeme::Lexeme;
pub use pairing::{Pairing, branding, division, on_one, pairing_of};
pub use tree::{
    Binary, Branding, Constant, Direction, Division, Filter, Key, Named, Oql, Order, Quantifier,
    Query, Select, Unary,
};
