//! The JavaScript of compiled queries: its trees, their rules, their meaning, and their one text.
#![tactic(auto)]

mod checked;
mod emitting;
mod facts;
mod rules;
mod scope;
mod token;
mod tree;

pub use checked::Js;
pub use emitting::emit;
pub use facts::held;
pub use rules::meets_rules;
pub use scope::Class;
pub use token::Token;
pub use tree::{Expr, Program, Stmt};
