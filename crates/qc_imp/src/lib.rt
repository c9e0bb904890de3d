//! Programs of statements over variables that are declared in blocks: their trees, what they mean, which of them are
//! well formed, and their written form.
#![tactic(auto)]

mod counting;
mod evaluating;
mod expression_texts;
mod expressions;
mod language;
mod slots;
mod spelling;
mod store;
mod tree;

pub use counting::nodes;
pub use spelling::spell;
pub use tree::{Imp, ImpExpr, ImpStmt};
