//! Statements over read-only, assignable and collecting variables: trees, what they mean, their evaluator and written
//! form.
#![tactic(auto)]

mod counting;
mod expression_texts;
mod expressions;
mod language;
mod running;
mod spelling;
mod tree;

pub use counting::nodes;
pub use spelling::spell;
pub use tree::{Nnrs, NnrsExpr, NnrsStmt};
