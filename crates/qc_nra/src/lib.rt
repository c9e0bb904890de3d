//! The algebra, in which queries are rewritten: its trees, what they mean, their evaluator and their written form.
#![tactic(auto)]

mod counting;
mod evaluating;
mod language;
mod operands;
mod spelling;
mod tree;

pub use counting::nodes;
pub use evaluating::eval_at;
pub use spelling::spell;
pub use tree::Nra;
