//! The calculus, in which programs bind variables: its trees, what they mean, their evaluator and their written form.
#![tactic(auto)]

mod bindings;
mod chain;
mod counting;
mod evaluating;
mod language;
mod spelling;
mod tree;

pub use bindings::{Bindings, Frame, Scope};
pub use chain::{Chain, binding};
pub use counting::nodes;
pub use evaluating::eval_at;
pub use spelling::spell;
pub use tree::{Nnrc, Var};
