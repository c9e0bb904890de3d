//! Languages, whose trees have an outcome in each mode and world, and the passes between them, which keep values.
#![tactic(auto)]

mod compose;
mod language;
mod pair;
mod passing;

pub use compose::after;
pub use language::Lang;
pub use pair::After;
pub use passing::Pass;
