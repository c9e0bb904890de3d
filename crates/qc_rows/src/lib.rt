//! Rows of data files: what a row says, what it wants beside what came, and what is told of a file; the operators that
//! rows of all programs describe, and what trees of all languages share.
#![tactic(auto)]

mod answers;
mod calls;
mod compared;
mod file;
mod form;
mod odd;
mod operator;
mod parts;
mod report;
mod texts;
mod values;
mod variables;
mod worlds;

pub use answers::{Answers, outcome_tree, tree_outcome, type_tree, word_tree};
pub use calls::{counted, spelled};
pub use compared::{Compared, fault_text, tree_text, truth_text, type_or_none};
pub use file::{Rows, run};
pub use form::{Form, count, integer, items, members, pair, truth, word};
pub use odd::Odd;
pub use operator::{binary, named, parameters, unary};
pub use parts::{MOST_NODES, operator_of, take_node};
pub use texts::Texts;
pub use values::{classes, datum, good_classes, name, ty};
pub use variables::{numbered, variable};
pub use worlds::{datum_or_none, schema, world};
