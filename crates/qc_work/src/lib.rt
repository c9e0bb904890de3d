//! What is done with the texts of a job: schemas, queries, scripts and inputs are read, and then they are served.
#![tactic(auto)]

mod actions;
mod reading;
mod refusal;
mod sources;

pub use actions::{Text, answer_line, program_text, result_line, type_line};
pub use reading::{input_in, query_in, schema_in, script_in, tokens_in, tree_in};
pub use refusal::{File, Refusal};
pub use sources::{Checked, Query, Source};
