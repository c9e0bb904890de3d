//! The passes from source languages to the algebra.
#![tactic(auto)]

mod key_names;
mod oql;
mod oql_expressions;
mod oql_forms;
mod oql_queries;
mod scope;
mod spelled_names;

pub use oql::OqlToNra;
