//! What trees of the languages between sources and programs share: operands by their kind, the types of constants and
//! of parts, and the texts of operators.
#![tactic(auto)]

mod constants;
mod leaf_texts;
mod operands;
mod operator_texts;
mod parts;
mod untyped;
mod variable_texts;

pub use constants::constant_type;
pub use leaf_texts::{open_unary, push_constant, push_global};
pub use operands::{bool_of, field_of, global_of, items_of};
pub use operator_texts::{binary_word, push, push_json, push_name, push_unary};
pub use parts::{branches, global_type, member_of};
pub use untyped::{NoType, known};
pub use variable_texts::{push_bound, push_variable};
