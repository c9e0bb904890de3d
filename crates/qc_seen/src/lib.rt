//! What operators see in JSON trees: kinds, parameters, sameness, and trees gathered at keys.
#![tactic(auto)]

mod arguments;
mod gathering;
mod kinds;
mod markers;
mod same;
mod twins;

pub use arguments::{divisor_of, keys_of, name_of, names_of, the_only, the_three, the_two};
pub use gathering::Gathering;
pub use kinds::{bool_of, fields_of, int_of, items_of, made, optional, single, text_of};
pub use same::{has_same, is_same, kept};
pub use twins::marks;
