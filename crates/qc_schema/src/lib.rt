//! JSON in and out: trees, schema files, inputs and the texts of types.
#![tactic(auto)]

mod describing;
mod encoded;
mod faults;
mod input;
mod reading;
mod schema;
mod sound;
mod texts;
mod typing;
mod writing;

pub use describing::type_text;
pub use encoded::datum_text;
pub use faults::{InputFault, SchemaFault};
pub use input::read_input;
pub use reading::read_json;
pub use schema::read_schema;
pub use writing::{json_text, tree_text};
