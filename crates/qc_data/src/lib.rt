//! Values: data and JSON trees, their order, sameness and encoding; modes and outcomes.
#![tactic(auto)]

mod copying;
mod data;
mod decoding;
mod encoding;
mod facts;
mod halt;
mod operand;
mod order;
mod sameness;
mod taking;

pub use copying::{copy, copy_json};
pub use data::{Datum, Fields, Items, Json, Jsons, Members};
pub use decoding::dec;
pub use encoding::enc;
pub use facts::{held, one_to_one};
pub use halt::Halt;
pub use operand::Held;
pub use order::cmp;
pub use sameness::{canon, same};
pub use taking::into_datum;
