//! The outside of a program: shelves, which hold named texts, and sinks, which take bytes.
#![tactic(auto)]

mod asked;
mod calls;
mod device;
mod file;
mod shelf;
mod sink;
mod stream;

pub use device::{Failed, FetchFault, Shelf, Sink};
pub use file::FileShelf;
pub use shelf::MemShelf;
pub use sink::MemSink;
pub use stream::StdSink;
