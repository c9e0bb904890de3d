//! The way of queries through the compiler: words of a path, stages, the edges between them, and whole routes.
#![tactic(auto)]

mod advancing;
mod edge;
mod path;
mod routing;
mod stage;
mod word;

pub use advancing::advance;
pub use edge::Edge;
pub use path::{NoPath, Path, path_of};
pub use routing::route;
pub use stage::Stage;
pub use word::Word;
