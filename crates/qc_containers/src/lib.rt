//! Containers that trees are made of: texts, names, boxes, lists and maps by names, most of which their copies share.
#![tactic(auto)]

mod boxed;
mod compared;
mod list;
mod memory;
mod name;
mod name_map;
mod share;
mod shared_list;
mod text;
mod text_map;

pub use boxed::Boxed;
pub use list::List;
pub use memory::Memory;
pub use name::{Name, NameFault, is_name};
pub use name_map::NameMap;
pub use share::Share;
pub use shared_list::SharedList;
pub use text::Chars;
pub use text_map::TextMap;
