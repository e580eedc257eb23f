//! A JSON text as flat lists: a node takes 16 bytes, and the items of a list stand side by side.
#![tactic(auto)]

mod fault;
mod find;
mod line;
mod node;
mod number;
mod parse;
mod parts;
mod read;
mod store;
mod tree;

pub use fault::JsonFault;
pub use line::write_line;
pub use node::Node;
pub use parse::parse_tree;
pub use tree::Tree;
