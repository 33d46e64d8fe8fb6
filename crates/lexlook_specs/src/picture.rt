//! The picture of an automaton, in the language DOT of Graphviz.

mod adding;
mod classes;
mod edges;
mod error;
mod nodes;
mod writing;

pub use adding::{add, add_number, add_string};
pub use error::PictureError;
pub use writing::write_picture;
