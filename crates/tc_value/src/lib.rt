//! Layer 1, base: documents and their shapes.
#![tactic(auto)]

mod document;
mod limits;
mod names;
mod shape_tree;
mod text;

pub use document::{Doc, Items, Member, Members};
pub use limits::MAX_DEPTH;
pub use names::{Kind, Step};
pub use shape_tree::{Shape, ShapeItems, ShapeMember, ShapeMembers};
pub use text::Text;
