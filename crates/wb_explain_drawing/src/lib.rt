//! What is shown of a tree: its nodes and leaves in their order, each with its depth; places of a text as lines and columns; and a picture.
//!
//! The tree is one of a store of `wb_values`. Which tree that is, and where its leaves lie, is found above.
#![tactic(auto)]

mod cursor;
mod items;
mod layout;
mod levels;
mod strings;
mod svg;
mod walk;
mod writing;

pub use cursor::Cursor;
pub use items::{Item, Listing, Part};
pub use layout::Layout;
pub use levels::levels_of;
pub use strings::{push_cut_string, push_cut_xml, push_xml};
pub use svg::{Look, Place, push_blank, push_box, push_edges, push_head};
pub use walk::listing_of;
pub use writing::{push_number, push_text};
