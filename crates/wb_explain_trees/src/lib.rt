//! The tree of a text for someone who reads it: by lines, each with its place, or as a picture.
//!
//! The text is read once more, with the places of its leaves. What is listed of a tree, and how a picture is written, is in
//! `wb_explain_drawing`.
#![tactic(auto)]

mod element;
mod label;
mod lines;
mod picture;

pub use lines::push_tree;
pub use picture::push_picture;
