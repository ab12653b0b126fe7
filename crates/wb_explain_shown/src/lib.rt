//! What is shown of a text that has a tree: the tree by lines, or a picture of it, from the contents of files, or from the words of a command.
//!
//! The files are certified and composed once more, and the text is read once more. What is shown of a tree is in `wb_explain_trees`.
#![tactic(auto)]

mod contents;
mod files;
mod run;

pub use contents::{push_picture_in, push_tree_in};
pub use run::{picture_of_run, tree_of_run};
