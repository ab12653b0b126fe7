//! Where is a place of a text, for someone who reads the text: in which line, in which column, and what is there? And where
//! is a name in it?
//!
//! A place counts bytes from 0. What is shown is defined over bytes, so that a caret is under the place whatever the text has. Which place
//! a report has, and of which file, is no matter of this crate.
#![tactic(auto)]

mod characters;
mod line;
mod place;
mod source;
mod uses;
mod window;

pub use place::push_place;
pub use source::Source;
pub use uses::next_use;
