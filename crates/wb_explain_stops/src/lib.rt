//! What is said of a text that stops: what could come there, by the names and expressions of the language's files, and what is there instead.
//!
//! Where it stops and what could come is found by `wb_parser_expected`. How files are read, and what makes a language of them, is elsewhere.
#![tactic(auto)]

mod before;
mod entry;
mod prefix;
mod stop;
mod there;
mod writing;
mod written;

pub use stop::push_stop;
