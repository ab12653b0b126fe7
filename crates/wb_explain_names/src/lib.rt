//! What is said of a name for which a specification is refused: what is there, what was wanted, and what mends it.
//!
//! Each code is a search in the table of the names of a file, which is in `wb_explain_names_roles`. What is said is put together first, and
//! shown afterwards. A place is shown only where one of the file's tokens is the name.
#![tactic(auto)]

mod host_name;
mod hosts;
mod kinds;
mod marked;
mod operations;
mod say;
mod show;
mod twice;
mod unknown;

pub use say::push_names;
