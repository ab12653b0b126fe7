//! What do the names of a specification stand for, and which name rule fails first?
//!
//! The definitions are in `specs/`. They speak of the items of a file and of a base, which is what is there already: nothing for a host,
//! and the resolved host for an extension. What tests the rules is in `wb_names_rules`.
#![tactic(auto)]

mod declaration;
mod refusal;
mod usage;

pub use declaration::{Declaration, Labelled, Site, Sort};
pub use refusal::NameRefusal;
pub use usage::{LabelWanted, Usage, Wanted};
