//! The rules of an extension on its markers: which productions they begin, and that they can be told apart from what else is scanned.
//!
//! Nothing here asks for tables of a grammar. A marker is a terminal of an extension; the production that it begins is its bridge, by which
//! one comes from a nonterminal of the host into the extension.
#![tactic(auto)]

mod bridges;
mod clashes;
mod compared;
mod laws;
mod marks;
mod places;
mod refusal;
mod scope;
mod texts;

pub use bridges::check_bridges;
pub use clashes::check_clashes;
pub use laws::{mark_refusals_law, marked_law};
pub use marks::check_marks;
pub use refusal::MarkRefusal;
pub use wb_marking_holes::with_holes;
