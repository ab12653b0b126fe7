//! What does a report show for a refusal whose numbers are those of a resolved specification?
//!
//! The same rule with names, as reports write them. The lines are made in `wb_report`; when a refusal is true is in the crates that find
//! it.
#![tactic(auto)]

mod attributes;
mod both;
mod extension;
mod grammar;
mod holes;
mod names;
mod refusal;
mod specification;

pub use holes::terminals_in;
pub use names::terminal_name;
pub use refusal::{of_spec, shown_extension_refusal, shown_refusal};
pub use specification::{name_rule, written_rule};
