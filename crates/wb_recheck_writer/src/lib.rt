//! Which certificate has a grammar? Its kernels and lookaheads, each with the earlier one that it comes from, as they are first reached.
//!
//! What a certificate is, is defined in `wb_recheck_theory`. The kernels are those of `wb_items`, which this crate numbers in the order of
//! the certificate. The text is written by `wb_recheck_text`.
#![tactic(auto)]

mod context;
mod entries;
mod entry_list;
mod first_after;
pub mod laws;
mod lines;
mod lists;
mod moved;
mod opened;
mod source;

pub use lists::{Lists, certificate_lists};
