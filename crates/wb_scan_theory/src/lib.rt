//! The theory of context-aware languages: forms, which of them wins, the next token of a text, and the tree or the stop of a text.
//!
//! The definitions are in `specs/`, and speak of lists and relations alone. Each function is a law, whose body is empty. What
//! computes by these definitions is in `wb_scan` and `wb_parser`.
#![tactic(auto)]

mod form;
pub mod laws;
mod stop_kind;

pub use form::Form;
pub use stop_kind::StopKind;
