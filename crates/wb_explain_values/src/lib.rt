//! What is said where an operation fails for the value that is asked of a text or of a term, or where the steps end: what waited.
//!
//! The files are certified and composed once more, and the attribute is evaluated once more. How what waits is shown is in
//! `wb_explain_instances`.
#![tactic(auto)]

mod asked;
mod certified;
mod places;
mod term;
mod text;

pub use asked::AskedValue;
pub use term::push_waiting_term;
pub use text::push_waiting;
