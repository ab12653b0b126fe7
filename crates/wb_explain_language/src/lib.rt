//! What is said of a text that stops, and of an attribute that can't be asked, from the contents of its language's files?
//!
//! The files are certified and composed once more, as `wb_compose_files` does. What is said of a stop is in `wb_explain_stops`.
#![tactic(auto)]

mod attributes;
mod certified;
mod language;
mod stop;

pub use attributes::push_attributes_in;
pub use certified::certified_of;
pub use language::language_of;
pub use stop::push_stop_in;
