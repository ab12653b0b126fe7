//! Which texts are terms, for which trees do they stand, and how are values printed?
//!
//! Each is one exact answer, defined in `specs/Term`, `TermText`, `TreeOf` and `Printed`. What trees mean is no matter of this crate.
#![tactic(auto)]

mod builder;
mod event;
mod events;
mod kinds;
mod name;
mod print;
mod read;
mod reading;
mod refusal;
mod rules;
mod smallest;
mod table;

pub use print::print_value;
pub use read::read_term;
pub use refusal::{PrintRefusal, TermRefusal};
