//! What an evaluation remembers: the nodes that it has come to, their trees, and the values of their attributes.
//!
//! All is found by number in constant time. How values are found out is in `wb_eval`.
#![tactic(auto)]

mod cell;
mod memo;
mod sites;
mod slots;

pub use cell::Cell;
pub use memo::Memo;
pub use sites::{Origin, Sites, Step};
pub use slots::Slots;
