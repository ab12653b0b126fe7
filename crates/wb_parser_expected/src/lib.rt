//! What could come where a text stops: exactly the terminals with which a derivation tree goes on after the leaves that were read.
//!
//! Tables may have a reduction before a terminal that can't come after all, where prefixes share a state. So each terminal is tried on the
//! states of the leaves that were read, which stay as they are.
#![tactic(auto)]

mod each;
mod expected;
mod leaf;
mod trial;
mod word;

pub use expected::{Stop, stop_of};
pub use wb_scan_theory::StopKind;
pub use word::{Word, word_at};
