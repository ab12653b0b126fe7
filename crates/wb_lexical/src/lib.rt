//! Whether preferences decide every choice between terminals that match the same text, and whether they form a cycle.
#![tactic(auto)]

mod candidates;
mod clash;
mod cycle;
mod pair;
mod rows;

pub use clash::{Clash, find_clash, find_clash_in};
pub use cycle::preference_cycle;
pub use pair::prefers;
