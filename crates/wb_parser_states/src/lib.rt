//! The states of an LR parser: what reductions make of them, and what can be done on the terminal that is ahead.
//!
//! `wb_parser` keeps values beside states and builds trees. What only reads a text wants the states alone, and follows chains of reductions
//! of one symbol each at once.
#![tactic(auto)]

mod chains;
mod codes;
mod kept;
mod moves;
mod outcome;
mod reductions;
mod rules;
mod stack;
mod step;
mod within;

pub use moves::move_states;
pub use outcome::Outcome;
pub use reductions::{Reductions, reductions_of};
pub use rules::{Rule, rules_of};
pub use stack::{put_at, top};
pub use step::reduce_states;
pub use within::{Reached, reduce_within};
