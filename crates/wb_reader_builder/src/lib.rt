//! What is read of a specification so far, and what each token and each action adds.
//!
//! Parts that are read are kept on stacks until an action puts them together, so nothing recurses. Which tokens and actions come in which
//! order is in `wb_reader`.
#![tactic(auto)]

mod actions;
mod builder;
mod expressions;
mod items;
mod parts;
mod stacks;

pub use actions::{Action, act};
pub use builder::{PlacedBytes, PlacedTarget, SpecBuilder};
pub use expressions::ExpressionAction;
pub use items::ItemAction;
pub use parts::PartAction;
