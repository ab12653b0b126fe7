//! The attributes of a host and its extensions, from rows that are lent: each row in the numbers of the union, and all of them put
//! together.
//!
//! What holds of them is in `wb_compose_theory_attributes` and `wb_compose_theory_lists`.
#![tactic(auto)]

mod addition;
mod children;
mod expression;
mod lists;
mod numbers;
mod placed;
mod production;
mod productions;
mod row;
mod rows;
pub mod slices;
mod union;
mod written;

pub use addition::{Addition, Rows};
pub use children::new_children;
pub use expression::{new_equation, new_forward, new_local};
pub use numbers::{Block, Grouped, Numbers};
pub use row::{new_attribute, new_left, new_nonterminal, new_occurrence, new_owner};
pub use union::united_attribution;
