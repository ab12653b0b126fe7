//! What is said of attributes that wait where an evaluation ends without a value: the equation in which it ended, which attribute waits for
//! which, and how many steps each took.
//!
//! Which they are is found by `wb_eval`. How their language is made, and a text read in it, lies elsewhere.
#![tactic(auto)]

mod chain;
mod counts;
mod equation;
mod instance;
mod leaves;
mod position;
mod said;
mod shown;
mod writing;

pub use leaves::leaf_counts;
pub use said::push_instances;
pub use shown::{Leaves, Shown};
