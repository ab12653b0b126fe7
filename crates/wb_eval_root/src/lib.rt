//! Evaluates an attribute at the root of a tree or of a written term, and prints its value.
//!
//! Terms are read and values printed in `wb_terms`, attributes evaluated in `wb_eval`; here they meet, and operations and attributes are
//! named as reports show them.
#![tactic(auto)]

mod answer;
mod asked;
mod laws;
mod root;
mod tree;
mod value;

pub use answer::RootAnswer;
pub use asked::asked_on;
pub use laws::{one_answer_law, one_value_law};
pub use root::root_value;
pub use tree::tree_value;
pub use value::TreeValue;
