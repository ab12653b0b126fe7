//! Are the lines of a certificate those of a grammar's kernels, or which is the first that is wrong, or which kernel lacks a move?
//!
//! Each line is compared with the kernels as `wb_items` makes them. What a certificate is, is defined in `wb_recheck_theory`, and its text
//! is read by `wb_recheck_text`. That a grammar's kernels can be made again of their lists and moves is a law.
#![tactic(auto)]

mod laws;
mod line_states;
mod missing_moves;
mod refusal;

pub use laws::parts_law;
pub use line_states::{LineStates, states_of_lines};
pub use missing_moves::missing_move;
pub use refusal::LineRefusal;
