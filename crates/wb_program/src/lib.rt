//! Which status and which report do words and files give?
//!
//! One call, `workbench`, over any shelf and sink, so that its contract is the whole program's. Which words ask what is in
//! `wb_program_words`; the answers to commands on files are in `wb_program_files`, those to commands on texts in `wb_program_texts`, and
//! those that ask of a host with its extensions as a whole in `commands`.
#![tactic(auto)]

mod commands;
mod laws;
mod program;
mod writing;

pub use laws::{complete_law, one_status_law, one_text_law, shown_again_law};
pub use program::workbench;
pub use wb_program_texts::Status;
