//! What is there to say of a run that the line of its report doesn't show, and the contents of the files do?
//!
//! The files that the words name are read once more, and one part looks into them, by the status or by the code of the refusal. What is said
//! of the line alone is in `wb_explain_lines`.
#![tactic(auto)]

mod asked;
mod contents;
mod files;
mod refusal;
mod run;
mod wanted;

pub use contents::further;
