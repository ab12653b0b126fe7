//! What is there to say of the lines of a report in plain words, and where is what they speak of?
//!
//! A line is read back as `docs/REFUSALS.md` says that it is written. Which lines a run has is found above; what shows a place of a file is
//! in `wb_explain_places`.
#![tactic(auto)]

mod advice;
mod file;
mod further;
mod line;
mod page;
mod paste;
mod refusal;
mod reserved;
mod run;
mod shown;
mod words;
mod writing;

pub use file::contents_of;
pub use line::{Refused, offset_in, other_host_of, refused_of};
pub use page::Page;
pub use run::explanation;
pub use shown::{name_after, unprefixed};
pub use writing::{WriteFailed, write_all};
