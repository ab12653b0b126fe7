//! What is answered of texts in the language of a host with extensions?
//!
//! The host and its extensions are read here, of their files, and then the text, or the number that makes one. What comes of it is found by
//! `wb_compose_texts`; files are read in `wb_program_files`. Calls of both are passed on.
#![tactic(auto)]

mod asked;
mod composable;
mod edit;
mod laws;
mod reading;
mod several;
mod shown;
mod source;
mod texts;
mod tree;

pub use composable::{Composable, read_composable};
pub use edit::answer_edit;
pub use laws::laws_below;
pub use source::{answer_generate, answer_run};
pub use texts::{answer_reading, answer_tree};
pub use wb_compose_texts::{Composed, compose, withdrawn_names};
pub use wb_program_files::{
    Answer, CertifiedExtension, CertifiedHost, MOST_BYTES, ReadFailure, Status, answer_certify,
    answer_check, answer_recheck, answer_show, answer_value, extension_certificate,
    host_certificate, reported,
};
