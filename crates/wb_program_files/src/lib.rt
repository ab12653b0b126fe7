//! What is answered of files that stand alone: a specification, a host, extensions beside it, a term, and certificates?
//!
//! Files are read here, up to a limit, and an answer is a status with its report. What contents are, and why they aren't, is found by
//! `wb_certify_files`, whose calls are passed on; what is composed of a host with extensions is in the crate above.
#![tactic(auto)]

mod answer;
mod certify;
mod check;
mod extensions;
mod files;
mod hosts;
mod pairs;
mod recheck;
mod show;
mod status;
mod value;

pub use answer::{Answer, reported};
pub use certify::answer_certify;
pub use check::answer_check;
pub use extensions::{MOST_EXTENSIONS, refused_extension};
pub use files::{Contents, ReadFailure, named_contents, read_file};
pub use hosts::read_host;
pub use pairs::MOST_BYTES;
pub use recheck::answer_recheck;
pub use show::answer_show;
pub use status::Status;
pub use value::answer_value;
pub use wb_certify_files::{
    CertifiedExtension, CertifiedHost, FileRefusal, extension_certificate, extension_of_spec,
    extension_spec, header_law, host_certificate, one_extension_answer_law,
    one_rechecked_extension_law, one_rechecked_host_law, one_text_law, release_extensions,
};
