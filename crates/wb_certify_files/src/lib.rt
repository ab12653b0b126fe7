//! The certified host or extension that the contents of a file are, with or without the text of a certificate, or what a report shows where
//! they are none.
//!
//! Here reading, names, certification and certificates meet, and refusals get the names that reports show. What is certified is defined in
//! `wb_certify_host` and `wb_certify`, what is certified by a text in `wb_recheck`, the lines of reports in `wb_report`.
#![tactic(auto)]

mod contents_refusal;
mod extension_contents;
mod extension_refusal;
mod header;
mod host_contents;
mod host_refusal;
mod laws;
mod recheck_laws;
mod recheck_shown;
mod rechecked_extension;
mod rechecked_host;
mod well_defined;

pub use contents_refusal::ContentsRefusal;
pub use extension_contents::{extension_of, extension_of_spec, resolved_extension_of};
pub use extension_refusal::FileRefusal;
pub use header::{extension_spec, extension_spec_of};
pub use host_contents::{host_of, resolved_host_of};
pub use host_refusal::HostRefusal;
pub use laws::{header_law, one_extension_answer_law, one_host_answer_law, one_well_defined_law};
pub use recheck_laws::{one_rechecked_extension_law, one_rechecked_host_law};
pub use rechecked_extension::rechecked_extension_of;
pub use rechecked_host::rechecked_host_of;
pub use wb_certify_shown::{terminal_name, terminals_in, written_rule};
pub use wb_recheck::{
    CertifiedExtension, CertifiedHost, CertifyRefusal, DeterminismRefusal, RecheckedHost,
    certify_beside, certify_resolved, extension_certificate, host_certificate, one_text_law,
    release_extensions,
};
pub use well_defined::well_defined_host_of;
