//! Certified hosts and extensions by certificates: kernels and lookaheads are those that a text lists, and none is looked for.
//!
//! Whoever made the text isn't trusted: each line is tested, and so is every rule of certification. What a certificate is, is in
//! `wb_recheck_theory`; that a text is one of a grammar is tested in `wb_recheck_entries`, and the rules in the crates that certify. The
//! text that is written of a certified host or extension is that of its grammar with holes, as `wb_recheck_writer` lists it, with its names.
#![tactic(auto)]

mod beside;
mod extension;
mod handed;
mod host;
mod laws;
mod rechecked;
mod refusal;
mod text;
mod value;
mod written;

pub use beside::recheck_beside;
pub use extension::recheck_extension;
pub use host::recheck_host;
pub use laws::{one_recheck_answer_law, one_text_law};
pub use rechecked::RecheckedHost;
pub use refusal::RecheckRefusal;
pub use value::recheck_resolved;
pub use wb_certify::{
    CertifiedExtension, CertifiedHost, CertifyRefusal, DeterminismRefusal, certify_beside,
    certify_resolved, check_well_defined, names_law, one_answer_law, release_extensions,
    resolve_extension, resolve_host,
};
pub use written::{extension_certificate, host_certificate, write_extension, write_host};
