//! Certified extensions: what may be composed with a host and other such extensions, each certified with the host alone.
//!
//! The rules are tested in the order in which they are reported, and nothing of another extension is looked at. What each says is in the
//! crates below.
#![tactic(auto)]

mod attributes;
mod both;
mod certified;
mod determinism;
mod extension;
mod laws;
mod marks;
mod value;

pub use both::certified_both;
pub use certified::{CertifiedExtension, release_extensions};
pub use extension::certify_extension;
pub use laws::{names_law, one_answer_law};
pub use marks::test_marks;
pub use value::{certify_beside, check_attributes};
pub use wb_certify_host as hosts;
pub use wb_certify_host::{
    CertifiedHost, CertifyRefusal, DeterminismRefusal, HostFacts, HostParts, certify_host,
    certify_resolved, check_well_defined, host_facts, judge_host, resolve_extension, resolve_host,
};
pub use wb_determinism_beside::judge_extension;
