//! Certified hosts: languages that are deterministic and whose attributes are well defined, whatever certified extensions may come.
//!
//! The rules are tested in the order in which they are reported. What each says is in the crates below.
#![tactic(auto)]

mod certified;
mod host;
mod refusal;
mod value;
mod well_defined;

pub use certified::CertifiedHost;
pub use host::certify_host;
pub use refusal::CertifyRefusal;
pub use value::{certify_resolved, check_attributes, check_kinds, start, without_start};
pub use wb_determinism_host::{
    DeterminismRefusal, EnvelopeFault, HostFacts, HostParts, host_facts, judge_host, pairs_of,
};
pub use wb_names::{resolve_extension, resolve_host};
pub use well_defined::check_well_defined;
