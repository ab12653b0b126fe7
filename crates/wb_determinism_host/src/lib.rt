//! Determinism of hosts: what an extension's author may rely on, before any extension is there.
//!
//! A host is tested with holes, terminals that match no text and stand where markers of extensions may come. What the words mean is in
//! `wb_grammar_theory`, `wb_marking_holes` and `wb_determinism_contexts`.
#![tactic(auto)]

mod host;
mod judge;
mod laws;
mod lexicon;
mod parts;
mod refusal;

pub use host::{AnalysedHost, HostFacts, analysed_host, host_determinism, host_facts};
pub use judge::{judge_beside, judge_host};
pub use laws::{host_refusals_law, host_tables_law};
pub use lexicon::{LayoutOwner, expressions_of, layout_of, pairs_of};
pub use parts::HostParts;
pub use refusal::{DeterminismRefusal, EnvelopeFault};
