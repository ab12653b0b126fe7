//! Determinism of extensions: whether an extension leaves a host as deterministic as it was, whatever other extensions there are.
//!
//! An extension is tested with its host alone. What the words mean is in `wb_grammar_theory`, `wb_marking_holes`, `wb_determinism_host` and
//! `wb_compose_theory`; marks are tested elsewhere.
#![tactic(auto)]

mod apart;
mod conflict;
mod context;
mod envelope;
mod envelope_clash;
mod envelope_rule;
mod envelope_test;
mod extension;
mod host_index;
mod images;
mod laws;
mod lookahead_rule;
mod numbers;
mod parts;
mod regions;
mod rules;
mod valid;

pub use extension::{extension_determinism, judge_extension};
pub use laws::{composable_law, extension_refusals_law};
pub use parts::ExtensionParts;
pub use regions::Region;
pub use wb_determinism_host::{host_determinism, judge_host};
