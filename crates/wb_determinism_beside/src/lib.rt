//! An extension whose names are right, and which keeps the rules on bridges, beside its host: it is a piece, and whether it is
//! deterministic is seen by what it adds.
//!
//! What is known of a host with an extension from the host alone holds of it: the definitions and laws of that are in
//! `wb_determinism_theory`.
#![tactic(auto)]

mod asked;
mod clear;
mod conflict;
mod considered;
mod deterministic;
mod foreign;
mod found;
mod images;
mod laws;
mod numbered;
mod rows;
mod valid;

pub use deterministic::is_deterministic_beside;
pub use laws::{given_law, pieces_law, scanned_law};
pub use wb_determinism::{extension_determinism, extension_refusals_law, judge_extension};
