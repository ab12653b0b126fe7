//! The lookaheads at the kernels that a host with an extension has and the host has not, found from the extension's markers on.
//!
//! The host's sets are lent, and nothing is made for its kernels. Sets fill with no promise but that they hold lookaheads; then one pass
//! tests that nothing is missing. What the words mean is in `wb_determinism_theory`, the kernels are in `wb_determinism_kernels`.
#![tactic(auto)]

mod brought;
mod context;
mod fill;
mod lifted;
mod lifts;
mod marks;
mod new_lookaheads;
mod open;
mod pass;
mod rests;
mod row;
mod search;
mod slots;
mod spread;
mod test;
mod test_open;
mod test_starts;

pub use new_lookaheads::NewLookaheads;
