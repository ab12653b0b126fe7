//! What do attributes lack by the rules: equations that are missing, attributes that aren't handed down, flow types with too little?
//!
//! Each is a list of all that lacks something, as lines to paste: a report shows one. Chains of reads are in `wb_explain_flows`.
#![tactic(auto)]

pub mod files;
pub mod handed;
pub mod held;
pub mod lists;
pub mod missing;
pub mod names;
pub mod rule;
pub mod told;
pub mod writing;
