//! Demand-driven attribute evaluation: instances, their answers, and which are needed for one that is asked.
//!
//! The definitions are in `specs/`, and speak of trees and relations. Each function is a law, whose body is empty. What evaluates by these
//! definitions lies elsewhere; when attributes are well defined is in `wb_flow_theory`.
#![tactic(auto)]

pub mod laws;
