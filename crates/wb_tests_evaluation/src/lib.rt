//! Tests of evaluation: which value or fault an attribute of a tree has, or that more steps are needed.
//!
//! Tests of certified hosts are in `wb_tests_certify`. Nothing depends on this crate.
#![tactic(auto)]

#[cfg(test)]
mod answers;
#[cfg(test)]
mod arithmetic;
#[cfg(test)]
mod forwarding;
#[cfg(test)]
mod handed_down;
#[cfg(test)]
mod hosts;
#[cfg(test)]
mod many;
#[cfg(test)]
mod step_counts;
