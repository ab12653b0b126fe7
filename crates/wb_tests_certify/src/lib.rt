//! Tests of certified hosts and extensions: which rule refuses a host, or an extension with its host, and with which example.
//!
//! Names and attributes by themselves are tested in `wb_tests_specifications`. Nothing depends on this crate.
#![tactic(auto)]

#[cfg(test)]
mod answers;
#[cfg(test)]
mod compose_kernels;
#[cfg(test)]
mod envelopes;
#[cfg(test)]
mod extensions;
#[cfg(test)]
mod files;
#[cfg(test)]
mod forwarding;
#[cfg(test)]
mod hosts;
#[cfg(test)]
mod lookaheads;
#[cfg(test)]
mod parts;
#[cfg(test)]
mod recheck;
#[cfg(test)]
mod recheck_written;
#[cfg(test)]
mod shown;
