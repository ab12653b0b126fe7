//! Tests of name rules, attributes, markers of extensions, and the lines that report each outcome.
//!
//! Tests of values, operations and kinds are in `wb_tests_values`. Nothing depends on this crate.
#![tactic(auto)]

#[cfg(test)]
mod attributes;
#[cfg(test)]
mod extension_names;
#[cfg(test)]
mod files;
#[cfg(test)]
mod forwards;
#[cfg(test)]
mod markers;
#[cfg(test)]
mod names;
#[cfg(test)]
mod report_attributes;
#[cfg(test)]
mod report_lines;
#[cfg(test)]
mod report_outcomes;
#[cfg(test)]
mod report_refusals;
#[cfg(test)]
mod written;
