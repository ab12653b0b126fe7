//! Specifications whose names are numbers: what the analyses, composition and evaluation read.
//!
//! A resolved specification is a host's, that of a host with one extension, or that of a host with many. An owner says of each name
//! whose it is: 0 is the host, and k the k-th extension from 1 on. Which specification stands for which written one is no matter of
//! this crate.
#![tactic(auto)]

mod attributes;
mod attribution;
mod equation;
mod production;
mod resolved;
mod terminal;

pub use attributes::{Attribute, Direction, Nonterminal, Occurrence};
pub use attribution::{Attribution, AttributionParts};
pub use equation::{Equation, Node, Place, Target};
pub use production::{Child, ChildKind, Forward, Local, Production, ProductionRole};
pub use resolved::{Resolved, ResolvedParts};
pub use terminal::{Preference, Terminal, TerminalKind};
