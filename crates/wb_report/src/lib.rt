//! The lines that the program prints: one report for each outcome of a command.
//!
//! An outcome has what its lines show and nothing else, with names as they are printed. What led to it is no matter here.
#![tactic(auto)]

mod attribute_reason;
mod certificate_reason;
mod done;
mod edits_reason;
mod extension_reason;
mod grammar_reason;
mod lines;
mod outcome;
mod pieces;
mod refusal;
mod shown;
mod spec_reason;

pub use attribute_reason::AttributeReason;
pub use certificate_reason::CertificateReason;
pub use done::Done;
pub use edits_reason::EditsReason;
pub use extension_reason::ExtensionReason;
pub use grammar_reason::GrammarReason;
pub use lines::report;
pub use outcome::Outcome;
pub use refusal::Refusal;
pub use shown::{ShownAction, ShownConflict, ShownItem, ShownStop, ShownVertex};
pub use spec_reason::{SpecReason, TermReason};
