//! Languages, and the next token of a text at a state of the parser.
//!
//! A scanner considers what its state allows and nothing else, so that one text is a keyword here and a name there. A language is made
//! once, and a scan tests nothing: `language_of` refuses a grammar by itself whose texts could be read in two ways. What a token is lies in
//! `wb_scan_theory`; languages with prefixed forms are made where extensions are composed.
#![tactic(auto)]

mod bare_language;
mod forms;
mod landing;
mod language;
mod laws;
mod layout;
mod longest;
mod next_token;
mod preferences;
mod refusal;
mod scanned;
mod unlisted;
mod winner;
mod won;
mod word;

pub use bare_language::language_of;
pub use language::Language;
pub use laws::bare_refusals_law;
pub use next_token::{ExaminedScan, examined, scan, scan_examined, scan_inline};
pub use refusal::LanguageRefusal;
pub use scanned::Scanned;
pub use wb_scan_theory::Form;
