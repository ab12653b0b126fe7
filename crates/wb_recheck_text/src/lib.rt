//! The text of certificates: `read_certificate` reads it, and `print_certificate` writes it.
//!
//! A certificate has one text, so what is read is what was printed. Other bytes are refused at the first that can follow in no
//! certificate. Whether a certificate is one of a grammar is no matter of this crate.
#![tactic(auto)]

mod certificate;
mod entry_line;
mod head_line;
mod kernel_line;
pub mod laws;
mod names;
mod numbers;
mod print;
mod read;
mod refusal;
mod reserved;
mod words;

pub use certificate::{Certificate, Head};
pub use print::print_certificate;
pub use read::read_certificate;
pub use refusal::TextRefusal;
