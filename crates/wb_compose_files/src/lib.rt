//! From the contents of a host's file, and of one extension's after the other, to the language that is composed of them.
//!
//! Each is certified as it comes, and its name is compared with those before it. How files are read, and what a report says of a refusal,
//! lies elsewhere.
#![tactic(auto)]

mod certified;
mod extend;
mod language;
mod refusal;
mod value;

pub use certified::Certified;
pub use language::TextLanguage;
pub use refusal::NextRefusal;
pub use wb_certify_files::{FileRefusal, HostRefusal, well_defined_host_of};
pub use wb_compose_texts::{
    Question, TextValue, TreeValue, compose, composed_attributes, root_attribute,
};
