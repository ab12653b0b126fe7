//! What a program holds that isn't written in Rattle: hosts with extensions, languages and texts, which it names by handles.
//!
//! A handle is checked at each call. What a call answers in bytes is the workbench's note, which the next such call replaces. A tree is walked
//! by the numbers of its nodes, and a number that no node has is refused.
#![tactic(auto)]

mod answer;
mod asking;
mod editing;
mod host;
mod kept_texts;
mod language;
mod node;
mod notes;
mod questions;
mod reason;
mod refusal;
mod text;
mod walk;
mod workbench;

pub use answer::TextAnswer;
pub use host::StandardHost;
pub use language::StandardLanguage;
pub use node::{Child, Node};
pub use reason::Reason;
pub use refusal::CallRefusal;
pub use text::LanguageText;
pub use wb_session::{Edited, LeafPlace};
pub use workbench::Workbench;
