//! Are the entries of a certificate the lookaheads of a grammar's kernels, or which is the first that is wrong, or what is missing?
//!
//! Each entry is compared with the one that it came from, and what follows from each is looked up. What a certificate is, is defined in
//! `wb_recheck_theory`; its text is read by `wb_recheck_text`, and its lines are tested in `wb_recheck_lines`. `lookaheads_by_text` goes
//! through all three: the lookaheads of a grammar are those that the text lists, and none is looked for.
#![tactic(auto)]

mod begins;
mod compared;
mod entry_keys;
mod fault;
mod first_wrong;
mod follows;
mod gathered;
mod known;
mod missing;
mod opened;
mod owner;
mod reference;
mod refusal;
mod unlisted;

pub use compared::{Looked, lookaheads_by_text};
pub use entry_keys::EntryKeys;
pub use fault::CertificateFault;
pub use first_wrong::keys_of_entries;
pub use gathered::lookaheads_of_entries;
pub use missing::missing_entry;
pub use owner::Owner;
pub use reference::Reference;
pub use refusal::EntryRefusal;
