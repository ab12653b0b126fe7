//! What comes of a text and an attribute?

use wb_eval_root::TreeValue;
use wb_report::ShownStop;

/// What comes of a text and an attribute, in the language of a host with extensions, as a report shows it.
#[derive(Drop)]
pub enum TextValue {
    /// The text has a tree, and this comes of the attribute at its root.
    Tree(TreeValue),
    /// It stops at this place, counted in bytes from 0 on, after the layout that is skipped there.
    Stopped { at: usize, stop: ShownStop },
}
