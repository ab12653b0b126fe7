//! What is a text's answer, in numbers alone?

ghost use Rattle.wb_session_library.specs.Answers.{IsAnswer};

use crate::LanguageText;
use wb_scan_theory::StopKind;
use wb_session::Parsed;

/// The answer of a text, and how much there is to be walked.
#[repr(C)]
#[derive(Clone, Copy, Debug, PartialEq, Eq)]
pub struct TextAnswer {
    /// 0 for a tree, 1 for a stop at which there is no token, 2 for one at a token that can't follow.
    pub kind: u32,
    /// The node of the tree, or 0.
    pub tree: usize,
    /// The place of the stop, counted in bytes from 0, or 0.
    pub at: usize,
    /// The terminal that can't follow there, or 0. The end of a text has the number after those of terminals.
    pub terminal: usize,
    /// How many bytes the text has.
    pub bytes: usize,
    /// How many nodes there are, those of earlier texts among them.
    pub nodes: usize,
    /// How many leaves have a place.
    pub leaves: usize,
}

// The answer of a text.
pub(crate) fn answer_of(text: &LanguageText) -> TextAnswer
    ensures { IsAnswer text.now result }
{
    let bytes = text.text().len();
    let nodes = text.store().len();
    let leaves = text.leaves();
    let none = TextAnswer {
        kind: 1,
        tree: 0,
        at: 0,
        terminal: 0,
        bytes,
        nodes,
        leaves,
    };
    match *text.answer() {
        Parsed::Tree(tree) => TextAnswer {
            kind: 0,
            tree: tree.0,
            ..none
        },
        Parsed::Stopped { at, kind } => match kind {
            StopKind::NoToken => TextAnswer { at, ..none },
            StopKind::Unexpected(terminal) => TextAnswer {
                kind: 2,
                at,
                terminal,
                ..none
            },
        },
    }
}
