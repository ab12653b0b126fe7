//! Reports why an extension is refused by the rules E1 to E6.

ghost use Rattle.std.specs.Prelude.{◌≡◌, ◌++◌, OnOk};
ghost use Rattle.wb_report.specs.Reasons.{extension_text};

use crate::pieces::{push_conflict, push_lookahead, push_name, push_names, push_share};
use crate::{ShownConflict, ShownItem};
use std::alloc::AllocError;
use wb_base::{Bytes, Sequence};

/// Why an extension is refused: the rules on markers, and what it may add to its host's tables.
#[derive(Drop)]
pub enum ExtensionReason {
    /// E1: this production on a host's nonterminal doesn't begin with a marker.
    NotBridge(Bytes),
    /// E2: this marker doesn't begin exactly one production on a host's nonterminal, or occurs elsewhere.
    MarkerElsewhere(Bytes),
    /// E3: the left side of this production isn't extensible.
    NotExtensible(Bytes),
    /// E4: the marker and the terminal match the text.
    MarkerClash {
        marker: Bytes,
        terminal: Bytes,
        text: Bytes,
    },
    /// E5: at the prefix the host's item gets this terminal as a lookahead.
    Lookahead {
        prefix: Sequence<Bytes>,
        item: ShownItem,
        terminal: Bytes,
    },
    /// E6: at the prefix, a kernel of host's items that is new, an item gets this terminal as a lookahead.
    NewLookahead {
        prefix: Sequence<Bytes>,
        item: ShownItem,
        terminal: Bytes,
    },
    /// E6: there, two actions are possible.
    NewConflict {
        prefix: Sequence<Bytes>,
        conflict: ShownConflict,
    },
    /// E6: there, two terminals match the text.
    NewClash {
        prefix: Sequence<Bytes>,
        left: Bytes,
        right: Bytes,
        text: Bytes,
    },
}

// Appends the reason for which an extension is refused (E1 to E6).
pub(crate) fn push_extension_reason(
    out: &mut Vec<u8>,
    reason: &ExtensionReason,
) -> Result<(), AllocError>
    ensures { OnOk result (out.new.items ≡ out.old.items ++ extension_text reason.now) }
{
    match reason {
        ExtensionReason::NotBridge(production) => push_name(out, b"E1 ", production),
        ExtensionReason::MarkerElsewhere(marker) => push_name(out, b"E2 ", marker),
        ExtensionReason::NotExtensible(production) => push_name(out, b"E3 ", production),
        ExtensionReason::MarkerClash {
            marker,
            terminal,
            text,
        } => {
            out.extend_from_slice(b"E4 ")?;
            push_share(out, marker, terminal, text)
        }
        ExtensionReason::Lookahead {
            prefix,
            item,
            terminal,
        } => {
            push_names(out, b"E5 after", prefix)?;
            push_lookahead(out, item, terminal)
        }
        ExtensionReason::NewLookahead {
            prefix,
            item,
            terminal,
        } => {
            push_names(out, b"E6 after", prefix)?;
            push_lookahead(out, item, terminal)
        }
        ExtensionReason::NewConflict { prefix, conflict } => {
            push_names(out, b"E6 after", prefix)?;
            out.extend_from_slice(b" conflict")?;
            push_conflict(out, conflict)
        }
        ExtensionReason::NewClash {
            prefix,
            left,
            right,
            text,
        } => {
            push_names(out, b"E6 after", prefix)?;
            out.extend_from_slice(b" ")?;
            push_share(out, left, right, text)
        }
    }
}
