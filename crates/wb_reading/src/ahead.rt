//! What is ahead in a text: a marker, another leaf, or no token at all?

ghost use Rattle.std.specs.Prelude.{◌↔◌, IsTrue};
ghost use Rattle.wb_termset.specs.Sets.{IsMember};
ghost use Rattle.wb_reading.specs.Inner.Walks.{IsAhead};

use wb_scan::Scanned;
use wb_termset::TermSet;

// What is ahead.
#[derive(Clone, Copy)]
pub(crate) enum Ahead {
    // A marker, whose first byte is at this place.
    Marker { at: usize, terminal: usize },
    // Another leaf, which ends before this place.
    Leaf { terminal: usize, end: usize },
    // The end of the text, or nothing that wins.
    NoLeaf,
}

// What is ahead, where this was scanned.
pub(crate) fn ahead_of(markers: &TermSet, found: Scanned) -> Ahead
    ensures { IsAhead markers.now found result }
{
    let Scanned::Token {
        terminal,
        at,
        lexeme: _,
        end,
    } = found
    else {
        return Ahead::NoLeaf;
    };
    if is_marker(markers, terminal) {
        Ahead::Marker { at, terminal }
    } else {
        Ahead::Leaf { terminal, end }
    }
}

// Whether a terminal is one of these markers. A number that is too large for the set isn't.
fn is_marker(markers: &TermSet, terminal: usize) -> bool
    ensures { IsTrue result ↔ IsMember markers.now terminal }
{
    terminal < markers.count() && markers.contains(terminal)
}
