//! What does a host reading answer? The first marker of a text, or that the text means what it means to the host.

ghost use Rattle.std.specs.Prelude.{IfOk};
ghost use Rattle.wb_compose_theory_attributes.specs.Numbers.{NumberMap};
ghost use Rattle.wb_reading_theory.specs.Extends.{Extends};
ghost use Rattle.wb_reading.specs.Answers.{IsHostReading};

use crate::walk::first_marker;
use std::alloc::{AllocError, Global};
use wb_scan::Language;
use wb_syntax_resolved::Attribution;
use wb_termset::TermSet;

/// Whether a text means what it means to the host.
#[derive(Clone, Copy, Debug, PartialEq, Eq)]
pub enum HostReading {
    /// It does: it has no marker.
    Same,
    /// The first marker of the text is this terminal of the larger language. The place, counted in bytes from 0 on, is that of its first
    /// byte, at which the prefix of its form begins, after the layout that is skipped there.
    MarkerAt { at: usize, terminal: usize },
}

/// Whether a text means to a host with extensions what it means to the host, or the first marker that may change it.
///
/// The languages and attributes are those of the host, and those of the host with its extensions, which extend them. Terminals in the set
/// are numbered as in the larger language. A stack of states, one for each root, two numbers for each production and a table of
/// fixed size are all that is kept; no tree is built. The only error is out of memory.
pub fn host_reading(
    alloc: Global,
    host: &Language,
    united: &Language,
    host_attributes: &Attribution,
    attributes: &Attribution,
    markers: &TermSet,
    text: &[u8],
) -> Result<HostReading, AllocError>
    requires extends { (t : NumberMap) × Extends host.now.language united.now.language host_attributes.now attributes.now t markers.now }
    ensures ok { IfOk result (IsHostReading host.now.language united.now.language host_attributes.now attributes.now markers.now text.now) }
{
    let _grammar = host.grammar();
    let _parts = host_attributes.parts();
    let _united_parts = attributes.parts();
    first_marker(alloc, united, markers, text)
}
