//! Reads a text in the language of a host with extensions until a marker is next.
//!
//! The host's own language isn't composed: what a text without markers has there is said by `reading_laws`.

ghost use Rattle.std.specs.Prelude.{ℕ, List, All, IfOk, map};
ghost use Rattle.wb_base.specs.Different.{Differ};
ghost use Rattle.wb_compose.specs.Composed.{IsComposed, IsWith, name_of};
ghost use Rattle.wb_compose_texts.specs.Unions.{all_resolved};
ghost use Rattle.wb_compose_texts.specs.Inner.FirstMarkers.{IsMarkerFound};
ghost use Rattle.wb_compose_texts.specs.Readings.{IsUnionReading};

use crate::markers::union_markers;
use crate::text_reading::TextReading;
use crate::trees::united_name;
use std::alloc::{AllocError, Global};
use wb_compose::{CertifiedExtension, CertifiedHost, Composed, compose};
use wb_reading::{HostReading, first_marker};

/// Whether a text means to a host with extensions what it means to the host, or the first marker that may change it.
///
/// The time is that of composing all, and of scanning the text as far as that marker; no clause bounds it.
pub fn union_reading(
    alloc: Global,
    host: &CertifiedHost,
    extensions: &[CertifiedExtension],
    text: &[u8],
) -> Result<TextReading, AllocError>
    requires each { All (IsWith host.now) extensions.now }
    requires names { Differ (map name_of extensions.now) }
    ensures { IfOk result (IsUnionReading host.now.resolved host.now.operations (all_resolved extensions.now) text.now) }
{
    let composed = compose(alloc, host, extensions)?;
    let found = composed_reading(alloc, host, extensions, &composed, text);
    composed.release();
    found
}

// The same, in what is composed.
fn composed_reading(
    alloc: Global,
    host: &CertifiedHost,
    extensions: &[CertifiedExtension],
    composed: &Composed,
    text: &[u8],
) -> Result<TextReading, AllocError>
    requires { IsComposed host.now extensions.now composed.now.language.language composed.now.withdrawn.items }
    ensures { IfOk result (IsUnionReading host.now.resolved host.now.operations (all_resolved extensions.now) text.now) }
{
    let found = marker_in(alloc, host, extensions, composed, text)?;
    shown(alloc, host, extensions, composed, found)
}

// The first marker of the text, by number.
fn marker_in(
    alloc: Global,
    host: &CertifiedHost,
    extensions: &[CertifiedExtension],
    composed: &Composed,
    text: &[u8],
) -> Result<HostReading, AllocError>
    ensures { IfOk result (IsMarkerFound host.now extensions.now composed.now.language.language text.now) }
{
    let markers = union_markers(alloc, host, extensions)?;
    let united = composed.language();
    let found = first_marker(alloc, united, &markers, text);
    drop(markers);
    found
}

// The reading with the name of its marker.
fn shown(
    alloc: Global,
    host: &CertifiedHost,
    extensions: &[CertifiedExtension],
    composed: &Composed,
    found: HostReading,
) -> Result<TextReading, AllocError>
    requires { IsComposed host.now extensions.now composed.now.language.language composed.now.withdrawn.items }
    ensures { (text : List ℕ) → IsMarkerFound host.now extensions.now composed.now.language.language text found → IfOk result (IsUnionReading host.now.resolved host.now.operations (all_resolved extensions.now) text) }
{
    match found {
        HostReading::Same => Ok(TextReading::Host),
        HostReading::MarkerAt { at, terminal } => {
            let marker = united_name(alloc, host, extensions, terminal)?;
            Ok(TextReading::MarkerAt { at, marker })
        }
    }
}
