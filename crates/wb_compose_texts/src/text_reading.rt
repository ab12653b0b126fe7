//! What is read of a text in the language of a host with extensions?

use wb_base::Bytes;

/// What is read of a text in the language of a host with extensions, as a report shows it.
#[derive(Drop)]
pub enum TextReading {
    /// It has no marker, and means what it means to the host.
    Host,
    /// Its first marker has this name. The place is that of its first byte, counted from 0 on, at which the prefix of its form begins.
    MarkerAt { at: usize, marker: Bytes },
}
