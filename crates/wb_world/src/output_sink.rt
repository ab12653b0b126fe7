//! How is standard output written to as a sink?
//!
//! Part of the trusted edge: no contract says what was written. What a write may answer is in `sink`.

ghost use Rattle.std.specs.Prelude.{◌≡◌, None};

use crate::{Put, Sink};
use std::marker::Model;

/// Standard output. No contract says what was written. A write that takes no byte counts as a fault.
///
/// Contracts see the count of its faults, from 0 on.
#[derive(Drop)]
pub struct OutputSink<R: Print + Drop> {
    rt: R,
    faults: u64,
}

impl<R: Print + Drop> Model for OutputSink<R> {
    ghost use Rattle.std.specs.Prelude.{ℕ};

    ghost Value = { ℕ };

    ghost view = { λ s. s.faults };
}

impl<R: Print + Drop> OutputSink<R> {
    /// Standard output, with no fault so far.
    pub fn new(rt: R) -> OutputSink<R>
        ensures { result ≡ 0 }
    {
        OutputSink { rt, faults: 0 }
    }
}

impl<R: Print + Drop> Sink for OutputSink<R> {
    ghost written = { λ _. None };

    ghost faults = { λ s. s };

    fn write(&mut self, piece: &[u8]) -> Put {
        match self.rt.write_some(piece) {
            Ok(count) if count > 0 => Put::Took(count),
            _ => {
                self.faults = self.faults.saturating_add(1);
                Put::Failed
            }
        }
    }
}
