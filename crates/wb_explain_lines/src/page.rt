//! A sink that keeps what is written, as long as there is memory.
//!
//! So a report is there before its first byte is written, and something can be added to it.

ghost use Rattle.std.specs.Prelude.{◌≡◌, ◌≢◌, ◌++◌, [], MatchBool, OnOk, Some};

use std::alloc::{AllocError, Global};
use std::marker::Model;
use wb_world::{Put, Sink};

/// What was written so far. A write fails only where memory runs out.
pub struct Page {
    bytes: Vec<u8>,
    failures: u64,
}

impl Drop for Page {
    fn drop(self) {
        let Page { bytes, failures: _ } = self;
        drop(bytes);
    }
}

impl Model for Page {
    ghost use Rattle.wb_explain_lines.specs.Page.{PageView};

    ghost Value = { PageView };

    ghost view = { λ p. record { bytes = p.bytes.items; failures = p.failures } };
}

impl Page {
    /// A page on which nothing is written.
    pub fn new(alloc: Global) -> Page
        ensures { result ≡ record { bytes = []; failures = 0 } }
    {
        Page {
            bytes: Vec::new(alloc),
            failures: 0,
        }
    }

    /// Whether a write failed.
    pub fn has_failed(&self) -> bool
        ensures { MatchBool result (self.now.failures ≢ 0) (self.now.failures ≡ 0) }
    {
        self.failures != 0
    }

    /// What is written.
    pub fn bytes(&self) -> &[u8]
        ensures { result.now ≡ self.now.bytes }
    {
        &self.bytes
    }

    /// Adds bytes.
    pub fn add(&mut self, bytes: &[u8]) -> Result<(), AllocError>
        ensures { OnOk result (self.new.bytes ≡ self.old.bytes ++ bytes.now) }
    {
        self.bytes.extend_from_slice(bytes)
    }

    /// Puts bytes in the place of what is written.
    pub fn put(&mut self, bytes: &[u8]) -> Result<(), AllocError>
        ensures { OnOk result (self.new.bytes ≡ bytes.now) }
    {
        self.bytes.clear();
        self.bytes.extend_from_slice(bytes)
    }
}

impl Sink for Page {
    ghost written = { λ p. Some p.bytes };

    ghost faults = { λ p. p.failures };

    fn write(&mut self, piece: &[u8]) -> Put {
        match self.bytes.extend_from_slice(piece) {
            Ok(()) => Put::Took(piece.len()),
            Err(_) => {
                self.failures = self.failures.saturating_add(1);
                Put::Failed
            }
        }
    }
}
