//! A sink that shows contracts all that it takes.
//!
//! It is in memory, for tests and laws, and fails where it is asked to. Standard output is in `output_sink`.

ghost use Rattle.std.specs.Prelude.{◌≡◌, ◌≤◌, ◌<◌, ◌++◌, ◌∷◌, [], length, take, IfOk, OnOk, OnErr, Some};
ghost use Rattle.std.specs.Io.KnownBytes.{append_known};
ghost use Rattle.wb_world.specs.Cause.{Rose};
ghost use Rattle.wb_world.specs.Sink.{TakesSome, taken};
ghost use Rattle.wb_world.specs.MemorySink.{SinkView, AnswersWrite};

use crate::{Put, Sink};
use std::alloc::{AllocError, Global};
use std::marker::Model;

/// A sink in memory that keeps the bytes, takes a stated number at once, and fails at stated writes. Contracts see all of it.
#[derive(Drop)]
pub struct MemorySink {
    bytes: Vec<u8>,
    room: usize,
    most: usize,
    fails: Vec<u64>,
    calls: u64,
    faults: u64,
}

impl Model for MemorySink {
    ghost use Rattle.std.specs.Prelude.{vec_len, vec_capacity};
    ghost use Rattle.wb_world.specs.MemorySink.{SinkView, IsSinkSound};

    ghost Value = { SinkView };

    ghost view = { λ s. record { bytes = s.bytes.items; room = s.room; most = s.most; fails = s.fails.items; calls = s.calls; faults = s.faults } };

    ghost invariant = { λ s. IsSinkSound (vec_len s.bytes) (vec_capacity s.bytes) s.room s.most };
}

impl MemorySink {
    /// An empty sink with room for `room` bytes, which takes at most `most` at once.
    pub fn new(alloc: Global, room: usize, most: usize) -> Result<MemorySink, AllocError>
        requires { 1 ≤ most }
        ensures ok { IfOk result (λ sink. sink ≡ record { bytes = []; room = room; most = most; fails = []; calls = 0; faults = 0 }) }
    {
        Ok(MemorySink {
            bytes: Vec::with_capacity(alloc, room)?,
            room,
            most,
            fails: Vec::new(alloc),
            calls: 0,
            faults: 0,
        })
    }

    /// Lets the write of this number fail, counted from 1.
    pub fn fail_at(&mut self, call: u64) -> Result<(), AllocError>
        ensures ok { OnOk result (self.new ≡ record self.old { fails = self.old.fails ++ call ∷ [] }) }
        ensures err { OnErr result (self.new ≡ self.old) }
    {
        self.fails.push(call)?;
        Ok(())
    }

    /// The bytes written.
    pub fn bytes(&self) -> &[u8]
        ensures { result.now ≡ self.now.bytes }
    {
        &self.bytes
    }
}

impl Sink for MemorySink {
    ghost written = { λ s. Some s.bytes };

    ghost faults = { λ s. s.faults };

    fn write(&mut self, piece: &[u8]) -> Put
        requires { 0 < length piece.now }

        ensures within { TakesSome result (length piece.now) }
        ensures bytes { Some self.new.bytes ≡ append_known (Some self.old.bytes) (take (taken result) piece.now) }
        ensures failed { result ≡ Put.Failed → Rose self.old.faults self.new.faults }
        ensures faults { self.old.faults ≤ self.new.faults }

        // Exactly the listed writes fail, and those for which no room is left.
        ensures answer { AnswersWrite self.old self.new piece.now result }
    {
        self.calls = self.calls.saturating_add(1);
        let left = self.room - self.bytes.len();
        if left == 0 || self.fails.contains(&self.calls) {
            self.faults = self.faults.saturating_add(1);
            return Put::Failed;
        }
        let count = piece.len().min(self.most).min(left);
        match self.bytes.extend_from_slice(&piece[..count]) {
            Ok(()) => Put::Took(count),
            Err(_) => unreachable!(),
        }
    }
}
