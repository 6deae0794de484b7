//! A source and a sink in memory, which fail at the calls that they are told.
ghost use Rattle.std.specs.Prelude.{◌≡◌, ◌+◌, ◌-◌, ◌<◌, ◌≤◌, ◌↔◌, ◌⊎◌, ◌++◌, [], Some, Contains, IsTrue, IsErr, IfOk, OnErr, length, take, drop, min, vec_len};
ghost use Rattle.mu_io.specs.Faults.{one_more};
ghost use Rattle.mu_io.specs.Streams.{Reads, Writes};

use crate::streams::fault;
use crate::{Failed, Sink, Source};
use std::marker::Model;

/// Whether `numbers` has this number.
fn is_listed(numbers: &[u32], number: u64) -> bool
    ensures { IsTrue result ↔ Contains numbers.now number }
{
    numbers.iter().any(|listed| u64::from(*listed) == number)
}

/// A source that holds its bytes, gives them in pieces, and fails at the calls that it is told.
#[derive(Debug, Drop)]
pub struct MemSource {
    bytes: Vec<u8>,
    given: usize,
    piece: usize,
    fails: Vec<u32>,
    calls: u64,
    faults: u64,
}

impl Model for MemSource {
    ghost use Rattle.std.specs.Prelude.{◌<◌, ◌≤◌, drop, vec_len};
    ghost use Rattle.mu_io.specs.Memory.{SourceState};

    ghost Value = { SourceState };

    ghost view = { λ s. record {
      left = drop s.given s.bytes.items;
      piece = s.piece;
      fails = s.fails.items;
      calls = s.calls;
      faults = s.faults;
    } };

    ghost invariant = { λ s. (0 < s.piece) × (s.given ≤ vec_len s.bytes) };
}

impl MemSource {
    /// A source of `bytes`, which gives at most `piece` of them at each read. The reads whose
    /// numbers, counted from 1, stand in `fails` fail.
    pub fn new(bytes: Vec<u8>, piece: usize, fails: Vec<u32>) -> MemSource
        requires { 0 < piece }
        ensures { result
            ≡ record
            { left = bytes.items; piece = piece; fails = fails.items; calls = 0; faults = 0 } }
    {
        MemSource {
            bytes,
            given: 0,
            piece,
            fails,
            calls: 0,
            faults: 0,
        }
    }
}

impl Source for MemSource {
    ghost use Rattle.std.specs.Prelude.{Some};

    ghost left = { λ s. Some s.left };

    ghost faults = { λ s. s.faults };

    fn read(&mut self, into: &mut [u8]) -> Result<usize, Failed>
        // When it fails, how much it gives, and what it is afterwards.
        ensures fails { IsErr result ↔ Contains self.old.fails (one_more self.old.calls) }
        ensures count { IfOk result (λ k.
            k ≡ min (min self.old.piece (length self.old.left)) (length into.old)) }
        ensures gives { IfOk result (λ k. take k into.new ≡ take k self.old.left) }
        ensures ok { IfOk result (λ k.
            self.new ≡ record self.old {
              left = drop k self.old.left;
              calls = one_more self.old.calls;
            }) }
        ensures err { OnErr result (self.new
            ≡ record self.old {
              calls = one_more self.old.calls;
              faults = one_more self.old.faults;
            }) }

        // What any source promises.
        ensures reads { Reads result (Some self.old.left) (Some self.new.left) into.old into.new
            self.old.faults self.new.faults }
    {
        self.calls = self.calls.saturating_add(1);
        if is_listed(&self.fails, self.calls) {
            return Err(fault(&mut self.faults));
        }
        let rest = &self.bytes[self.given..];
        let count = self.piece.min(rest.len()).min(into.len());
        into[..count].copy_from_slice(&rest[..count]);
        self.given += count;
        Ok(count)
    }
}

/// A sink that keeps its bytes, takes them in pieces, and fails at the calls that it is told, and
/// if it is full.
#[derive(Debug, Drop)]
pub struct MemSink {
    room: Vec<u8>,
    filled: usize,
    piece: usize,
    fails: Vec<u32>,
    calls: u64,
    faults: u64,
}

impl Model for MemSink {
    ghost use Rattle.std.specs.Prelude.{◌<◌, ◌≤◌, take, vec_len};
    ghost use Rattle.mu_io.specs.Memory.{SinkState};

    ghost Value = { SinkState };

    ghost view = { λ s. record {
      written = take s.filled s.room.items;
      room = vec_len s.room;
      piece = s.piece;
      fails = s.fails.items;
      calls = s.calls;
      faults = s.faults;
    } };

    ghost invariant = { λ s. (0 < s.piece) × (s.filled ≤ vec_len s.room) };
}

impl MemSink {
    /// A sink that can take `room.len()` bytes in all, over those of `room`, and at most `piece` at
    /// each write. The writes whose numbers, counted from 1, stand in `fails` fail.
    pub fn new(room: Vec<u8>, piece: usize, fails: Vec<u32>) -> MemSink
        requires { 0 < piece }
        ensures { result
            ≡ record {
              written = [];
              room = vec_len room;
              piece = piece;
              fails = fails.items;
              calls = 0;
              faults = 0;
            } }
    {
        MemSink {
            room,
            filled: 0,
            piece,
            fails,
            calls: 0,
            faults: 0,
        }
    }

    /// The bytes that were written so far.
    pub fn written(&self) -> &[u8]
        ensures { result.now ≡ self.now.written }
    {
        &self.room[..self.filled]
    }
}

impl Sink for MemSink {
    ghost use Rattle.std.specs.Prelude.{Some};

    ghost written = { λ s. Some s.written };

    ghost faults = { λ s. s.faults };

    fn write(&mut self, from: &[u8]) -> Result<usize, Failed>
        // When it fails, how much it takes, and what it is afterwards.
        ensures fails { IsErr result ↔ (Contains self.old.fails (one_more self.old.calls)
            ⊎ ((0 < length from.now) × (length self.old.written ≡ self.old.room))) }
        ensures count { IfOk result (λ k.
            k ≡ min (min self.old.piece (self.old.room - length self.old.written))
            (length from.now)) }
        ensures ok { IfOk result (λ k. self.new
            ≡ record self.old {
              written = self.old.written ++ take k from.now;
              calls = one_more self.old.calls;
            }) }
        ensures err { OnErr result (self.new
            ≡ record self.old {
              calls = one_more self.old.calls;
              faults = one_more self.old.faults;
            }) }

        // What any sink promises.
        ensures writes { Writes result (Some self.old.written) (Some self.new.written) from.now
            self.old.faults self.new.faults }
    {
        self.calls = self.calls.saturating_add(1);
        let free = self.room.len() - self.filled;
        let is_full = free == 0 && !from.is_empty();
        if is_full || is_listed(&self.fails, self.calls) {
            return Err(fault(&mut self.faults));
        }
        let count = self.piece.min(free).min(from.len());
        let end = self.filled + count;
        self.room[self.filled..end].copy_from_slice(&from[..count]);
        self.filled = end;
        Ok(count)
    }
}
