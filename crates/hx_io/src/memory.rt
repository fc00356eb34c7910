//! A source and a sink in memory, of which chosen calls fail.
ghost use Rattle.std.specs.Prelude.{◌≡◌, ℕ, [], length, take, min, false, Some, IfOk, OnOk, MatchResult, is_err};
ghost use Rattle.std.specs.Io.{ReadsAtMost, WritesAtMost};
ghost use Rattle.std.specs.Io.KnownBytes.{ReadConsumes, WriteAppends};
ghost use Rattle.hx_io.specs.Faults.{CountsFault};
ghost use Rattle.hx_io.specs.Memory.{source_after, failed_source, sink_after, failed_sink, next_fails, refuses, room};

use crate::{Failed, Sink, Source};
use std::alloc::Global;
use std::marker::Model;

/// Bytes in memory as a source.
#[derive(Drop)]
pub struct MemSource {
    bytes: Vec<u8>,
    given: usize,
    fails: Vec<u64>,
    calls: u64,
    faults: u64,
}

impl Model for MemSource {
    ghost use Rattle.std.specs.Prelude.{◌≤◌, length, drop};
    ghost use Rattle.hx_io.specs.Memory.{SourceState};

    ghost Value = { SourceState };

    ghost view = { λ a. record {
      left = drop a.given a.bytes.items;
      fails = a.fails.items;
      calls = a.calls;
      faults = a.faults;
    } };

    ghost invariant = { λ a. a.given ≤ length a.bytes.items };
}

impl MemSource {
    /// A source of these bytes, of which the calls with these numbers, from 1, fail.
    pub fn new(bytes: Vec<u8>, fails: Vec<u64>) -> MemSource
        ensures { result ≡ record {
          left = bytes.items;
          fails = fails.items;
          calls = 0;
          faults = 0;
        } }
    {
        MemSource {
            bytes,
            given: 0,
            fails,
            calls: 0,
            faults: 0,
        }
    }
}

impl Source for MemSource {
    ghost left = { λ s. Some s.left };

    ghost faults = { λ s. s.faults };

    /// Gives as many bytes as are left and have room.
    fn read(&mut self, buf: &mut [u8]) -> Result<usize, Failed>
        ensures fails { is_err result ≡ next_fails self.old.fails self.old.calls }
        ensures count { IfOk result (λ n. n ≡ min (length self.old.left) (length buf.new)) }
        ensures bytes { IfOk result (λ n. take n buf.new ≡ take n self.old.left) }
        ensures after { MatchResult result
            (λ n. self.new ≡ source_after self.old n)
            (λ _. self.new ≡ failed_source self.old) }
        ensures cause { CountsFault self.old.faults self.new.faults result }
    {
        self.calls = self.calls.saturating_add(1);
        if self.fails.contains(&self.calls) {
            self.faults = self.faults.saturating_add(1);
            return Err(Failed);
        }
        let rest = &self.bytes[self.given..];
        let n = rest.len().min(buf.len());
        buf[..n].copy_from_slice(&rest[..n]);
        self.given += n;
        Ok(n)
    }
}

/// A sink in memory.
#[derive(Drop)]
pub struct MemSink {
    got: Vec<u8>,
    most: u64,
    fails: Vec<u64>,
    calls: u64,
    faults: u64,
}

impl Model for MemSink {
    ghost use Rattle.hx_io.specs.Memory.{SinkState};

    ghost Value = { SinkState };

    ghost view = { λ a. record {
      got = a.got.items;
      most = a.most;
      fails = a.fails.items;
      calls = a.calls;
      faults = a.faults;
    } };
}

impl MemSink {
    /// A sink of which the calls with these numbers, from 1, fail, and each call once it has taken
    /// `most` bytes.
    pub fn new(alloc: Global, fails: Vec<u64>, most: u64) -> MemSink
        ensures { result ≡ record {
          got = [];
          most = most;
          fails = fails.items;
          calls = 0;
          faults = 0;
        } }
    {
        MemSink {
            got: Vec::new(alloc),
            most,
            fails,
            calls: 0,
            faults: 0,
        }
    }

    /// The bytes taken so far.
    pub fn got(&self) -> &[u8]
        ensures { result.now ≡ self.now.got }
    {
        self.got.as_slice()
    }
}

impl Sink for MemSink {
    ghost got = { λ s. Some s.got };

    ghost faults = { λ s. s.faults };

    /// Takes as many bytes as it has room for. It takes memory for them, and fails where that is
    /// refused.
    fn write(&mut self, bytes: &[u8]) -> Result<usize, Failed>
        ensures count { IfOk result (λ n. n ≡ min (length bytes.now) (room self.old)) }
        ensures taken { OnOk result (refuses self.old ≡ false) }
        ensures after { MatchResult result
            (λ n. self.new ≡ sink_after self.old (take n bytes.now))
            (λ _. self.new ≡ failed_sink self.old) }
        ensures cause { CountsFault self.old.faults self.new.faults result }
    {
        self.calls = self.calls.saturating_add(1);
        let room = (self.most as usize).saturating_sub(self.got.len());
        let n = bytes.len().min(room);
        if room == 0
            || self.fails.contains(&self.calls)
            || self.got.extend_from_slice(&bytes[..n]).is_err()
        {
            self.faults = self.faults.saturating_add(1);
            return Err(Failed);
        }
        Ok(n)
    }
}
