//! Where bytes come from and where they go, and what it means that reading or writing fails.
#![tactic(auto)]

ghost use Rattle.std.specs.Prelude.{◌≡◌, ℕ, ◌<◌, List, Option, length, IfOk};
ghost use Rattle.std.specs.Io.{ReadsAtMost, WritesAtMost};
ghost use Rattle.std.specs.Io.KnownBytes.{ReadConsumes, WriteAppends};
ghost use Rattle.hx_io.specs.Faults.{CountsFault};

use thiserror::Error;

mod memory;
mod standard;
mod whole;

pub use memory::{MemSink, MemSource};
pub use standard::{StdSink, StdSource};
pub use whole::{ReadFault, WriteFault, read_all, write_all};

/// A call of a source or a sink failed, and has moved no byte.
#[derive(Clone, Copy, Debug, PartialEq, Eq, Error)]
#[error("the call failed")]
pub struct Failed;

/// Where bytes come from.
pub trait Source {
    /// The bytes that are left, where the source tells them.
    ghost left: { Self → Option (List ℕ) };

    /// How many calls have failed. This count never falls, and one at the end of 64 bits is taken
    /// as risen.
    ghost faults: { Self → ℕ };

    /// Moves the next bytes into the front of `buf`, and answers how many: none only where `buf` is
    /// empty or no byte is left.
    fn read(&mut self, buf: &mut [u8]) -> Result<usize, Failed>
        ensures bound { ReadsAtMost result buf.new }
        ensures bytes { ReadConsumes (left self.old) (left self.new) result buf.new }
        ensures cause { CountsFault (faults self.old) (faults self.new) result };
}

/// Where bytes go.
pub trait Sink {
    /// The bytes taken so far, where the sink tells them.
    ghost got: { Self → Option (List ℕ) };

    /// How many calls have failed. This count never falls, and one at the end of 64 bits is taken
    /// as risen.
    ghost faults: { Self → ℕ };

    /// Takes some of the bytes from the front, and answers how many: none only of no bytes. A
    /// device that takes none of some bytes has failed.
    fn write(&mut self, bytes: &[u8]) -> Result<usize, Failed>
        ensures bound { WritesAtMost result bytes.now }
        ensures some { IfOk result (λ n. 0 < length bytes.now → 0 < n) }
        ensures bytes { WriteAppends (got self.old) (got self.new) result bytes.now }
        ensures cause { CountsFault (faults self.old) (faults self.new) result };
}
