//! Reading to the end, and writing whole.
ghost use Rattle.std.specs.Prelude.{◌≡◌, ◌<◌, ◌≤◌, length, take, IfOk, IfErr, OnOk, OnErr, IsErrOf};
ghost use Rattle.std.specs.Io.KnownBytes.{Consumes, Appends, IsAtEnd};
ghost use Rattle.hx_lists.specs.Counts.{Rose};
ghost use Rattle.hx_io.specs.Faults.{CountsFault};
ghost use Rattle.hx_io.specs.Whole.{Gave};

use crate::{Failed, Sink, Source};
use std::alloc::{AllocError, Global};
use thiserror::Error;

/// Why a source was not read to its end.
#[derive(Clone, Copy, Debug, PartialEq, Eq, Error)]
pub enum ReadFault {
    /// The source failed.
    #[error("the source failed")]
    Failed,
    /// The source gave more bytes than the limit.
    #[error("the input is too long")]
    TooLong,
    #[error("out of memory")]
    OutOfMemory,
}

/// The sink failed, and had taken the first `sent` bytes.
#[derive(Clone, Copy, Debug, PartialEq, Eq, Error)]
#[error("the sink failed after {sent} bytes")]
pub struct WriteFault {
    pub sent: u64,
}

impl From<AllocError> for ReadFault {
    ghost use Rattle.hx_io.specs.declared.whole.ReadFault.TheVariants.{OutOfMemory};

    ghost from_gives = { λ _ e. e ≡ OutOfMemory };

    fn from(_e: AllocError) -> ReadFault {
        ReadFault::OutOfMemory
    }
}

impl From<Failed> for ReadFault {
    ghost use Rattle.hx_io.specs.declared.whole.ReadFault.TheVariants.{Failed};

    ghost from_gives = { λ _ e. e ≡ Failed };

    fn from(_e: Failed) -> ReadFault {
        ReadFault::Failed
    }
}

/// How many bytes are read at once.
const PIECE: usize = 16384;

/// All bytes that are left, if there are at most `limit`. After an error the bytes read are lost.
///
/// Each turn but the last reads a byte or more, so there are at most `limit + 2` turns.
pub fn read_all<S: Source>(
    alloc: Global,
    source: &mut S,
    limit: usize,
) -> Result<Vec<u8>, ReadFault>
    ensures all { IfOk result (λ bytes.
        Consumes (S.left source.old) (S.left source.new) bytes.items) }
    ensures end { OnOk result (IsAtEnd (S.left source.new)) }

    // It is too long exactly where the source gave more bytes than the limit.
    ensures within { IfOk result (λ bytes. length bytes.items ≤ limit) }
    ensures too_long { IsErrOf result ReadFault.TooLong →
        Gave (S.left source.old) (S.left source.new) (λ bytes. limit < length bytes) }
    ensures short { IsErrOf result ReadFault.Failed →
        Gave (S.left source.old) (S.left source.new) (λ bytes. length bytes ≤ limit) }
    ensures short_of_memory { IsErrOf result ReadFault.OutOfMemory →
        Gave (S.left source.old) (S.left source.new) (λ bytes. length bytes ≤ limit) }

    // It fails only where the source did.
    ensures failed { IsErrOf result ReadFault.Failed →
        Rose (S.faults source.old) (S.faults source.new) }
    ensures later { S.faults source.old ≤ S.faults source.new }
{
    let mut bytes = Vec::new(alloc);
    let mut buf = [0u8; PIECE];
    loop {
        let n = source.read(&mut buf)?;
        if n == 0 {
            return Ok(bytes);
        }
        if n > limit - bytes.len() {
            return Err(ReadFault::TooLong);
        }
        bytes.extend_from_slice(&buf[..n])?;
    }
}

/// Writes all the bytes. It takes no memory of its own.
pub fn write_all<K: Sink>(sink: &mut K, bytes: &[u8]) -> Result<(), WriteFault>
    ensures all { OnOk result (Appends (K.got sink.old) (K.got sink.new) bytes.now) }
    ensures part { IfErr result (λ fault.
        Appends (K.got sink.old) (K.got sink.new) (take fault.sent bytes.now)) }
    ensures within { IfErr result (λ fault. fault.sent < length bytes.now) }
    ensures cause { CountsFault (K.faults sink.old) (K.faults sink.new) result }
{
    let mut sent = 0;
    while sent < bytes.len() {
        match sink.write(&bytes[sent..]) {
            Ok(n) => sent += n,
            Err(Failed) => return Err(WriteFault { sent: sent as u64 }),
        }
    }
    Ok(())
}
