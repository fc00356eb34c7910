//! What is counted of a history without a look at each event.
ghost use Rattle.std.specs.Prelude.{◌≡◌, ◌^◌, ◌<◌, length};
ghost use Rattle.hx_lists.specs.Lists.{count};
ghost use Rattle.hx_history.specs.Counted.{is_write_of};

use crate::kinds::Kind;
use hx_cluster::{Event, Outcome};

/// The events that are kept as they are, and how many of the others are writes, by outcome.
#[derive(Clone, Copy)]
pub struct Counted<'a> {
    pub kept: &'a [Event],
    pub ok: usize,
    pub failed: usize,
}

/// Whether a kind is that of a write of an outcome.
fn is_write_of(outcome: Outcome, kind: Kind) -> bool
    ensures { result ≡ is_write_of outcome kind }
{
    match outcome {
        Outcome::Ok => matches!(kind, Kind::WriteOk | Kind::LongWriteOk),
        Outcome::Failed => matches!(kind, Kind::WriteFailed | Kind::LongWriteFailed),
    }
}

/// How many kinds are counted at a time, in a byte each.
const FEW: usize = 255;

/// How many of a few kinds are that of a write of an outcome.
fn writes_of_few(outcome: Outcome, kinds: &[Kind]) -> u8
    requires { length kinds.now < 2 ^ 8 }
    ensures { result ≡ count (is_write_of outcome) kinds.now }
{
    // Nothing branches on a kind, so that several are counted at once.
    let mut found = 0;
    for kind in kinds {
        found += is_write_of(outcome, *kind) as u8;
    }
    found
}

/// How many kinds are that of a write of an outcome.
pub(crate) fn writes_of(outcome: Outcome, kinds: &[Kind]) -> usize
    ensures { result ≡ count (is_write_of outcome) kinds.now }
{
    let mut found = 0;
    let mut rest = kinds;
    while !rest.is_empty() {
        let (few, later) = rest.split_at(rest.len().min(FEW));
        found += writes_of_few(outcome, few) as usize;
        rest = later;
    }
    found
}
