//! A board, and the room of its history.
ghost use Rattle.std.specs.Prelude.{◌≡◌, ◌+◌, ◌≤◌, [], ◌∷◌, ◌++◌, OnOk};
ghost use Rattle.hx_board.specs.Refusals.{full};

use hx_cluster::{Event, Spec};
use hx_history::History;
use hx_records::Records;
use std::alloc::AllocError;
use std::marker::Model;

/// A cluster with its history. Each call that is answered is one event of it; a refused call
/// changes nothing.
pub struct Board {
    pub(crate) spec: Spec,
    pub(crate) records: Records,
    pub(crate) history: History,
    /// The numbers of the script's lines, and how many were taken.
    pub(crate) lines: Vec<u32>,
    pub(crate) taken: usize,
    /// What the history weighs, with the charges.
    pub(crate) weight: u64,
    pub(crate) charges: u64,
    pub(crate) limit: u64,
    /// At least as many events as were paid for and may still come.
    pub(crate) owed: usize,
}

impl Model for Board {
    ghost use Rattle.hx_board.specs.Board.{Held, held, IsBoard};

    ghost Value = { Held };

    ghost view = { held };

    ghost invariant = { IsBoard };
}

// A derived drop is written out, field by field, wherever one is dropped; this is a call.
impl Drop for Board {
    fn drop(self) {
        let Board {
            spec: _,
            records: _,
            history: _,
            lines: _,
            taken: _,
            weight: _,
            charges: _,
            limit: _,
            owed: _,
        } = self;
    }
}

impl Board {
    /// What the history weighs, where it has no room for so much more.
    pub(crate) fn full(&self, more: u64) -> Option<u64>
        ensures { result ≡ full self.now more (λ weight. weight) }
    {
        if self.limit - self.weight < more {
            Some(self.weight)
        } else {
            None
        }
    }
}

/// Makes room in a history for so many events more than are owed.
#[inline(always)]
pub(crate) fn make_room(history: &mut History, owed: usize, more: usize) -> Result<(), AllocError>
    ensures items { history.new.entries.items ≡ history.old.entries.items }
    ensures spare { history.old.entries.spare ≤ history.new.entries.spare }
    ensures room { OnOk result (owed + more ≤ history.new.entries.spare) }
{
    let room = owed.checked_add(more).ok_or(AllocError)?;
    history.entries.reserve(room)
}

/// Records an event in room that was made.
#[inline(always)]
pub(crate) fn record(history: &mut History, event: Event)
    requires { 1 ≤ history.old.entries.spare }
    ensures items { history.new.entries.items ≡ history.old.entries.items ++ event ∷ [] }
    ensures spare { history.new.entries.spare + 1 ≡ history.old.entries.spare }
{
    history.entries.push_reserved(event);
}
