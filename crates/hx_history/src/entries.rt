//! The entries of a history, in columns.
ghost use Rattle.std.specs.Prelude.{◌≡◌, ◌+◌, ◌-◌, ◌<◌, ◌≤◌, ◌↔◌, [], ◌∷◌, ◌++◌, length};
ghost use Rattle.std.specs.Prelude.{slice_get, IsTrue, IsOk, OnOk, OnErr};
ghost use Rattle.std.specs.Option.{option_map};
ghost use Rattle.hx_history.specs.Counted.{IsCountedBy};
ghost use Rattle.hx_history.specs.Told.{event_in};

use crate::briefs::{brief_of, long_brief_of};
use crate::counted::{Counted, writes_of};
use crate::kinds::Kind;
use crate::told::{Told, tell};
use crate::walk::Walk;
use hx_cluster::{Event, Outcome};
use hx_lists::Log;
use std::alloc::{AllocError, Global};
use std::marker::Model;

/// For how many events at least room is made at once.
const BATCH: usize = 1 << 16;

/// All that happened, in order. Its room is made before what it records.
#[derive(Drop)]
pub struct History {
    pub entries: Entries,
}

/// Events in order, each as its kind and the words that tell it, or as it is. Contracts see the
/// events, and how many more need no memory.
pub struct Entries {
    alloc: Global,
    kinds: Log<Kind>,
    words: Log<u32>,
    whole: Log<Event>,
    /// How many events more there is room for in each column.
    spare: usize,
}

// A derived drop is written out, field by field, wherever one is dropped; this is a call.
impl Drop for Entries {
    fn drop(self) {
        let Entries {
            alloc: _,
            kinds: _,
            words: _,
            whole: _,
            spare: _,
        } = self;
    }
}

impl Model for Entries {
    ghost use Rattle.hx_lists.specs.Log.{Log as Seen};
    ghost use Rattle.hx_cluster.specs.declared.happenings.Event.{Event};
    ghost use Rattle.hx_history.specs.Columns.{events_of};

    ghost Value = { Seen Event };

    ghost view = { λ a. record {
      items = events_of a.kinds.items a.words.items a.whole.items;
      spare = a.spare;
    } };

    ghost use Rattle.hx_history.specs.Kept.{AreColumns};

    ghost invariant = { AreColumns };
}

/// Adds words at the end. It takes no memory.
#[inline(always)]
fn push_words(words: &mut Log<u32>, added: &[u32])
    requires { length added.now ≤ words.old.spare }
    ensures items { words.new.items ≡ words.old.items ++ added.now }
    ensures spare { words.new.spare + length added.now ≡ words.old.spare }
{
    for word in added {
        words.push_reserved(*word);
    }
}

impl Entries {
    /// No entries.
    pub fn new(alloc: Global) -> Entries
        ensures items { result.items ≡ [] }
        ensures spare { result.spare ≡ 0 }
    {
        Entries {
            alloc,
            kinds: Log::new(alloc),
            words: Log::new(alloc),
            whole: Log::new(alloc),
            spare: 0,
        }
    }

    /// How many items there are.
    pub fn len(&self) -> usize
        ensures { result ≡ length self.now.items }
    {
        self.kinds.len()
    }

    /// Whether there are none.
    pub fn is_empty(&self) -> bool
        ensures { IsTrue result ↔ (self.now.items ≡ []) }
    {
        self.len() == 0
    }

    /// How many items more need no memory.
    pub fn spare(&self) -> usize
        ensures { result ≡ self.now.spare }
    {
        self.spare
    }

    /// Makes room for so many items more, whatever they are. What isn't used costs an address
    /// alone, and no memory of the machine.
    pub fn reserve(&mut self, additional: usize) -> Result<(), AllocError>
        ensures room { OnOk result (additional ≤ self.new.spare) }
        ensures items { self.new.items ≡ self.old.items }
        ensures spare { self.old.spare ≤ self.new.spare }

        // It fails only where there was no room, and then nothing changes.
        ensures succeeds { additional ≤ self.old.spare → IsOk result }
        ensures err { OnErr result (self.new ≡ self.old) }
    {
        if additional <= self.spare {
            return Ok(());
        }
        self.grow(additional.max(BATCH))
    }

    /// Makes room for so many items more in each column.
    #[inline(never)]
    fn grow(&mut self, additional: usize) -> Result<(), AllocError>
        requires { self.old.spare ≤ additional }
        ensures items { self.new.items ≡ self.old.items }
        ensures spare { OnOk result (self.new.spare ≡ additional) }
        ensures err { OnErr result (self.new ≡ self.old) }
    {
        self.kinds.reserve(additional)?;
        let words = additional.checked_mul(3).ok_or(AllocError)?;
        self.words.reserve(words)?;
        self.whole.reserve(additional)?;
        self.spare = additional;
        Ok(())
    }

    /// Adds an item at the end. It takes no memory.
    #[inline(always)]
    pub fn push_reserved(&mut self, value: Event)
        requires { 0 < self.old.spare }
        ensures items { self.new.items ≡ self.old.items ++ value ∷ [] }
        ensures spare { self.new.spare + 1 ≡ self.old.spare }
    {
        let Some(brief) = brief_of(&value) else {
            self.push_long(value);
            return;
        };
        self.spare -= 1;
        self.kinds.push_reserved(brief.kind);
        push_words(&mut self.words, brief.words());
    }

    /// Adds an item of longer numbers, or one that no words tell. It takes no memory.
    #[inline(never)]
    fn push_long(&mut self, value: Event)
        requires { 0 < self.old.spare }
        ensures items { self.new.items ≡ self.old.items ++ value ∷ [] }
        ensures spare { self.new.spare + 1 ≡ self.old.spare }
    {
        self.spare -= 1;
        let Some(brief) = long_brief_of(&value) else {
            self.kinds.push_reserved(Kind::Whole);
            self.whole.push_reserved(value);
            return;
        };
        self.kinds.push_reserved(brief.kind);
        push_words(&mut self.words, brief.words());
    }

    /// Adds an item at the end.
    pub fn push(&mut self, value: Event) -> Result<(), AllocError>
        ensures items { OnOk result (self.new.items ≡ self.old.items ++ value ∷ []) }
        ensures spare { self.old.spare ≤ self.new.spare + 1 }

        // It fails only where there was no room, and then nothing changes.
        ensures succeeds { 0 < self.old.spare → IsOk result }
        ensures err { OnErr result (self.new ≡ self.old) }
    {
        self.reserve(1)?;
        self.push_reserved(value);
        Ok(())
    }

    /// The last item.
    pub fn last(&self) -> Option<Told<'_>>
        ensures { option_map event_in result
            ≡ slice_get self.now.items (length self.now.items - 1) }
    {
        let (kind, _) = self.kinds.as_slice().split_last()?;
        let words = self.words.as_slice();
        let whole = self.whole.as_slice();
        let (_, words) = words.split_at(words.len() - kind.words());
        let (_, whole) = whole.split_at(whole.len() - kind.events());
        Some(tell(self.alloc, *kind, words, whole))
    }

    /// What counts the items: those that are kept as they are, and how many others are writes.
    pub fn counted(&self) -> Counted<'_>
        ensures { IsCountedBy self.now.items result.kept.now result.ok result.failed }
    {
        let kinds = self.kinds.as_slice();
        Counted {
            kept: self.whole.as_slice(),
            ok: writes_of(Outcome::Ok, kinds),
            failed: writes_of(Outcome::Failed, kinds),
        }
    }

    /// The items in order.
    pub fn iter(&self) -> Walk<'_>
        ensures { result ≡ self.now.items }
    {
        Walk {
            alloc: self.alloc,
            kinds: self.kinds.as_slice(),
            words: self.words.as_slice(),
            whole: self.whole.as_slice(),
        }
    }
}

impl<'a> IntoIterator for &'a Entries {
    type Item = Told<'a>;

    type IntoIter = Walk<'a>;

    ghost into_iter_gives = { λ entries walk. walk ≡ entries.now.items };

    fn into_iter(self) -> Self::IntoIter {
        self.iter()
    }
}
