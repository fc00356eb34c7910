//! A list that can be given room ahead of what it will take in.
ghost use Rattle.std.specs.Prelude.{◌≡◌, ◌+◌, ◌<◌, ◌≤◌, ◌↔◌, [], ◌∷◌, ◌++◌, length, slice_get};
ghost use Rattle.std.specs.Prelude.{option_copied, IsTrue, IsOk, OnOk, OnErr};
ghost use Rattle.std.specs.Slice.Iter.{iter_rest};

use std::alloc::{AllocError, Global};
use std::marker::Model;
use std::slice;

/// A list that only grows. Contracts see its items in order, and how many more need no memory.
#[derive(Drop)]
pub struct Log<T> {
    items: Vec<T>,
}

impl<T> Model for Log<T> {
    ghost use Rattle.std.specs.Prelude.{◌-◌, vec_len, vec_capacity};
    ghost use Rattle.hx_lists.specs.Log.{Log as Seen, log_code};

    ghost Value = { Seen T };

    ghost coded = { log_code T.code };

    ghost view = { λ a. record {
      items = a.items.items;
      spare = vec_capacity a.items - vec_len a.items;
    } };
}

impl<T: Drop> Log<T> {
    /// A log without items.
    pub fn new(alloc: Global) -> Log<T>
        ensures items { result.items ≡ [] }
        ensures spare { result.spare ≡ 0 }
    {
        Log {
            items: Vec::new(alloc),
        }
    }

    /// How many items there are.
    pub fn len(&self) -> usize
        ensures { result ≡ length self.now.items }
    {
        self.items.len()
    }

    /// Whether there are none.
    pub fn is_empty(&self) -> bool
        ensures { IsTrue result ↔ (self.now.items ≡ []) }
    {
        self.items.is_empty()
    }

    /// The items.
    pub fn as_slice(&self) -> &[T]
        ensures { result.now ≡ self.now.items }
    {
        self.items.as_slice()
    }

    /// The items in order.
    pub fn iter(&self) -> slice::Iter<'_, T>
        ensures { iter_rest result ≡ self.now.items }
    {
        self.items.iter()
    }

    /// The item in a place.
    pub fn get(&self, place: usize) -> Option<&T>
        ensures { option_copied result ≡ slice_get self.now.items place }
    {
        self.items.get(place)
    }

    /// How many items more need no memory.
    pub fn spare(&self) -> usize
        ensures { result ≡ self.now.spare }
    {
        self.items.capacity() - self.items.len()
    }

    /// Makes room for so many items more.
    pub fn reserve(&mut self, additional: usize) -> Result<(), AllocError>
        ensures room { OnOk result (additional ≤ self.new.spare) }
        ensures items { self.new.items ≡ self.old.items }
        ensures spare { self.old.spare ≤ self.new.spare }

        // It fails only where there was no room, and then nothing changes.
        ensures succeeds { additional ≤ self.old.spare → IsOk result }
        ensures err { OnErr result (self.new ≡ self.old) }
    {
        self.items.reserve(additional)
    }

    /// Adds an item at the end. It takes no memory.
    pub fn push_reserved(&mut self, value: T)
        requires { 0 < self.old.spare }
        ensures items { self.new.items ≡ self.old.items ++ value ∷ [] }
        ensures spare { self.new.spare + 1 ≡ self.old.spare }
    {
        self.items.push_reserved(value);
    }

    /// Adds an item at the end.
    pub fn push(&mut self, value: T) -> Result<(), AllocError>
        ensures items { OnOk result (self.new.items ≡ self.old.items ++ value ∷ []) }
        ensures spare { self.old.spare ≤ self.new.spare + 1 }

        // It fails only where there was no room, and then nothing changes.
        ensures succeeds { 0 < self.old.spare → IsOk result }
        ensures err { OnErr result (self.new ≡ self.old) }
    {
        self.reserve(1)?;
        self.push_reserved(value);
        Ok(())
    }
}

impl<'a, T: Drop> IntoIterator for &'a Log<T> {
    type Item = &'a T;

    type IntoIter = slice::Iter<'a, T>;

    ghost into_iter_gives = { λ log it. iter_rest it ≡ log.now.items };

    fn into_iter(self) -> Self::IntoIter {
        self.iter()
    }
}
