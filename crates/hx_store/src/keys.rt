//! Keys in order.
ghost use Rattle.std.specs.Prelude.{◌≡◌, ℕ, not, ◌&&◌, ◌||◌, ◌==◌, [], IsTrue, OnOk, OnErr};
ghost use Rattle.std.specs.List.{list_any};
ghost use Rattle.std.specs.List.Sorted.{IsStrictlySortedBy};
ghost use Rattle.std.specs.Ordering.{nat_cmp};
ghost use Rattle.std.specs.VecDeque.{deque_len};
ghost use Rattle.std.specs.VecDeque.Iter.{deque_iter_rest};
ghost use Rattle.hx_store.specs.Owners.{IsFirstFrom};
ghost use Rattle.hx_store.specs.Places.{IsGapFor, IsPlaceOf};

use std::alloc::{AllocError, Global};
use std::collections::{VecDeque, vec_deque};
use std::marker::Model;

/// Keys, in order. One above all others comes to the end, and the first goes, without a search.
/// Contracts see the list of them.
#[derive(Drop)]
pub(crate) struct Keys {
    keys: VecDeque<u64>,
}

impl Model for Keys {
    ghost use Rattle.std.specs.Prelude.{List, ℕ};
    ghost use Rattle.std.specs.List.Sorted.{IsStrictlySortedBy};
    ghost use Rattle.std.specs.Ordering.{nat_cmp};

    ghost Value = { List ℕ };

    ghost view = { λ a. a.keys.items };

    ghost invariant = { λ a. IsStrictlySortedBy nat_cmp a.keys.items };
}

impl Keys {
    /// No keys.
    pub(crate) fn new(alloc: Global) -> Keys
        ensures { result ≡ [] }
    {
        Keys {
            keys: VecDeque::new(alloc),
        }
    }

    /// The keys, in order.
    pub(crate) fn iter(&self) -> vec_deque::Iter<'_, u64>
        ensures rest { deque_iter_rest result ≡ self.now }
        ensures ordered { IsStrictlySortedBy nat_cmp self.now }
    {
        self.keys.iter()
    }

    /// The first key from one on. It takes no memory.
    pub(crate) fn first_from(&self, from: u64) -> Option<u64>
        ensures { IsFirstFrom (λ k. list_any (λ j. k == j) self.now) from result }
    {
        match place_of(&self.keys, from) {
            Ok(_) => Some(from),
            Err(place) => self.keys.get(place).copied(),
        }
    }

    /// Puts a key into its place.
    pub(crate) fn insert(&mut self, key: u64) -> Result<(), AllocError>
        ensures ok { OnOk result ((k : ℕ)
            → list_any (λ j. k == j) self.new ≡ (list_any (λ j. k == j) self.old || (key == k))) }
        ensures err { OnErr result (self.new ≡ self.old) }
    {
        match place_of(&self.keys, key) {
            Ok(_) => {}
            Err(place) if place == self.keys.len() => self.keys.push_back(key)?,
            Err(place) => self.keys.insert(place, key)?,
        }
        Ok(())
    }

    /// Takes a key out, if it is there. It takes no memory.
    pub(crate) fn remove(&mut self, key: u64)
        ensures { (k : ℕ) → list_any (λ j. k == j) self.new
            ≡ (list_any (λ j. k == j) self.old && not (key == k)) }
    {
        match place_of(&self.keys, key) {
            Ok(0) => {
                self.keys.pop_front();
            }
            Ok(place) => {
                self.keys.remove(place);
            }
            Err(_) => {}
        }
    }
}

// Whether there are keys, and all are below one.
fn ends_below(keys: &VecDeque<u64>, key: u64) -> bool
    requires { IsStrictlySortedBy nat_cmp keys.now.items }
    ensures { IsTrue result → IsGapFor keys.now.items key (deque_len keys.now) }
{
    match keys.back() {
        Some(last) => *last < key,
        None => false,
    }
}

// The place of a key, or the one where it would stand.
fn place_of(keys: &VecDeque<u64>, key: u64) -> Result<usize, usize>
    requires { IsStrictlySortedBy nat_cmp keys.now.items }
    ensures { IsPlaceOf keys.now.items key result }
{
    match keys.front() {
        Some(first) if *first == key => Ok(0),
        _ if ends_below(keys, key) => Err(keys.len()),
        _ => keys.binary_search(&key),
    }
}
