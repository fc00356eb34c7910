//! Walks over what a session owns.
ghost use Rattle.std.specs.Iterator.{YieldsFirstRef, item_count};

use crate::shelf::Shelf;
use std::collections::vec_deque;
use std::marker::Model;

/// The values of a session's records, in order of key. Contracts see those that are left.
#[derive(Drop)]
pub struct Owned<'a, V> {
    pub(crate) keys: Option<vec_deque::Iter<'a, u64>>,
    pub(crate) records: &'a Shelf<V>,
}

impl<'a, V> Model for Owned<'a, V> {
    ghost use Rattle.std.specs.Prelude.{List};
    ghost use Rattle.hx_store.specs.Walks.{keys_left, values_at, HaveRecords};

    ghost Value = { List V };

    ghost view = { λ a. values_at a.records.now (keys_left a.keys) };

    ghost invariant = { λ a. HaveRecords a.records.now (keys_left a.keys) };
}

impl<'a, V: Drop> Iterator for Owned<'a, V> {
    type Item = &'a V;

    ghost next_gives = { YieldsFirstRef (λ left. left) };

    ghost remaining = { item_count (λ left. left) };

    #[inline]
    fn next(&mut self) -> Option<&'a V> {
        let Some(keys) = &mut self.keys else {
            return None;
        };
        let key = keys.next()?;
        let record = self.records.get(*key)?;
        Some(&record.value)
    }
}
