//! Walks over the entries of a history.
ghost use Rattle.std.specs.Iterator.{YieldsFirstBy, item_count};
ghost use Rattle.hx_history.specs.Told.{event_in};

use crate::kinds::Kind;
use crate::told::{Told, tell};
use hx_cluster::Event;
use std::alloc::Global;
use std::marker::Model;

/// The events of a history in order. Contracts see those that are left.
#[derive(Drop)]
pub struct Walk<'a> {
    pub(crate) alloc: Global,
    pub(crate) kinds: &'a [Kind],
    pub(crate) words: &'a [u32],
    pub(crate) whole: &'a [Event],
}

impl<'a> Model for Walk<'a> {
    ghost use Rattle.std.specs.Prelude.{List};
    ghost use Rattle.hx_cluster.specs.declared.happenings.Event.{Event};
    ghost use Rattle.hx_history.specs.Columns.{events_of, Fit};

    ghost Value = { List Event };

    ghost view = { λ a. events_of a.kinds.now a.words.now a.whole.now };

    ghost invariant = { λ a. Fit a.kinds.now a.words.now a.whole.now };
}

impl<'a> Iterator for Walk<'a> {
    type Item = Told<'a>;

    ghost next_gives = { YieldsFirstBy event_in (λ left. left) };

    ghost remaining = { item_count (λ left. left) };

    #[inline]
    fn next(&mut self) -> Option<Told<'a>> {
        let (kind, kinds) = self.kinds.split_first()?;
        let (words, more) = self.words.split_at(kind.words());
        let (whole, rest) = self.whole.split_at(kind.events());
        self.kinds = kinds;
        self.words = more;
        self.whole = rest;
        Some(tell(self.alloc, *kind, words, whole))
    }
}
