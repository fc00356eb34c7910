//! The view that was planned last.
ghost use Rattle.std.specs.Prelude.{◌≡◌, true, false, IfOk, OnOk, IsTrue};
ghost use Rattle.hx_ids.specs.declared.PartId.{PartId};
ghost use Rattle.hx_cluster.specs.Reads.{nothing_shown};
ghost use Rattle.hx_parts.specs.Marks.{is_marked};
ghost use Rattle.hx_pass.specs.Local.{IsAlike, ShowSame, narrowed as narrowed_of};

use hx_calls::{Same, ideals_over, no_ideals, nothing_shown};
use hx_cluster::{Ideals, Message, Row, View};
use hx_lists::Seq;
use hx_parts::{Marks, keep_marked, mark_changes};
use std::alloc::{AllocError, Global};
use std::snapshot::Snapshot;
use std::{marker, mem};

/// The view that was planned last. Contracts see it. Its sessions and what was wanted are copied;
/// its messages and rows are taken over once the turn that was shown them ends, and then they are
/// held. The lists for the marked parts serve again each time.
pub(crate) struct Kept {
    view: Snapshot<View>,
    lists: View,
    held: bool,
    mail: Seq<Message>,
    rows: Seq<Row>,
}

// A derived drop is written out, field by field, wherever one is dropped; this is a call.
impl Drop for Kept {
    fn drop(self) {
        let Kept {
            view: _,
            lists: _,
            held: _,
            mail: _,
            rows: _,
        } = self;
    }
}

impl marker::Model for Kept {
    ghost use Rattle.hx_cluster.specs.declared.planning.View.{View};
    ghost use Rattle.hx_pass.specs.Kept.{IsKept};

    ghost Value = { View };

    ghost view = { λ a. a.view.value };

    ghost invariant = { λ a. IsKept a.view.value a.lists a.held };
}

/// A view with the rows and messages of the marked parts alone, and two lists that aren't in use
/// meanwhile.
pub(crate) struct Narrow {
    pub view: View,
    mail: Seq<Message>,
    rows: Seq<Row>,
}

// This is a call, too.
impl Drop for Narrow {
    fn drop(self) {
        let Narrow {
            view: _,
            mail: _,
            rows: _,
        } = self;
    }
}

/// Whether what is wanted is the same.
fn same_ideals(ideals: &Ideals, others: &Ideals) -> bool
    ensures { IsTrue result → ideals.now ≡ others.now }
{
    ideals.resources.same(&others.resources)
        && ideals.drained.same(&others.drained)
        && ideals.resets.same(&others.resets)
}

/// Gives lists the sessions and what is wanted of a view. What they have of what is wanted in the
/// same place is kept, and takes no memory.
fn show_like(lists: &mut View, view: &View) -> Result<(), AllocError>
    ensures { OnOk result (IsAlike lists.new view.now) }
{
    lists.live = view.live.clone()?;
    let none = no_ideals(view.live.allocator());
    let ideals = mem::replace(&mut lists.ideals, none);
    lists.ideals = ideals_over(&view.ideals, ideals)?;
    Ok(())
}

impl Kept {
    /// Nothing, for which nothing was planned. It takes no memory.
    pub fn nothing(alloc: Global) -> Kept
        ensures { result ≡ nothing_shown }
    {
        let lists = nothing_shown(alloc);
        Kept {
            view: Snapshot::of(&lists),
            lists,
            held: false,
            mail: Seq::new(alloc),
            rows: Seq::new(alloc),
        }
    }

    /// Another view, whose messages and rows aren't held. What this one has of what is wanted in the
    /// same place is kept, and takes no memory; the room of its messages and rows serves again.
    pub fn over(self, view: &View) -> Result<Kept, AllocError>
        ensures { IfOk result (λ kept. kept ≡ view.now) }
    {
        let Kept {
            view: _,
            mut lists,
            held: _,
            mail,
            rows,
        } = self;
        show_like(&mut lists, view)?;
        Ok(Kept {
            view: Snapshot::of(view),
            lists,
            held: false,
            mail,
            rows,
        })
    }

    /// Takes over the messages and rows of the view itself, and leaves it others in their place.
    pub fn hold(&mut self, view: &mut View)
        requires { view.old ≡ self.old }
        ensures kept { self.new ≡ self.old }
        ensures alike { IsAlike view.new view.old }
    {
        mem::swap(&mut self.lists.mail, &mut view.mail);
        mem::swap(&mut self.lists.rows, &mut view.rows);
        self.held = true;
    }

    /// Whether another view shows the same sessions and the same to be wanted. Where it is known to
    /// want the same, that isn't looked at.
    pub fn is_like(&self, view: &View, wants_same: bool) -> bool
        requires { wants_same ≡ true → self.now.ideals ≡ view.now.ideals }
        ensures { IsTrue result → IsAlike self.now view.now }
    {
        self.lists.live.same(&view.live)
            && (wants_same || same_ideals(&self.lists.ideals, &view.ideals))
    }

    /// Marks the parts of which another view shows other rows or messages. It says no where there
    /// is no room for one of these, and where its own aren't held.
    pub fn mark_changes(&self, view: &View, marks: &mut Marks) -> bool
        ensures { IsTrue result → (p : PartId) → is_marked marks.new p ≡ false
            → (is_marked marks.old p ≡ false) × ShowSame self.now view.now p }
    {
        self.held
            && mark_changes(marks, self.lists.mail.as_slice(), view.mail.as_slice())
            && mark_changes(marks, self.lists.rows.as_slice(), view.rows.as_slice())
    }

    /// A view with the rows and messages of the marked parts alone. The sessions, and what is
    /// wanted, are those of this one.
    pub fn narrowed(self, view: &View, marks: &Marks) -> Result<Narrow, AllocError>
        requires { IsAlike self view.now }
        ensures { IfOk result (λ narrow.
            narrow.view ≡ narrowed_of (is_marked marks.now) view.now) }
    {
        let Kept {
            view: _,
            mut lists,
            held: _,
            mut mail,
            mut rows,
        } = self;
        mem::swap(&mut lists.mail, &mut mail);
        mem::swap(&mut lists.rows, &mut rows);
        keep_marked(&mut lists.mail, view.mail.as_slice(), marks)?;
        keep_marked(&mut lists.rows, view.rows.as_slice(), marks)?;
        Ok(Narrow {
            view: lists,
            mail,
            rows,
        })
    }
}

impl Narrow {
    /// A view, of which this one has the sessions and what is wanted.
    pub fn widened(self, view: &View) -> Kept
        requires { IsAlike self.view view.now }
        ensures { result ≡ view.now }
    {
        let Narrow {
            view: mut lists,
            mut mail,
            mut rows,
        } = self;
        mem::swap(&mut lists.mail, &mut mail);
        mem::swap(&mut lists.rows, &mut rows);
        Kept {
            view: Snapshot::of(view),
            lists,
            held: false,
            mail,
            rows,
        }
    }
}
