//! What a pass finds of a view, and of the marked parts of a view.
ghost use Rattle.std.specs.Prelude.{◌≡◌, ◌&&◌, ◌++◌, true, map, nat_lt, IfOk, OnOk};
ghost use Rattle.std.specs.List.{list_any};
ghost use Rattle.std.specs.List.Sorted.{IsSortedBy};
ghost use Rattle.hx_ids.specs.declared.PartId.{PartId};
ghost use Rattle.hx_cluster.specs.declared.planning.View.{View};
ghost use Rattle.hx_cluster.specs.Ends.{part_eq};
ghost use Rattle.hx_gen.specs.Modelled.{has_models};
ghost use Rattle.hx_parts.specs.Parts.{items_at, IsByPart};
ghost use Rattle.hx_parts.specs.Marks.{are_rising, is_marked};
ghost use Rattle.hx_pass.specs.Local.{accepted_within, candidates_within};
ghost use Rattle.hx_pass.specs.Turns.{posted_of, seen_of};
ghost use Rattle.hx_pass.specs.Waiting.{HasWaiting};

use crate::choices::{Choice, choose_on};
use crate::posts::posted;
use hx_best::{Index, moving_targets_of};
use hx_cluster::{Row, Seen, View};
use hx_gen::candidates;
use hx_hops::Hops;
use hx_ids::{InstanceId, PartId};
use hx_model::Model;
use hx_parts::Marks;
use hx_throttle::Shown;
use std::alloc::{AllocError, Global};

/// What is chosen of the candidates among the targets of the marked parts.
fn choice_among(
    alloc: Global,
    models: &[Model],
    hops: &[Hops],
    index: &Index<'_>,
    marks: &Marks,
) -> Result<Choice, AllocError>
    requires hops { hops.now ≡ models.now }
    requires models { has_models models.now index.now ≡ true }
    ensures accepted { IfOk result (λ choice.
        choice.accepted ≡ accepted_within models.now (is_marked marks.now) index.now) }
    ensures waiting { IfOk result (λ choice.
        HasWaiting (candidates_within models.now (is_marked marks.now) index.now)
        choice.accepted choice.waiting.items) }
{
    let view = index.view();
    let targets = moving_targets_of(alloc, models, index, marks)?;
    let candidates = candidates(alloc, models, hops, view, targets.as_slice())?;
    choose_on(alloc, models, index.shown(), candidates)
}

/// Adds rows with the instances of their sessions.
fn push_rows(seen: &mut Vec<Seen>, live: &Shown<'_>, rows: &[Row]) -> Result<(), AllocError>
    ensures { OnOk result ((view : View) → live.now ≡ view.live
        → seen.new.items ≡ seen.old.items ++ map (seen_of view) rows.now) }
{
    for row in rows {
        seen.push(Seen {
            instance: live.instance_of(row.session).unwrap_or(InstanceId(0)),
            part: row.part,
            state: row.state,
        })?;
    }
    Ok(())
}

/// Whether no row is of the same part as the one before it and of a lower instance.
fn rise(rows: &[Seen]) -> bool
    ensures { result ≡ true
        → IsSortedBy (λ a b. part_eq a.part b.part && nat_lt a.instance.0 b.instance.0) rows.now }
{
    for place in 1..rows.len() {
        if rows[place].instance < rows[place - 1].instance
            && rows[place].part == rows[place - 1].part
        {
            return false;
        }
    }
    true
}

/// The rows to post of some parts; maybe others too.
fn posted_among(alloc: Global, index: &Index<'_>, parts: &[PartId]) -> Result<Vec<Seen>, AllocError>
    requires { are_rising parts.now ≡ true }
    ensures by_part { IfOk result (λ rows. IsByPart (λ s. s.part) rows.items) }
    ensures at { IfOk result (λ rows. (p : PartId) → list_any (part_eq p) parts.now ≡ true
        → items_at (λ s. s.part) p rows.items
        ≡ items_at (λ s. s.part) p (posted_of index.now)) }
{
    let view = index.view();
    let live = Shown::new(alloc, view.live.as_slice())?;
    let mut rows = Vec::with_capacity(alloc, view.rows.len())?;
    for part in parts {
        push_rows(&mut rows, &live, index.shown().rows_at(*part))?;
    }
    if rise(rows.as_slice()) {
        Ok(rows)
    } else {
        posted(alloc, view)
    }
}

/// The marked parts in order, and what is found of them: what is chosen of the candidates, and the
/// rows to post.
pub(crate) struct Found {
    pub parts: Vec<PartId>,
    pub choice: Choice,
    pub posted: Vec<Seen>,
}

// A derived drop is written out, field by field, wherever one is dropped; this is a call.
impl Drop for Found {
    fn drop(self) {
        let Found {
            parts: _,
            choice: _,
            posted: _,
        } = self;
    }
}

/// What is found of the marked parts of a view.
pub(crate) fn found_among(
    alloc: Global,
    models: &[Model],
    hops: &[Hops],
    view: &View,
    marks: &Marks,
) -> Result<Found, AllocError>
    requires hops { hops.now ≡ models.now }
    requires models { has_models models.now view.now ≡ true }
    ensures rising { IfOk result (λ found. are_rising found.parts.items ≡ true) }
    ensures marked { IfOk result (λ found. (p : PartId)
        → list_any (part_eq p) found.parts.items ≡ is_marked marks.now p) }
    ensures accepted { IfOk result (λ found.
        found.choice.accepted ≡ accepted_within models.now (is_marked marks.now) view.now) }
    ensures waiting { IfOk result (λ found.
        HasWaiting (candidates_within models.now (is_marked marks.now) view.now)
        found.choice.accepted found.choice.waiting.items) }
    ensures by_part { IfOk result (λ found. IsByPart (λ s. s.part) found.posted.items) }
    ensures posted { IfOk result (λ found. (p : PartId)
        → list_any (part_eq p) found.parts.items ≡ true
        → items_at (λ s. s.part) p found.posted.items
        ≡ items_at (λ s. s.part) p (posted_of view.now)) }
{
    let index = Index::of(alloc, view)?;
    let parts = marks.parts(alloc)?;
    let choice = choice_among(alloc, models, hops, &index, marks)?;
    let posted = posted_among(alloc, &index, parts.as_slice())?;
    Ok(Found {
        parts,
        choice,
        posted,
    })
}
