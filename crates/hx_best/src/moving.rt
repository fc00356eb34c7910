//! The targets of the parts that don't stand still.
ghost use Rattle.std.specs.Prelude.{◌≡◌, ◌<◌, ◌≤◌, ◌++◌, ℕ, true, false, Some, List, filter};
ghost use Rattle.std.specs.Prelude.{option_copied, IfOk, OnOk};
ghost use Rattle.hx_cluster.specs.declared.planning.Target.{Target};
ghost use Rattle.hx_cluster.specs.Ends.{resource_at};
ghost use Rattle.hx_best.specs.Targets.{targets_at, targets_in, all_targets};
ghost use Rattle.hx_parts.specs.Marks.{is_marked};
ghost use Rattle.hx_best.specs.Still.{HasMoving, is_among, those_among};

use crate::aims::Room;
use crate::lookups::Index;
use crate::marks::{Shown, number};
use crate::places::Places;
use hx_cluster::{Resource, Target};
use hx_ids::{PartId, ResourceId};
use hx_model::Model;
use hx_parts::Marks;
use std::alloc::{AllocError, Global};

/// For so many targets room is made at once. Of many parts few may move.
const FEW: usize = 64;

impl Shown<'_> {
    /// Adds the targets of the part, unless it stands still.
    fn add_moving(&self, room: &mut Room, found: &mut Vec<Target>) -> Result<(), AllocError>
        requires { resource_at self.now.0.view.ideals.resources self.now.1.resource
            ≡ Some self.now.0.resource }
        ensures { (all : List Target) → HasMoving self.now.0.models self.now.0.view all found.old.items
            → OnOk result
            (HasMoving self.now.0.models self.now.0.view
            (all
            ++ targets_at self.now.0.models self.now.0.view self.now.0.resource self.now.1)
            found.new.items) }
    {
        if self.is_still(&mut room.list)? {
            return Ok(());
        }
        self.add_targets(room, found)
    }
}

/// The first part of a resource from an index on that is gone over, or the number of its parts. All
/// are gone over where none are marked.
fn next_among(marks: Option<&Marks>, resource: ResourceId, from: u32, count: u32) -> u32
    requires { from ≤ count }
    ensures behind { from ≤ result }
    ensures within { result ≤ count }
    ensures skipped { (k : ℕ) → from ≤ k → k < result
        → is_among (option_copied marks.entry) (record { resource = resource; index = k }) ≡ false }
    ensures found { result < count
        → is_among (option_copied marks.entry) (record { resource = resource; index = result })
        ≡ true }
{
    match marks {
        Some(marks) => marks.next(resource, from, count),
        None => from,
    }
}

/// Adds those of a resource's targets.
fn add_moving_of(
    places: &Places<'_>,
    resource: ResourceId,
    marks: Option<&Marks>,
    room: &mut Room,
    found: &mut Vec<Target>,
) -> Result<(), AllocError>
    requires { resource_at places.now.view.ideals.resources resource ≡ Some places.now.resource }
    ensures { (all : List Target) → HasMoving places.now.models places.now.view all found.old.items
        → OnOk result
        (HasMoving places.now.models places.now.view
        (all
        ++ those_among (option_copied marks.entry)
        (targets_in places.now.models places.now.view resource places.now.resource))
        found.new.items) }
{
    let count = places.resource().ideal.parts();
    let mut index = next_among(marks, resource, 0, count);
    while index < count {
        let shown = Shown::of(&*places, PartId { resource, index });
        shown.add_moving(room, found)?;
        index = next_among(marks, resource, index + 1, count);
    }
    Ok(())
}

/// Adds those of a resource of the index.
#[inline(always)]
fn add_moving_in(
    alloc: Global,
    models: &[Model],
    index: &Index<'_>,
    resource: ResourceId,
    shown: &Resource,
    marks: Option<&Marks>,
    room: &mut Room,
    found: &mut Vec<Target>,
) -> Result<(), AllocError>
    requires { resource_at index.now.ideals.resources resource ≡ Some shown.now }
    ensures { (all : List Target) → HasMoving models.now index.now all found.old.items
        → OnOk result
        (HasMoving models.now index.now
        (all
        ++ those_among (option_copied marks.entry)
        (targets_in models.now index.now resource shown.now))
        found.new.items) }
{
    let places = Places::of(alloc, &*index, models, shown)?;
    add_moving_of(&places, resource, marks, room, found)
}

/// Adds those of all resources. The room is the same for all of them, so that what it takes is
/// allocated once.
#[inline(always)]
fn add_moving_among(
    alloc: Global,
    models: &[Model],
    index: &Index<'_>,
    marks: Option<&Marks>,
    found: &mut Vec<Target>,
) -> Result<(), AllocError>
    ensures { (all : List Target) → HasMoving models.now index.now all found.old.items
        → OnOk result
        (HasMoving models.now index.now
        (all
        ++ those_among (option_copied marks.entry) (all_targets models.now index.now))
        found.new.items) }
{
    let resources = index.view().ideals.resources.as_slice();
    let count = number(resources.len())?;
    let mut room = Room::new(alloc);
    for number in 0..count {
        let shown = &resources[number as usize];
        add_moving_in(
            alloc,
            models,
            index,
            ResourceId(number),
            shown,
            marks,
            &mut room,
            found,
        )?;
    }
    Ok(())
}

/// Those of all resources.
fn moving_among(
    alloc: Global,
    models: &[Model],
    index: &Index<'_>,
    marks: Option<&Marks>,
) -> Result<Vec<Target>, AllocError>
    ensures { IfOk result (λ found.
        HasMoving models.now index.now
        (those_among (option_copied marks.entry) (all_targets models.now index.now)) found.items) }
{
    let mut found = Vec::with_capacity(alloc, index.view().rows.len().min(FEW))?;
    add_moving_among(alloc, models, index, marks, &mut found)?;
    Ok(found)
}

/// The targets of all resources, in order of number, but for parts that are found to stand still.
/// These cost no walk over the shown sessions. More than 4,294,967,295 resources are want of memory.
#[tactic(auto, using(crate::proofs::Moves::all_among))]
pub fn moving_targets(
    alloc: Global,
    models: &[Model],
    index: &Index<'_>,
) -> Result<Vec<Target>, AllocError>
    ensures { IfOk result (λ found.
        HasMoving models.now index.now (all_targets models.now index.now) found.items) }
{
    moving_among(alloc, models, index, None)
}

/// The same of the marked parts alone.
pub fn moving_targets_of(
    alloc: Global,
    models: &[Model],
    index: &Index<'_>,
    marks: &Marks,
) -> Result<Vec<Target>, AllocError>
    ensures { IfOk result (λ found.
        HasMoving models.now index.now
        (filter (λ t. is_marked marks.now t.part) (all_targets models.now index.now))
        found.items) }
{
    moving_among(alloc, models, index, Some(marks))
}
