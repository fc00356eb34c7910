//! The targets of a resource, and of all.
ghost use Rattle.std.specs.Prelude.{◌≡◌, ◌||◌, ◌++◌, [], IfOk, OnOk, if◌then◌else◌};
ghost use Rattle.std.specs.List.{flat_map};
ghost use Rattle.std.specs.Option.{option_map_or, is_some};
ghost use Rattle.hx_best.specs.Goals.{goal as goal_of};
ghost use Rattle.hx_best.specs.Targets.{targets_at, targets_in};
ghost use Rattle.hx_best.specs.Targets.{targets as targets_of, all_targets as all_targets_of};
ghost use Rattle.hx_best.specs.Places.{mark_of, wants_at, place_past, target_at, AreVisits};

use crate::lookups::Index;
use crate::marks::{Mark, Shown, number};
use crate::places::Places;
use crate::visits::Visits;
use hx_cluster::{Target, View};
use hx_ids::{InstanceId, PartId, ResourceId, SessionId, StateId};
use hx_lists::push_some;
use hx_model::{DROPPED, ERROR, Model};
use std::alloc::{AllocError, Global};

/// What parts that are gone over one after another share: a list of instances, and visits.
pub struct Room {
    pub list: Vec<InstanceId>,
    pub visits: Visits,
}

// A derived drop is written out, field by field, wherever one is dropped; this is a call.
impl Drop for Room {
    fn drop(self) {
        let Room { list: _, visits: _ } = self;
    }
}

impl Room {
    /// A room with nothing in it.
    pub fn new(alloc: Global) -> Room {
        Room {
            list: Vec::new(alloc),
            visits: Visits::new(alloc),
        }
    }
}

impl Shown<'_> {
    /// The goal of a session's replica, by the mark of its instance.
    fn goal(&self, session: SessionId, instance: InstanceId, mark: Option<Mark>) -> StateId
        requires { mark ≡ mark_of self.now.0 self.now.1 (wants_at self.now.0 self.now.1) instance }
        ensures { result
            ≡ goal_of self.now.0.models self.now.0.view self.now.0.resource self.now.1 session
            instance }
    {
        let places = self.places();
        if self.is_in_error(session) {
            return if self.is_asked(session) {
                places.initial()
            } else {
                ERROR
            };
        }
        if places.resource().dropped {
            return DROPPED;
        }
        match mark {
            Some(mark) => {
                if places.index().is_drained(instance) {
                    places.initial()
                } else {
                    mark.goal
                }
            }
            None => DROPPED,
        }
    }

    /// The place of an instance, by its mark, or that of where the part isn't wanted.
    fn place(&self, mark: Option<Mark>, past: u32) -> u32
        ensures { result
            ≡ (if self.now.0.resource.dropped then 0 else option_map_or (λ m. m.place) mark past) }
    {
        if self.places().resource().dropped {
            return 0;
        }
        match mark {
            Some(mark) => mark.place,
            None => past,
        }
    }

    /// The target of a shown session, if it has a row or one is wanted on its instance.
    fn target(
        &self,
        shown: (SessionId, InstanceId),
        mark: Option<Mark>,
        past: u32,
    ) -> Option<Target>
        requires marked { mark
            ≡ mark_of self.now.0 self.now.1 (wants_at self.now.0 self.now.1) shown.1 }
        requires behind { past ≡ place_past (wants_at self.now.0 self.now.1) }
        ensures { result ≡ target_at self.now.0 self.now.1 shown }
    {
        let state = self.state_of(shown.0);
        if !is_one(state, mark) {
            return None;
        }
        Some(Target {
            session: shown.0,
            instance: shown.1,
            part: self.part(),
            state,
            goal: self.goal(shown.0, shown.1, mark),
            place: self.place(mark, past),
        })
    }

    /// Visits the sessions that may have a target of the part: those on instances where one is wanted,
    /// and those that have a row. It answers the place of where none is wanted.
    fn visits(&self, room: &mut Room) -> Result<u32, AllocError>
        ensures { IfOk result (λ past.
            AreVisits self.now.0 self.now.1 room.new.visits past) }
    {
        room.visits.clear();
        let past = self.mark(&mut room.list, &mut room.visits)?;
        self.visit_rows(&mut room.visits)?;
        Ok(past)
    }

    /// Adds the targets of the visited sessions, in order.
    fn push_targets(
        &self,
        visits: &Visits,
        past: u32,
        found: &mut Vec<Target>,
    ) -> Result<(), AllocError>
        requires { AreVisits self.now.0 self.now.1 visits.now past }
        ensures { OnOk result (
            found.new.items
            ≡ found.old.items
            ++ targets_at self.now.0.models self.now.0.view self.now.0.resource self.now.1) }
    {
        let live = self.places().index().live();
        for visit in visits.as_slice() {
            push_some(found, self.target(live[visit.number], visit.mark, past))?;
        }
        Ok(())
    }

    /// Adds the targets of the part, in order of instance. It costs what the part has: its rows, and
    /// the entries of its list or map. What the room has doesn't matter.
    pub fn add_targets(&self, room: &mut Room, found: &mut Vec<Target>) -> Result<(), AllocError>
        ensures { OnOk result (
            found.new.items
            ≡ found.old.items
            ++ targets_at self.now.0.models self.now.0.view self.now.0.resource self.now.1) }
    {
        if self.add_listed(&mut room.list, found)? {
            return Ok(());
        }
        let past = self.visits(room)?;
        self.push_targets(&room.visits, past, found)
    }
}

/// Whether a replica stands or is wanted.
fn is_one(state: Option<StateId>, mark: Option<Mark>) -> bool
    ensures { result ≡ (is_some state || is_some mark) }
{
    state.is_some() || mark.is_some()
}

/// Adds the targets of a resource, by partition, then instance.
fn add_targets_of(
    places: &Places<'_>,
    resource: ResourceId,
    room: &mut Room,
    found: &mut Vec<Target>,
) -> Result<(), AllocError>
    ensures { OnOk result (
        found.new.items
        ≡ found.old.items
        ++ targets_in places.now.models places.now.view resource places.now.resource) }
{
    for index in 0..places.resource().ideal.parts() {
        let shown = Shown::of(&*places, PartId { resource, index });
        shown.add_targets(room, found)?;
    }
    Ok(())
}

impl Index<'_> {
    /// Adds the targets of a resource.
    fn add_targets(
        &self,
        alloc: Global,
        models: &[Model],
        resource: ResourceId,
        room: &mut Room,
        found: &mut Vec<Target>,
    ) -> Result<(), AllocError>
        ensures { OnOk result (
            found.new.items ≡ found.old.items ++ targets_of models.now self.now resource) }
    {
        let resources = &self.view().ideals.resources;
        if let Some(shown) = resources.get(resource.0 as usize) {
            let places = Places::of(alloc, &*self, models, shown)?;
            add_targets_of(&places, resource, room, found)?;
        }
        Ok(())
    }

    /// Adds the targets of all resources, in order of number.
    #[inline(always)]
    fn add_all_targets(
        &self,
        alloc: Global,
        models: &[Model],
        found: &mut Vec<Target>,
    ) -> Result<(), AllocError>
        ensures { OnOk result (
            found.new.items ≡ found.old.items ++ all_targets_of models.now self.now) }
    {
        let count = number(self.view().ideals.resources.len())?;
        let mut room = Room::new(alloc);
        for number in 0..count {
            self.add_targets(alloc, models, ResourceId(number), &mut room, found)?;
        }
        Ok(())
    }
}

/// The targets of a resource over an index of the view. The index may serve all resources.
pub fn targets_on(
    alloc: Global,
    models: &[Model],
    index: &Index<'_>,
    resource: ResourceId,
) -> Result<Vec<Target>, AllocError>
    ensures { IfOk result (λ found. found.items ≡ targets_of models.now index.now resource) }
{
    let mut found = Vec::new(alloc);
    let mut room = Room::new(alloc);
    index.add_targets(alloc, models, resource, &mut room, &mut found)?;
    Ok(found)
}

/// The targets of a resource: its replicas on shown sessions, and the places where it has none and
/// one is wanted, by partition, then instance.
pub fn targets(
    alloc: Global,
    models: &[Model],
    view: &View,
    resource: ResourceId,
) -> Result<Vec<Target>, AllocError>
    ensures { IfOk result (λ found. found.items ≡ targets_of models.now view.now resource) }
{
    targets_on(alloc, models, &Index::of(alloc, view)?, resource)
}

/// The targets of all resources, in order of number, over an index of the view. More than
/// 4,294,967,295 resources are want of memory.
pub fn all_targets(
    alloc: Global,
    models: &[Model],
    index: &Index<'_>,
) -> Result<Vec<Target>, AllocError>
    ensures { IfOk result (λ found. found.items ≡ all_targets_of models.now index.now) }
{
    // Mostly there is one for each row.
    let mut found = Vec::with_capacity(alloc, index.view().rows.len())?;
    index.add_all_targets(alloc, models, &mut found)?;
    Ok(found)
}
