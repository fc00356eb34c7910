//! Where a part is wanted, instance by instance.
ghost use Rattle.std.specs.Prelude.{◌≡◌, ℕ, ◌==◌, ◌<◌, true, [], None, length, slice_index_or, IfOk, OnOk};
ghost use Rattle.hx_ids.specs.declared.InstanceId.{InstanceId};
ghost use Rattle.hx_ids.specs.declared.SessionId.{SessionId};
ghost use Rattle.std.specs.List.{list_any};
ghost use Rattle.hx_cluster.specs.Ends.{state_of};
ghost use Rattle.hx_cluster.specs.Steps.{is_error, is_flag};
ghost use Rattle.hx_best.specs.Wants.{Listed, Mapped, in_turn as in_turn_of};
ghost use Rattle.hx_best.specs.Goals.{is_in_error, is_asked, is_eligible};
ghost use Rattle.hx_best.specs.Places.{IsMarked, wants_at, rows_at, order_of};
ghost use Rattle.hx_best.specs.Visits.{Adds, is_visited};

use crate::places::Places;
use crate::visits::{Visit, Visits};
use hx_cluster::{Row, is_flag_of, state_on};
use hx_ideal::Mode;
use hx_ids::{InstanceId, PartId, SessionId, StateId};
use hx_lists::Seq;
use hx_model::ERROR;
use std::alloc::{AllocError, Global};
use std::marker::Model;

// Up to so many visits, to go over them costs less than to search for a session.
const FEW: usize = 16;

/// A place where a replica is wanted, and its goal there.
#[derive(Clone, Copy, PartialEq, Eq)]
pub struct Mark {
    pub place: u32,
    pub goal: StateId,
}

/// Whether a state is ERROR.
pub fn is_error(state: Option<StateId>) -> bool
    ensures { result ≡ is_error state }
{
    match state {
        Some(state) => state == ERROR,
        None => false,
    }
}

fn has_flag(flags: &[(SessionId, PartId)], session: SessionId, part: PartId) -> bool
    ensures { result ≡ list_any (is_flag session part) flags.now }
{
    flags.iter().any(|flag| is_flag_of(flag, session, part))
}

/// A part, with what is shown of it.
#[derive(Drop)]
pub struct Shown<'a> {
    places: &'a Places<'a>,
    part: PartId,
    rows: &'a [Row],
}

impl<'a> Model for Shown<'a> {
    ghost use Rattle.hx_ids.specs.declared.PartId.{PartId};
    ghost use Rattle.std.specs.Prelude.{◌≡◌};
    ghost use Rattle.hx_best.specs.Places.{Placing, rows_at};

    ghost Value = { Placing × PartId };

    ghost view = { λ x. (x.places.now, x.part) };

    ghost invariant = { λ x. x.rows.now ≡ rows_at x.places.now x.part };
}

impl<'a> Shown<'a> {
    /// What is shown of a part.
    pub fn of(places: &'a Places<'a>, part: PartId) -> Shown<'a>
        ensures { result ≡ (places.now, part) }
    {
        Shown {
            places,
            part,
            rows: places.index().shown().rows_at(part),
        }
    }

    /// The places of its resource.
    pub fn places(&self) -> &'a Places<'a>
        ensures { result.now ≡ self.now.0 }
    {
        self.places
    }

    /// The part.
    pub fn part(&self) -> PartId
        ensures { result ≡ self.now.1 }
    {
        self.part
    }

    /// The rows of the part.
    pub fn rows(&self) -> &'a [Row]
        ensures { result.now ≡ rows_at self.now.0 self.now.1 }
    {
        self.rows
    }

    /// The state of a session's replica, if it has one.
    pub fn state_of(&self, session: SessionId) -> Option<StateId>
        ensures { result ≡ state_of self.now.0.view.rows session self.now.1 }
    {
        state_on(self.rows, session, self.part)
    }

    /// Whether a session's replica is in ERROR.
    #[tactic(auto, using(crate::proofs::Errors::no_error))]
    pub fn is_in_error(&self, session: SessionId) -> bool
        ensures { result ≡ is_in_error self.now.0.view session self.now.1 }
    {
        self.places.index().has_errors() && is_error(self.state_of(session))
    }

    /// Whether a reset was asked for.
    pub fn is_asked(&self, session: SessionId) -> bool
        ensures { result ≡ is_asked self.now.0.view session self.now.1 }
    {
        let shown = self.places.index().shown();
        has_flag(shown.resets_at(self.part), session, self.part)
    }

    /// Whether an instance can take a state of the part.
    pub fn is_eligible(&self, instance: InstanceId) -> bool
        ensures { result ≡ is_eligible self.now.0.view self.now.1 instance }
    {
        let index = self.places.index();
        match index.session_in(instance) {
            Some(session) => !index.is_drained(instance) && !self.is_in_error(session),
            None => false,
        }
    }
}

impl Shown<'_> {
    /// Marks where the part is wanted. It answers the place of where it isn't. The list is for
    /// instances in turn; what it has doesn't matter.
    pub fn mark(&self, list: &mut Vec<InstanceId>, visits: &mut Visits) -> Result<u32, AllocError>
        requires { visits.old ≡ [] }
        ensures { IfOk result (λ past.
            IsMarked self.now.0 self.now.1 (wants_at self.now.0 self.now.1) visits.new past) }
    {
        let resource = self.places.resource();
        let part = self.part.index;
        match resource.ideal.mode() {
            Mode::Full => {
                let instances = self.places.index().open_instances();
                fill_turn(list, instances, resource.ideal.replicas(), part)?;
                self.mark_list(list.as_slice(), visits)
            }
            Mode::Semi(lists) => self.mark_list(items_in(lists, part), visits),
            Mode::Custom(maps) => self.mark_map(items_in(maps, part), visits),
        }
    }

    /// Marks the instances of a list, each where it stands first. A list whose places don't fit
    /// their type is want of memory.
    #[inline(always)]
    fn mark_list(&self, list: &[InstanceId], visits: &mut Visits) -> Result<u32, AllocError>
        requires { visits.old ≡ [] }
        ensures { IfOk result (λ past.
            IsMarked self.now.0 self.now.1 (Listed list.now) visits.new past) }
    {
        let past = number(list.len())?;
        let mut rank = 0;
        for (place, instance) in list.iter().enumerate() {
            let mark = Mark {
                place: place as u32,
                goal: self.places().below(rank),
            };
            self.mark_on(*instance, mark, visits)?;
            rank += self.is_eligible(*instance) as usize;
        }
        Ok(past)
    }

    /// Marks the instances of a map.
    fn mark_map(
        &self,
        map: &[(InstanceId, StateId)],
        visits: &mut Visits,
    ) -> Result<u32, AllocError>
        requires { visits.old ≡ [] }
        ensures { IfOk result (λ past.
            IsMarked self.now.0 self.now.1 (Mapped map.now) visits.new past) }
    {
        for (instance, goal) in map {
            let mark = Mark {
                place: 0,
                goal: *goal,
            };
            self.mark_on(*instance, mark, visits)?;
        }
        Ok(0)
    }

    /// Visits the sessions of an instance, with a mark.
    #[inline(always)]
    fn mark_on(
        &self,
        instance: InstanceId,
        mark: Mark,
        visits: &mut Visits,
    ) -> Result<(), AllocError>
        ensures { (d : SessionId × InstanceId)
            → OnOk result
            (Adds (length (order_of self.now.0))
            (λ k. (slice_index_or (order_of self.now.0) k d).1.0 == instance.0) (Some mark)
            visits.old visits.new) }
    {
        let (first, end) = self.places().index().order().places_on(instance);
        for number in first..end {
            visits.add(Visit {
                number,
                mark: Some(mark),
            })?;
        }
        Ok(())
    }

    /// Visits a session, without a mark.
    fn visit(&self, session: SessionId, visits: &mut Visits) -> Result<(), AllocError>
        ensures { (d : SessionId × InstanceId)
            → OnOk result
            (Adds (length (order_of self.now.0))
            (λ k. (slice_index_or (order_of self.now.0) k d).0.0 == session.0) None
            visits.old visits.new) }
    {
        let order = self.places().index().order();
        if order.is_once() && has_session(order.as_slice(), visits.as_slice(), session) {
            return Ok(());
        }
        let places = order.places_of(session);
        for (_, number) in places {
            visits.add(Visit {
                number: *number,
                mark: None,
            })?;
        }
        Ok(())
    }

    /// Visits the sessions that have a row of the part.
    pub fn visit_rows(&self, visits: &mut Visits) -> Result<(), AllocError>
        ensures { (d : SessionId × InstanceId)
            → OnOk result
            (Adds (length (order_of self.now.0))
            (λ k. list_any
            (λ r. (slice_index_or (order_of self.now.0) k d).0.0 == r.session.0)
            (rows_at self.now.0 self.now.1)) None visits.old visits.new) }
    {
        let rows = self.rows();
        for row in rows {
            self.visit(row.session, visits)?;
        }
        Ok(())
    }
}

/// Whether a session is found among the visited ones. It is looked for only where these are few.
fn has_session(live: &[(SessionId, InstanceId)], visits: &[Visit], session: SessionId) -> bool
    ensures { result ≡ true
        → (k : ℕ) × (k < length live.now) × (is_visited visits.now k ≡ true)
        × ((d : SessionId × InstanceId) → (slice_index_or live.now k d).0.0 ≡ session.0) }
{
    if visits.len() > FEW {
        return false;
    }
    for visit in visits {
        if visit.number < live.len() && live[visit.number].0 == session {
            return true;
        }
    }
    false
}

/// A number of 32 bits. A larger one is want of memory.
pub fn number(n: usize) -> Result<u32, AllocError>
    ensures { IfOk result (λ m. m ≡ n) }
{
    u32::try_from(n).map_err(|_| AllocError)
}

/// The list or map of a part.
pub fn items_in<T: Drop>(lists: &Seq<Seq<T>>, part: u32) -> &[T]
    ensures { result.now ≡ slice_index_or lists.now part [] }
{
    match lists.get(part as usize) {
        Some(list) => list.as_slice(),
        None => &[],
    }
}

/// Fills a list with the instances whose turn a part is, in place of what it had.
pub fn fill_turn(
    list: &mut Vec<InstanceId>,
    instances: &[InstanceId],
    replicas: u32,
    part: u32,
) -> Result<(), AllocError>
    ensures { OnOk result (list.new.items ≡ in_turn_of instances.now replicas part) }
{
    let taken = (replicas as usize).min(instances.len());
    let start = part as usize * taken;
    list.clear();
    for turn in 0..taken {
        list.push(instances[(start + turn) % instances.len()])?;
    }
    Ok(())
}
