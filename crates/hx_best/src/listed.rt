//! The targets of a part whose rows are all on instances of its list, found by one walk over the
//! list.
ghost use Rattle.std.specs.Prelude.{◌≡◌, ◌-◌, ◌<◌, ◌≤◌, ◌==◌, ◌++◌, true, false, length, IfOk, slice_index_or};
ghost use Rattle.std.specs.Prelude.{MatchOption, OnOk, take, not, ◌&&◌};
ghost use Rattle.hx_cluster.specs.Steps.{is_drained, is_error};
ghost use Rattle.hx_cluster.specs.declared.planning.Target.{Target};
ghost use Rattle.hx_best.specs.Lookups.{IsPlain};
ghost use Rattle.hx_best.specs.Wants.{Listed, in_turn, open_instances};
ghost use Rattle.hx_best.specs.Goals.{is_eligible};
ghost use Rattle.hx_best.specs.Targets.{targets_at};
ghost use Rattle.hx_best.specs.Places.{rows_at, wants_at};
ghost use Rattle.hx_best.specs.Numbers.{IsNoted};
ghost use Rattle.hx_best.specs.Still.{is_on};
ghost use Rattle.hx_best.specs.Listed.{Puts, PutsEntry, entry_target};

use crate::marks::{Shown, fill_turn, is_error, items_in};
use crate::still::meet;
use hx_cluster::Target;
use hx_ideal::Mode;
use hx_ids::{InstanceId, SessionId, StateId};
use std::alloc::AllocError;

// To put more targets in order, a search for each place costs less than to go over the others.
const MANY: usize = 64;

/// Where an instance stands among targets in order of instance, of which those from a first place on
/// are looked at, from the last one on.
#[inline(always)]
fn place_of(found: &[Target], first: usize, instance: InstanceId) -> usize
    requires { first ≤ length found.now }
    ensures behind { first ≤ result }
    ensures within { result ≤ length found.now }
    ensures below { first < result → (d : Target)
        → (slice_index_or found.now (result - 1) d).instance.0 ≤ instance.0 }
    ensures above { result < length found.now → (d : Target)
        → instance.0 < (slice_index_or found.now result d).instance.0 }
{
    let mut place = found.len();
    while place > first && found[place - 1].instance.0 > instance.0 {
        place -= 1;
    }
    place
}

/// Whether the one before a place, of those from a first place on, is of an instance.
#[inline(always)]
fn is_before(found: &[Target], first: usize, place: usize, instance: InstanceId) -> bool
    requires { place ≤ length found.now }
    ensures { result ≡ false → first < place → (d : Target)
        → ((slice_index_or found.now (place - 1) d).instance.0 == instance.0) ≡ false }
{
    place > first && found[place - 1].instance.0 == instance.0
}

/// Puts a target among those from a first place on. It answers no, and puts nothing, where one is of
/// its instance.
#[inline(always)]
fn put(found: &mut Vec<Target>, first: usize, target: Target) -> Result<bool, AllocError>
    requires { first ≤ length found.old.items }
    ensures yes { IfOk result (λ done.
        done ≡ true → Puts first target found.old.items found.new.items) }
    ensures no { IfOk result (λ done. done ≡ false → found.new.items ≡ found.old.items) }
{
    let before = found.as_slice();
    let place = place_of(before, first, target.instance);
    if is_before(before, first, place, target.instance) {
        return Ok(false);
    }
    if place == found.len() {
        // A push written out, so that it is inlined: nearly every target goes last.
        if place == found.capacity() {
            found.reserve(1)?;
        }
        found.push_reserved(target);
    } else {
        found.insert(place, target)?;
    }
    Ok(true)
}

impl Shown<'_> {
    /// The target of a session on an instance where a replica is wanted. It notes the place of the
    /// replica's row.
    #[inline(always)]
    fn entry_target(
        &self,
        session: SessionId,
        instance: InstanceId,
        wanted: StateId,
        place: u32,
        met: &mut u64,
    ) -> Target
        requires few { length (rows_at self.now.0 self.now.1) < 64 }
        ensures target { result ≡ entry_target self.now.0 self.now.1 session instance wanted place }
        ensures noted { IsNoted (λ r. r.session.0 == session.0)
            (rows_at self.now.0 self.now.1) met.old met.new }
    {
        let state = meet(self.rows(), session, met);
        Target {
            session,
            instance,
            part: self.part(),
            state,
            goal: self.goal_on(session, instance, state, wanted),
            place,
        }
    }

    /// Whether an instance can take a state, by that of its session's replica.
    #[inline(always)]
    fn takes_state(&self, instance: InstanceId, state: Option<StateId>) -> bool
        ensures { result
            ≡ (not (is_drained self.now.0.view.ideals.drained instance) && not (is_error state)) }
    {
        !self.places().index().is_drained(instance) && !is_error(state)
    }

    /// Puts the target of an entry of the list among those of the entries before it. It answers
    /// whether the instance can take a state, and nothing where one of them is on its instance.
    #[inline(always)]
    fn put_entry(
        &self,
        instance: InstanceId,
        wanted: StateId,
        place: u32,
        met: &mut u64,
        first: usize,
        found: &mut Vec<Target>,
    ) -> Result<Option<bool>, AllocError>
        requires few { length (rows_at self.now.0 self.now.1) < 64 }
        requires first { first ≤ length found.old.items }
        ensures put { IfOk result (λ done. MatchOption done (found.new.items ≡ found.old.items)
            (λ eligible. (eligible ≡ is_eligible self.now.0.view self.now.1 instance)
            × PutsEntry self.now.0 self.now.1 first instance wanted place
            found.old.items found.new.items)) }
        ensures noted { OnOk result (IsNoted (is_on self.now.0.view.live instance)
            (rows_at self.now.0 self.now.1) met.old met.new) }
    {
        let index = self.places().index();
        match index.session_in(instance) {
            Some(session) => {
                let target = self.entry_target(session, instance, wanted, place, met);
                let eligible = self.takes_state(instance, target.state);
                if !put(found, first, target)? {
                    return Ok(None);
                }
                Ok(Some(eligible))
            }
            None => Ok(Some(false)),
        }
    }

    /// Adds the targets of the entries of the part's list. It answers whether these are all, and may
    /// say no where it is so, with no more than some targets added.
    fn add_entries(&self, list: &[InstanceId], found: &mut Vec<Target>) -> Result<bool, AllocError>
        requires short { length list.now ≤ 64 }
        requires few { length (rows_at self.now.0 self.now.1) < 64 }
        requires plain { IsPlain self.now.0.view.live }
        requires kept { self.now.0.resource.dropped ≡ false }
        requires list { wants_at self.now.0 self.now.1 ≡ Listed list.now }
        ensures kept { OnOk result (
            take (length found.old.items) found.new.items ≡ found.old.items) }
        ensures all { IfOk result (λ all. all ≡ true → found.new.items
            ≡ found.old.items
            ++ targets_at self.now.0.models self.now.0.view self.now.0.resource self.now.1) }
    {
        let first = found.len();
        let mut met = 0;
        let mut rank = 0;
        for (place, instance) in list.iter().enumerate() {
            let wanted = self.places().below(rank);
            match self.put_entry(*instance, wanted, place as u32, &mut met, first, found)? {
                Some(eligible) => rank += eligible as usize,
                None => return Ok(false),
            }
        }
        Ok(self.has_all_rows(met))
    }

    /// The same, with none added where these aren't all.
    #[inline(always)]
    fn add_all_or_none(
        &self,
        list: &[InstanceId],
        found: &mut Vec<Target>,
    ) -> Result<bool, AllocError>
        requires few { length (rows_at self.now.0 self.now.1) < 64 }
        requires plain { IsPlain self.now.0.view.live }
        requires kept { self.now.0.resource.dropped ≡ false }
        requires list { wants_at self.now.0 self.now.1 ≡ Listed list.now }
        ensures all { IfOk result (λ all. all ≡ true → found.new.items
            ≡ found.old.items
            ++ targets_at self.now.0.models self.now.0.view self.now.0.resource self.now.1) }
        ensures none { IfOk result (λ all. all ≡ false → found.new.items ≡ found.old.items) }
    {
        if list.len() > MANY {
            return Ok(false);
        }
        let first = found.len();
        let all = self.add_entries(list, found)?;
        if !all {
            found.truncate(first);
        }
        Ok(all)
    }

    /// Whether the part is of a resource that isn't dropped, no session and no instance is shown
    /// twice, and the part has few rows.
    #[inline(always)]
    fn is_simple(&self) -> bool
        ensures few { result ≡ true → length (rows_at self.now.0 self.now.1) < 64 }
        ensures plain { result ≡ true → IsPlain self.now.0.view.live }
        ensures kept { result ≡ true → self.now.0.resource.dropped ≡ false }
    {
        let places = self.places();
        !places.resource().dropped && places.index().is_plain() && self.rows().len() < 64
    }

    /// Fills a list with the instances whose turn the part is.
    fn fill_list(&self, list: &mut Vec<InstanceId>) -> Result<(), AllocError>
        ensures { OnOk result (list.new.items
            ≡ in_turn (open_instances self.now.0.view) self.now.0.resource.ideal.replicas
            self.now.1.index) }
    {
        let places = self.places();
        let replicas = places.resource().ideal.replicas();
        let instances = places.index().open_instances();
        fill_turn(list, instances, replicas, self.part().index)?;
        Ok(())
    }

    /// Adds the targets of a part whose rows are all on instances of its list, if it has one, or
    /// none. It may add none where it is so: for 64 rows or more, where a session or an instance is
    /// shown twice, and where the part's list is long or has an instance twice. The list that is
    /// passed is for instances in turn; what it has doesn't matter.
    pub fn add_listed(
        &self,
        list: &mut Vec<InstanceId>,
        found: &mut Vec<Target>,
    ) -> Result<bool, AllocError>
        ensures all { IfOk result (λ all. all ≡ true → found.new.items
            ≡ found.old.items
            ++ targets_at self.now.0.models self.now.0.view self.now.0.resource self.now.1) }
        ensures none { IfOk result (λ all. all ≡ false → found.new.items ≡ found.old.items) }
    {
        if !self.is_simple() {
            return Ok(false);
        }
        match self.places().resource().ideal.mode() {
            Mode::Full => {
                self.fill_list(list)?;
                self.add_all_or_none(list.as_slice(), found)
            }
            Mode::Semi(lists) => self.add_all_or_none(items_in(lists, self.part().index), found),
            Mode::Custom(_) => Ok(false),
        }
    }
}
