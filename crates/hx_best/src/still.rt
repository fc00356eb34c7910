//! Whether a part stands still: each of its replicas is where it is to go. It is found by its rows
//! and the entries of its list or map, and not by a walk over the shown sessions.
ghost use Rattle.std.specs.Prelude.{◌≡◌, ℕ, ◌==◌, ◌<◌, ◌||◌, true, length, find, option_map, IfOk};
ghost use Rattle.std.specs.Prelude.{MatchOption};
ghost use Rattle.std.specs.List.{list_all};
ghost use Rattle.hx_cluster.specs.Steps.{is_error};
ghost use Rattle.hx_best.specs.Goals.{is_eligible, is_in_error};
ghost use Rattle.hx_best.specs.Targets.{targets_at};
ghost use Rattle.hx_best.specs.Places.{model_in, rows_at};
ghost use Rattle.hx_best.specs.Numbers.{IsNoted, has_number};
ghost use Rattle.hx_best.specs.Still.{is_there, is_at_goal, goal_on, stands, is_on};
ghost use Rattle.hx_best.specs.Still.{list_stands, list_covers, map_stands, map_covers};

use crate::marks::{Shown, fill_turn, is_error, items_in};
use crate::numbers::{is_all_below, with};
use hx_cluster::Row;
use hx_ideal::Mode;
use hx_ids::{InstanceId, SessionId, StateId};
use hx_model::{DROPPED, ERROR};
use std::alloc::AllocError;

/// The state of the first row of a session, the place of which is noted.
pub fn meet(rows: &[Row], session: SessionId, met: &mut u64) -> Option<StateId>
    requires { length rows.now < 64 }
    ensures state { result
        ≡ option_map (λ r. r.state) (find (λ r. r.session.0 == session.0) rows.now) }
    ensures noted { IsNoted (λ r. r.session.0 == session.0) rows.now met.old met.new }
{
    for (place, row) in rows.iter().enumerate() {
        if row.session == session {
            *met = with(*met, place);
            return Some(row.state);
        }
    }
    None
}

impl Shown<'_> {
    fn is_there(&self, state: Option<StateId>, goal: StateId) -> bool
        ensures { result ≡ is_there (model_in self.now.0) state goal }
    {
        match state {
            Some(state) => state == goal,
            None => goal == self.places().initial() || goal == DROPPED,
        }
    }

    /// The goal of a session's replica in a state, where it is wanted in another one.
    pub fn goal_on(
        &self,
        session: SessionId,
        instance: InstanceId,
        state: Option<StateId>,
        wanted: StateId,
    ) -> StateId
        requires { is_error state ≡ is_in_error self.now.0.view session self.now.1 }
        ensures { result ≡ goal_on self.now.0 self.now.1 session instance wanted }
    {
        if is_error(state) {
            if self.is_asked(session) {
                self.places().initial()
            } else {
                ERROR
            }
        } else if self.places().index().is_drained(instance) {
            self.places().initial()
        } else {
            wanted
        }
    }

    /// Whether the replica that is wanted on an instance is where it is to go. If so it answers
    /// whether the instance can take a state, and notes the place of the replica's row.
    #[inline(always)]
    fn entry(&self, instance: InstanceId, wanted: StateId, met: &mut u64) -> Option<bool>
        requires { length (rows_at self.now.0 self.now.1) < 64 }
        ensures stands { MatchOption result (Unit {0}) (λ eligible.
            (stands self.now.0 self.now.1 instance wanted ≡ true)
            × (eligible ≡ is_eligible self.now.0.view self.now.1 instance)) }
        ensures noted { IsNoted (is_on self.now.0.view.live instance)
            (rows_at self.now.0 self.now.1) met.old met.new }
    {
        let index = self.places().index();
        match index.session_in(instance) {
            Some(session) => {
                let state = meet(self.rows(), session, met);
                if !self.is_there(state, self.goal_on(session, instance, state, wanted)) {
                    return None;
                }
                Some(!is_error(state) && !index.is_drained(instance))
            }
            None => Some(false),
        }
    }

    /// Whether the places of all rows of the part were noted.
    pub fn has_all_rows(&self, met: u64) -> bool
        requires { length (rows_at self.now.0 self.now.1) < 64 }
        ensures { result ≡ true
            → (k : ℕ) → k < length (rows_at self.now.0 self.now.1) → has_number met k ≡ true }
    {
        is_all_below(met, self.rows().len())
    }

    /// Whether the replicas of a list are where they are to go, and have all rows of the part.
    fn list_stands(&self, list: &[InstanceId]) -> bool
        requires { length (rows_at self.now.0 self.now.1) < 64 }
        ensures { result ≡ true
            → (list_stands self.now.0 self.now.1 list.now 0 ≡ true)
            × (list_covers self.now.0 self.now.1 list.now ≡ true) }
    {
        let mut met = 0;
        let mut rank = 0;
        for instance in list {
            match self.entry(*instance, self.places().below(rank), &mut met) {
                Some(eligible) => rank += eligible as usize,
                None => return false,
            }
        }
        self.has_all_rows(met)
    }

    /// The same of a map.
    fn map_stands(&self, map: &[(InstanceId, StateId)]) -> bool
        requires { length (rows_at self.now.0 self.now.1) < 64 }
        ensures { result ≡ true
            → (map_stands self.now.0 self.now.1 map.now ≡ true)
            × (map_covers self.now.0 self.now.1 map.now ≡ true) }
    {
        let mut met = 0;
        for (instance, wanted) in map {
            match self.entry(*instance, *wanted, &mut met) {
                Some(_) => (),
                None => return false,
            }
        }
        self.has_all_rows(met)
    }

    /// Whether each target of the part is at its goal. It may say no where it is so: for 64 rows or
    /// more, where a session or an instance is shown twice, and for an ERROR where none is wanted.
    /// The list is for instances in turn; what it has doesn't matter.
    pub fn is_still(&self, list: &mut Vec<InstanceId>) -> Result<bool, AllocError>
        ensures { IfOk result (λ still.
            still ≡ true
            → list_all (is_at_goal (model_in self.now.0))
            (targets_at self.now.0.models self.now.0.view self.now.0.resource self.now.1)
            ≡ true) }
    {
        let index = self.places().index();
        let resource = self.places().resource();
        let part = self.part().index;
        if resource.dropped {
            return Ok(self.rows().is_empty());
        }
        if !index.is_plain() || self.rows().len() >= 64 {
            return Ok(false);
        }
        match resource.ideal.mode() {
            Mode::Full => {
                fill_turn(
                    list,
                    index.open_instances(),
                    resource.ideal.replicas(),
                    part,
                )?;
                Ok(self.list_stands(list.as_slice()))
            }
            Mode::Semi(lists) => Ok(self.list_stands(items_in(lists, part))),
            Mode::Custom(maps) => Ok(self.map_stands(items_in(maps, part))),
        }
    }
}
