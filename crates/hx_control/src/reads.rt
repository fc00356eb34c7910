//! How a turn begins, and what it reads.
ghost use Rattle.std.specs.Prelude.{◌≡◌, ◌≢◌, ◌<◌, ◌++◌, true, List, Option, drop, length, map};
ghost use Rattle.std.specs.Prelude.{IsTrue};
ghost use Rattle.hx_cluster.specs.declared.planning.View.{View};
ghost use Rattle.hx_cluster.specs.declared.planning.Ideals.{Ideals};
ghost use Rattle.hx_ids.specs.declared.SessionId.{SessionId};
ghost use Rattle.hx_ids.specs.declared.InstanceId.{InstanceId};
ghost use Rattle.hx_cluster.specs.declared.description.Spec.{Spec};
ghost use Rattle.hx_cluster.specs.Steps.{has_controller};
ghost use Rattle.hx_pass.specs.Turns.{Mail};
ghost use Rattle.hx_control.specs.Steps.{begin_step, step_of};
ghost use Rattle.hx_control.specs.Turning.{left_of, calls_after_mail, IsLeft, IsPlanned};
ghost use Rattle.hx_control.specs.Made.{Tries};

use crate::controller::{Next, Planned, forget};
use crate::{ControlFault, Controller, PassOutcome};
use hx_board::Board;
use hx_lists::Seq;
use std::mem;

/// The next call, where so many of the shown sessions' states were read.
fn states_at(read: u32, sessions: usize) -> Next
    ensures calls { (live : List (SessionId × InstanceId)) → length live ≡ sessions
        → left_of result live ≡ calls_after_mail (drop read live) }
    ensures left { IsLeft result sessions }
    ensures reads { result ≢ Next.Post }
{
    if (read as usize) < sessions {
        Next::States(read)
    } else {
        Next::Ideals
    }
}

/// The next call, where so many of the shown sessions' mails were read.
fn mail_at(read: u32, sessions: usize) -> Next
    ensures calls { (live : List (SessionId × InstanceId)) → length live ≡ sessions
        → left_of result live
        ≡ map (λ e. Mail e.0) (drop read live) ++ calls_after_mail live }
    ensures left { IsLeft result sessions }
    ensures reads { result ≢ Next.Post }
{
    if (read as usize) < sessions {
        Next::Mail(read)
    } else {
        states_at(0, sessions)
    }
}

/// Which ideals are those of the view that was planned last, once the turn was shown what was read
/// over the spare ones, and whether these were the same.
fn shown(planned: Planned, same: bool) -> Planned
    ensures { (last : Option View) → (spare before after ideals : Ideals)
        → (IsTrue same → spare ≡ ideals) → IsPlanned planned spare before last
        → IsPlanned result after ideals last }
{
    match planned {
        Planned::Spare if same => Planned::Shown,
        _ => Planned::Neither,
    }
}

impl Controller {
    /// Begins a turn.
    pub(crate) fn begin(&mut self, board: &mut Board) -> Result<Option<PassOutcome>, ControlFault>
        requires { has_controller board.old.cluster self.old.id ≡ true }
        ensures { Tries (begin_step board.old.cluster self.old) board.old board.new self.old
            self.new result }
    {
        let begun = board.begin(self.id)?;
        self.next = Next::Live;
        self.begun = begun;
        self.planned = forget(&mut self.view, &mut self.spare, self.planned);
        self.formed.forget();
        self.draft = None;
        Ok(None)
    }

    /// Reads which sessions are live.
    pub(crate) fn read_live(
        &mut self,
        board: &mut Board,
    ) -> Result<Option<PassOutcome>, ControlFault>
        requires controller { has_controller board.old.cluster self.old.id ≡ true }
        requires next { self.old.turn.left ≡ left_of Next.Live self.old.turn.view.live }
        ensures { (spec : Spec) → Tries (step_of spec board.old.cluster self.old) board.old
            board.new self.old self.new result }
    {
        // What holds of every board: it has few instances, so few sessions are live.
        board.history();
        let live = board.read_live(self.id, self.begun.pass)?;
        self.next = mail_at(0, live.len());
        self.view.live = Seq::from_vec(live);
        self.formed.forget();
        self.draft = None;
        Ok(None)
    }

    /// Reads the mail of the session in a place.
    pub(crate) fn read_mail(
        &mut self,
        place: u32,
        board: &mut Board,
    ) -> Result<Option<PassOutcome>, ControlFault>
        requires controller { has_controller board.old.cluster self.old.id ≡ true }
        requires shown { place < length self.old.turn.view.live }
        requires next { self.old.turn.left ≡ left_of (Next.Mail place) self.old.turn.view.live }
        ensures { (spec : Spec) → Tries (step_of spec board.old.cluster self.old) board.old
            board.new self.old self.new result }
    {
        let session = self.view.live.as_slice()[place as usize].0;
        board.read_mail_into(self.id, self.begun.pass, session, &mut self.view.mail)?;
        self.next = mail_at(place + 1, self.view.live.len());
        self.formed.forget();
        self.draft = None;
        Ok(None)
    }

    /// Reads the states of the session in a place.
    pub(crate) fn read_states(
        &mut self,
        place: u32,
        board: &mut Board,
    ) -> Result<Option<PassOutcome>, ControlFault>
        requires controller { has_controller board.old.cluster self.old.id ≡ true }
        requires shown { place < length self.old.turn.view.live }
        requires next { self.old.turn.left ≡ left_of (Next.States place) self.old.turn.view.live }
        ensures { (spec : Spec) → Tries (step_of spec board.old.cluster self.old) board.old
            board.new self.old self.new result }
    {
        let session = self.view.live.as_slice()[place as usize].0;
        board.read_states_into(self.id, self.begun.pass, session, &mut self.view.rows)?;
        self.next = states_at(place + 1, self.view.live.len());
        self.formed.forget();
        self.draft = None;
        Ok(None)
    }

    /// Reads what is wanted.
    pub(crate) fn read_ideals(
        &mut self,
        board: &mut Board,
    ) -> Result<Option<PassOutcome>, ControlFault>
        requires controller { has_controller board.old.cluster self.old.id ≡ true }
        requires next { self.old.turn.left ≡ left_of Next.Ideals self.old.turn.view.live }
        ensures { (spec : Spec) → Tries (step_of spec board.old.cluster self.old) board.old
            board.new self.old self.new result }
    {
        let planned = mem::replace(&mut self.planned, Planned::Neither);
        let same = board.reread_ideals(self.id, self.begun.pass, &mut self.spare)?;
        mem::swap(&mut self.view.ideals, &mut self.spare);
        self.next = Next::Send;
        self.planned = shown(planned, same);
        self.formed.forget();
        self.draft = None;
        Ok(None)
    }
}
