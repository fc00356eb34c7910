//! A controller: its number, where its turn is, and what the turn was shown.
ghost use Rattle.std.specs.Prelude.{◌≡◌, ◌↔◌, IfSome, IsTrue, Option, Some, length};
ghost use Rattle.hx_lists.specs.Lists.{count};
ghost use Rattle.hx_cluster.specs.Reads.{nothing_shown};
ghost use Rattle.hx_control.specs.Controllers.{idle_controller, stage};
ghost use Rattle.hx_control.specs.Controllers.{is_mail_call, is_states_call};
ghost use Rattle.hx_cluster.specs.declared.planning.View.{View};
ghost use Rattle.hx_control.specs.Turning.{others_at, IsPlanned};
ghost use Rattle.hx_pass.specs.Turns.{idle_turn};

use crate::Stage;
use hx_calls::{forget_shown, no_ideals, nothing_shown};
use hx_cluster::{Begun, Ideals, View};
use hx_formed::Formed;
use hx_ids::{ControllerId, Epoch, PassNo};
use hx_pass::{Draft, Planner};
use std::alloc::Global;
use std::marker::Model;

/// The call that a turn makes next. The plan belongs to what is sent.
#[derive(Clone, Copy)]
pub(crate) enum Next {
    Begin,
    Live,
    /// The mail of the session in this place of those that were shown.
    Mail(u32),
    /// Its states.
    States(u32),
    Ideals,
    Send,
    Post,
}

/// Which of a controller's ideals are those of the view that was planned last, where there is one.
#[derive(Clone, Copy)]
pub(crate) enum Planned {
    Neither,
    /// The spare ones.
    Spare,
    /// Those that the turn was shown.
    Shown,
}

/// Gives the planner the messages and rows of what a turn was shown, where that was drafted, or is
/// posted next.
fn hold_planned(planner: &mut Planner, view: &mut View, draft: &Option<Draft>, next: Next)
    requires drafted { IfSome draft.now (λ _. planner.old ≡ Some view.old) }
    requires posts { next ≡ Next.Post → planner.old ≡ Some view.old }
    ensures planned { planner.new ≡ planner.old }
    ensures ideals { view.new.ideals ≡ view.old.ideals }
{
    if draft.is_some() || matches!(next, Next::Post) {
        planner.hold(view);
    }
}

/// Forgets what a turn was shown, and tells which ideals are then those of the view that was planned
/// last.
pub(crate) fn forget(view: &mut View, spare: &mut Ideals, planned: Planned) -> Planned
    ensures view { view.new ≡ nothing_shown }
    ensures planned { (last : Option View) → IsPlanned planned spare.old view.old.ideals last
        → IsPlanned result spare.new view.new.ideals last }
{
    let spared = forget_shown(view, spare);
    match planned {
        Planned::Shown if spared => Planned::Spare,
        Planned::Spare if !spared => Planned::Spare,
        _ => Planned::Neither,
    }
}

/// How many calls are left beside the reads of mail and of states.
fn others(next: Next) -> usize
    ensures { result ≡ others_at next }
{
    match next {
        Next::Begin => 0,
        Next::Live | Next::Post => 1,
        Next::Send => 2,
        Next::Mail(_) | Next::States(_) | Next::Ideals => 3,
    }
}

/// Whether nothing was shown.
fn shows_nothing(view: &View) -> bool
    ensures { IsTrue result ↔ (view.now ≡ nothing_shown) }
{
    view.live.is_empty()
        && view.mail.is_empty()
        && view.rows.is_empty()
        && view.ideals.resources.is_empty()
        && view.ideals.drained.is_empty()
        && view.ideals.resets.is_empty()
}

/// The numbers of no turn.
fn not_begun() -> Begun
    ensures { result ≡ idle_turn.begun }
{
    Begun {
        epoch: Epoch(0),
        pass: PassNo(0),
        change: 0,
    }
}

/// Whether no turn has begun.
fn is_unbegun(begun: Begun) -> bool
    ensures { IsTrue result ↔ (begun ≡ idle_turn.begun) }
{
    begun.epoch == Epoch(0) && begun.pass == PassNo(0) && begun.change == 0
}

/// Whether a turn begins next.
fn is_first(next: Next) -> bool
    ensures { IsTrue result ↔ (next ≡ Next.Begin) }
{
    matches!(next, Next::Begin)
}

/// A controller with its turn. Contracts see its number, the turn, and the plan where it was made:
/// what is kept of it is a draft, of which the report is made only where it is told. That what it
/// was shown is well formed is found with the plan, and kept to the end of the turn; what a plan
/// found of the view is kept for the post, and for the next turn.
pub struct Controller {
    pub(crate) id: ControllerId,
    pub(crate) next: Next,
    pub(crate) begun: Begun,
    pub(crate) view: View,
    /// The ideals of an earlier turn, over which the next are read.
    pub(crate) spare: Ideals,
    pub(crate) planned: Planned,
    pub(crate) formed: Formed,
    pub(crate) draft: Option<Draft>,
    pub(crate) planner: Planner,
}

// A derived drop is written out, field by field, wherever one is dropped; this is a call.
impl Drop for Controller {
    fn drop(self) {
        let Controller {
            id: _,
            next: _,
            begun: _,
            view: _,
            spare: _,
            planned: _,
            formed: _,
            draft: _,
            planner: _,
        } = self;
    }
}

impl Model for Controller {
    ghost use Rattle.hx_control.specs.Controllers.{Controller as Seen};
    ghost use Rattle.hx_control.specs.Turning.{controller, IsTurn};

    ghost Value = { Seen };

    ghost view = { controller };

    ghost invariant = { IsTurn };
}

impl Controller {
    /// A controller without a turn. It takes no memory.
    pub fn new(alloc: Global, c: ControllerId) -> Controller
        ensures { result ≡ idle_controller c }
    {
        Controller {
            id: c,
            next: Next::Begin,
            begun: not_begun(),
            view: nothing_shown(alloc),
            spare: no_ideals(alloc),
            planned: Planned::Neither,
            formed: Formed::new(alloc),
            draft: None,
            planner: Planner::new(),
        }
    }

    /// Its number. It takes no memory.
    pub fn id(&self) -> ControllerId
        ensures { result ≡ self.now.id }
    {
        self.id
    }

    /// Where its turn is. It takes no memory.
    pub fn stage(&self) -> Stage
        ensures { result ≡ stage self.now }
    {
        match self.next {
            Next::Begin => Stage::Idle,
            Next::Live => Stage::Live,
            Next::Mail(read) => Stage::Mail(read),
            Next::States(read) => Stage::States(read),
            Next::Ideals => Stage::Ideals,
            Next::Send if self.draft.is_none() => Stage::Plan,
            Next::Send => Stage::Send,
            Next::Post => Stage::Post,
        }
    }

    /// Whether it is without a turn. It takes no memory.
    pub fn idle(&self) -> bool
        ensures { IsTrue result ↔ (self.now ≡ idle_controller self.now.id) }
    {
        is_first(self.next)
            && is_unbegun(self.begun)
            && shows_nothing(&self.view)
            && self.draft.is_none()
    }

    /// How many sessions the turn was shown. It takes no memory.
    pub fn shown(&self) -> usize
        ensures { result ≡ length self.now.turn.view.live }
    {
        self.view.live.len()
    }

    /// How many reads of mail are left. It takes no memory.
    #[tactic(auto, using(crate::proofs::Left::mail_left))]
    pub fn mail_left(&self) -> usize
        ensures { result ≡ count is_mail_call self.now.turn.left }
    {
        match self.next {
            Next::Mail(read) => self.shown() - read as usize,
            _ => 0,
        }
    }

    /// How many reads of states are left. It takes no memory.
    #[tactic(auto, using(crate::proofs::Left::states_left))]
    pub fn states_left(&self) -> usize
        ensures { result ≡ count is_states_call self.now.turn.left }
    {
        match self.next {
            Next::Mail(_) => self.shown(),
            Next::States(read) => self.shown() - read as usize,
            _ => 0,
        }
    }

    /// How many calls of the turn are left, none where it is idle. The reads of each session count
    /// once the sessions are known. It takes no memory.
    pub fn calls_left(&self) -> usize
        ensures { result ≡ length self.now.turn.left }
    {
        let others = others(self.next);
        self.mail_left() + self.states_left() + others
    }

    /// Ends its turn. It takes no memory.
    pub fn restart(&mut self)
        ensures { self.new ≡ idle_controller self.old.id }
    {
        hold_planned(&mut self.planner, &mut self.view, &self.draft, self.next);
        self.next = Next::Begin;
        self.begun = not_begun();
        self.planned = forget(&mut self.view, &mut self.spare, self.planned);
        self.formed.forget();
        self.draft = None;
    }
}
