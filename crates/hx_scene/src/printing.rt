//! How events are printed: not at all in a muted scene.

ghost use Rattle.std.specs.Prelude.{◌≡◌, false, [], ◌∷◌, ◌++◌, List, length, IfOk, IfErr};
ghost use Rattle.hx_cluster.specs.declared.happenings.Event.{Event as Happening};
ghost use Rattle.hx_cluster.specs.declared.happenings.Event.TheVariants as events;
ghost use Rattle.hx_text.specs.Texts.{Prints};
ghost use Rattle.hx_print.specs.Texts.{names_of, roll_of};
ghost use Rattle.hx_scene.specs.Advances.{no_roll};
ghost use Rattle.hx_scene.specs.Heard.{event_heard};
ghost use Rattle.hx_scene.specs.Rolls.{names_resources, names_sessions, step_roll};

use crate::{Deed, Scene};
use hx_board::RoomFault;
use hx_cluster::{Admin, Did, Event, Mail, Resource};
use hx_handler::Factory;
use hx_ids::InstanceId;
use hx_lists::Seq;
use hx_print::{Roll, print_event, print_step};
use hx_text::Page;
use std::alloc::{AllocError, Global};

fn names_of(alloc: Global, resources: &[Resource]) -> Result<Vec<u32>, AllocError>
    ensures { IfOk result (λ names. names.items ≡ names_of resources.now) }
{
    resources.iter().map(|r| r.name).collect(alloc)
}

/// Whether a step's log line names a resource by its number.
fn names_resources(step: &Admin) -> bool
    ensures { result ≡ names_resources step.now }
{
    matches!(
        step,
        Admin::Drop { .. } | Admin::SetList { .. } | Admin::SetMap { .. } | Admin::Reset { .. }
    )
}

/// Whether a step's log line names a session that was live.
fn names_sessions(step: &Admin) -> bool
    ensures { result ≡ names_sessions step.now }
{
    matches!(
        step,
        Admin::End { .. } | Admin::Beat { .. } | Admin::Tick { .. } | Admin::Reset { .. }
    )
}

impl<F: Factory> Scene<F> {
    /// What the names in a dispatch's log lines need of the cluster.
    pub(crate) fn roll(&self) -> Result<Roll, AllocError>
        ensures { IfOk result (λ roll. roll ≡ roll_of self.now.board.cluster) }
    {
        Ok(Roll {
            resources: Seq::from_vec(names_of(self.alloc(), self.board.resources())?),
            live: Seq::from_vec(self.board.roster()?),
        })
    }

    /// What the names in a step's log line need of the cluster, if it is printed.
    pub(crate) fn step_roll(&self, step: &Admin) -> Result<Roll, AllocError>
        ensures { IfOk result (λ roll.
            self.now.muted ≡ false → roll ≡ step_roll self.now.board.cluster step.now) }
    {
        let mut roll = self.no_roll();
        if self.muted {
            return Ok(roll);
        }
        if names_resources(step) {
            roll.resources = Seq::from_vec(names_of(self.alloc(), self.board.resources())?);
        }
        if names_sessions(step) {
            roll.live = Seq::from_vec(self.board.roster()?);
        }
        Ok(roll)
    }

    /// What the log lines of other events need: nothing.
    pub(crate) fn no_roll(&self) -> Roll
        ensures { result ≡ no_roll }
    {
        let alloc = self.alloc();
        Roll {
            resources: Seq::new(alloc),
            live: Seq::new(alloc),
        }
    }

    /// Prints the last event, with the roll before it.
    pub(crate) fn print_last(&self, roll: &Roll, out: &mut Page) -> Result<(), AllocError>
        ensures { (h : List Happening) (e : Happening) → self.now.board.history ≡ h ++ e ∷ []
            → Prints (event_heard self.now roll.now e) out.old result out.new }
    {
        if self.muted {
            return Ok(());
        }
        match self.board.history().entries.last() {
            Some(told) => print_event(told.event(), roll, &self.spec, out),
            None => Ok(()),
        }
    }

    /// Prints an event whose log line needs nothing of the cluster.
    #[inline(always)]
    pub(crate) fn print_given(&self, event: &Event, out: &mut Page) -> Deed
        ensures prints { Prints (event_heard self.now no_roll event.now)
            out.old result out.new }
        ensures memory { IfErr result (λ fault. fault ≡ RoomFault.OutOfMemory) }
    {
        if self.muted {
            return Ok(());
        }
        print_event(event, &self.no_roll(), &self.spec, out)?;
        Ok(())
    }

    /// Prints a step that was made, with what it answered and the roll before it.
    #[inline(always)]
    pub(crate) fn print_made(&self, step: &Admin, did: &Did, roll: &Roll, out: &mut Page) -> Deed
        ensures prints { Prints
            (event_heard self.now roll.now (events.Admin step.now did.now))
            out.old result out.new }
        ensures memory { IfErr result (λ fault. fault ≡ RoomFault.OutOfMemory) }
    {
        if self.muted {
            return Ok(());
        }
        print_step(step, did, roll, &self.spec, out)?;
        Ok(())
    }

    /// Prints the fetch of an instance's messages.
    pub(crate) fn print_fetch(&self, instance: InstanceId, mail: &Mail, out: &mut Page) -> Deed
        ensures prints { Prints (event_heard self.now no_roll
            (events.Fetch instance mail.now.session (length mail.now.messages)))
            out.old result out.new }
        ensures memory { IfErr result (λ fault. fault ≡ RoomFault.OutOfMemory) }
    {
        let Ok(count) = u32::try_from(mail.messages.len()) else {
            return Err(RoomFault::OutOfMemory);
        };
        let event = Event::Fetch {
            instance,
            session: mail.session,
            count,
        };
        self.print_given(&event, out)
    }

    /// Prints the last event, with the roll before it, if there are more than so many.
    pub(crate) fn print_grown(
        &self,
        before: usize,
        roll: &Roll,
        out: &mut Page,
    ) -> Result<(), AllocError>
        ensures more { (h : List Happening) (e : Happening) → self.now.board.history ≡ h ++ e ∷ []
            → length h ≡ before → Prints (event_heard self.now roll.now e) out.old result out.new }
        ensures same { length self.now.board.history ≡ before → Prints [] out.old result out.new }
    {
        if self.board.history().entries.len() > before {
            self.print_last(roll, out)
        } else {
            Ok(())
        }
    }
}
