//! What is said beside the log: notes, outcomes and views, each charged before it is printed. A
//! muted scene is charged the same.
ghost use Rattle.std.specs.Prelude.{◌≡◌, ◌+◌, length};
ghost use Rattle.hx_cluster.specs.Reads.{live_shown};
ghost use Rattle.hx_print.specs.Texts.{accept_text, sent_text, waiting_text, moved_text, settled_text};
ghost use Rattle.hx_print.specs.Texts.{settle_text, failed_text, full_text, resource_name as name_at};
ghost use Rattle.hx_text.specs.Texts.{Prints};
ghost use Rattle.hx_worlds.specs.Runs.{say, say_if_loud, note as noted};
ghost use Rattle.hx_worlds.specs.Scripts.{say_view_of, say_route};
ghost use Rattle.hx_scene.specs.Doing.{DoesDeed};
ghost use Rattle.hx_scene.specs.Telling.{IsCharged, text_of, line_text, part_line};

use crate::{Deed, Scene};
use hx_board::{Board, RoomFault};
use hx_cluster::{Full, Spec};
use hx_handler::Factory;
use hx_ids::{ControllerId, InstanceId, MsgId, PartId, SessionId, StateId};
use hx_print::{
    Note, print_accept, print_failed, print_full, print_moved, print_note, print_route, print_seen,
    print_sent, print_settle, print_settled, print_summary, print_waiting, resource_name,
};
use hx_text::Page;
use hx_worlds::Voice;
use std::alloc::AllocError;

/// What happened in a history, in numbers.
#[derive(Clone, Copy)]
pub struct Summary {
    /// Messages that were sent.
    pub sent: u64,
    /// Writes by their outcome.
    pub ok: u64,
    pub failed: u64,
    /// Sessions that were opened, and that ended.
    pub joined: u64,
    pub ended: u64,
}

/// Prints what happened, in numbers.
pub fn print_counts(summary: &Summary, out: &mut Page) -> Result<(), AllocError>
    ensures { Prints (text_of summary.now) out.old result out.new }
{
    let Summary {
        sent,
        ok,
        failed,
        joined,
        ended,
    } = *summary;
    print_summary(sent, ok, failed, joined, ended, out)
}

/// What is said in one line, without the names of the description.
#[derive(Clone, Copy)]
enum Line {
    Sent(ControllerId, u32),
    Waiting(ControllerId, u32),
    Moved(ControllerId, u64, u64),
    Settled(ControllerId),
    Settle(ControllerId, u64),
    Summary(Summary),
}

fn print_line(line: Line, out: &mut Page) -> Result<(), AllocError>
    ensures { Prints (line_text line) out.old result out.new }
{
    match line {
        Line::Sent(controller, n) => print_sent(controller, n, out),
        Line::Waiting(controller, n) => print_waiting(controller, n, out),
        Line::Moved(controller, from, to) => print_moved(controller, from, to, out),
        Line::Settled(controller) => print_settled(controller, out),
        Line::Settle(controller, n) => print_settle(controller, n, out),
        Line::Summary(summary) => print_counts(&summary, out),
    }
}

/// What is said in one line on a part.
#[derive(Clone, Copy)]
enum PartLine<'a> {
    /// A replica of an instance is in ERROR.
    Failed(InstanceId),
    /// Who has a replica.
    Seen(&'a [(InstanceId, StateId)]),
    /// Which instances are in a state.
    Route(StateId, &'a [InstanceId]),
}

/// Prints a line on a part by its resource's name.
fn print_part_line(
    line: &PartLine<'_>,
    name: &str,
    part: PartId,
    spec: &Spec,
    out: &mut Page,
) -> Result<(), AllocError>
    ensures { Prints (part_line spec.now name.now part line.now) out.old result out.new }
{
    match line {
        PartLine::Failed(instance) => print_failed(*instance, name, part, spec, out),
        PartLine::Seen(holders) => print_seen(name, part, holders, spec, out),
        PartLine::Route(state, instances) => {
            print_route(name, part, *state, instances, spec, out)
        }
    }
}

/// The name of a part's resource.
fn name_in<'a>(spec: &'a Spec, board: &Board, part: PartId) -> &'a str
    ensures { result.now ≡ name_at spec.now board.now.cluster.resources part.resource }
{
    resource_name(spec, board.resources(), part.resource)
}

impl<F: Factory> Scene<F> {
    /// Charges the board, where the history has room.
    fn charge(&mut self, n: u64) -> Deed
        ensures { IsCharged n self.old self.new result }
    {
        match self.board.charge(n) {
            Ok(()) => Ok(()),
            Err(full) => Err(RoomFault::HistoryFull {
                weight: full.weight,
            }),
        }
    }

    /// Charges the board for a line, and prints it.
    fn say_line(&mut self, line: Line, out: &mut Page) -> Deed
        ensures { DoesDeed (say 1 (line_text line)) self.old out.old self.new out.new result }
    {
        self.charge(1)?;
        if self.muted {
            return Ok(());
        }
        print_line(line, out)?;
        Ok(())
    }

    /// Notes why a line, or a part of one, was not done.
    pub fn note(&mut self, voice: Voice, note: &Note, out: &mut Page) -> Deed
        ensures does { DoesDeed (noted voice note.now) self.old out.old self.new out.new result }
        ensures bag { self.new.bag ≡ self.old.bag }
    {
        let Voice::Loud(line) = voice else {
            return Ok(());
        };
        self.charge(1)?;
        if self.muted {
            return Ok(());
        }
        print_note(line, note, &self.spec, out)?;
        Ok(())
    }

    /// Says that a participant accepted a message.
    pub(crate) fn say_accept(
        &mut self,
        voice: Voice,
        instance: InstanceId,
        id: MsgId,
        out: &mut Page,
    ) -> Deed
        ensures does { DoesDeed (λ x. say_if_loud voice 1 (accept_text x.world.spec instance id) x)
            self.old out.old self.new out.new result }
        ensures bag { self.new.bag ≡ self.old.bag }
    {
        match voice {
            Voice::Quiet => Ok(()),
            Voice::Loud(_) => self.say_accepted(instance, id, out),
        }
    }

    /// Says aloud that a participant accepted a message.
    fn say_accepted(&mut self, instance: InstanceId, id: MsgId, out: &mut Page) -> Deed
        ensures does { DoesDeed (λ x. say 1 (accept_text x.world.spec instance id) x)
            self.old out.old self.new out.new result }
        ensures bag { self.new.bag ≡ self.old.bag }
    {
        self.charge(1)?;
        if self.muted {
            return Ok(());
        }
        print_accept(instance, id, &self.spec, out)?;
        Ok(())
    }

    /// Says that proposals were sent.
    pub fn say_sent(&mut self, controller: ControllerId, n: u32, out: &mut Page) -> Deed
        ensures { DoesDeed (say 1 (sent_text controller n))
            self.old out.old self.new out.new result }
    {
        self.say_line(Line::Sent(controller, n), out)
    }

    /// Says that a pass waits for pending messages.
    pub fn say_waiting(&mut self, controller: ControllerId, n: u32, out: &mut Page) -> Deed
        ensures { DoesDeed (say 1 (waiting_text controller n))
            self.old out.old self.new out.new result }
    {
        self.say_line(Line::Waiting(controller, n), out)
    }

    /// Says that the cluster changed under a pass.
    pub fn say_moved(
        &mut self,
        controller: ControllerId,
        from: u64,
        to: u64,
        out: &mut Page,
    ) -> Deed
        ensures { DoesDeed (say 1 (moved_text controller from to))
            self.old out.old self.new out.new result }
    {
        self.say_line(Line::Moved(controller, from, to), out)
    }

    /// Says that a pass settled.
    pub fn say_settled(&mut self, controller: ControllerId, out: &mut Page) -> Deed
        ensures { DoesDeed (say 1 (settled_text controller))
            self.old out.old self.new out.new result }
    {
        self.say_line(Line::Settled(controller), out)
    }

    /// Says that a settle took so many rounds.
    pub fn say_settle(&mut self, controller: ControllerId, n: u64, out: &mut Page) -> Deed
        ensures { DoesDeed (say 1 (settle_text controller n))
            self.old out.old self.new out.new result }
    {
        self.say_line(Line::Settle(controller, n), out)
    }

    /// Charges the board for a line on a part, and prints it.
    fn say_of_part(&mut self, n: u64, part: PartId, line: &PartLine<'_>, out: &mut Page) -> Deed
        ensures { DoesDeed (λ x. say n (part_line x.world.spec
            (name_at x.world.spec x.world.cluster.resources part.resource) part line.now) x)
            self.old out.old self.new out.new result }
    {
        self.charge(n)?;
        if self.muted {
            return Ok(());
        }
        let name = name_in(&self.spec, &self.board, part);
        print_part_line(line, name, part, &self.spec, out)?;
        Ok(())
    }

    /// Says that a replica is in ERROR, and nobody asked it to leave.
    pub fn say_failed(&mut self, instance: InstanceId, part: PartId, out: &mut Page) -> Deed
        ensures { DoesDeed (λ x.
            say 1 (failed_text x.world.spec x.world.cluster.resources instance part) x)
            self.old out.old self.new out.new result }
    {
        self.say_of_part(1, part, &PartLine::Failed(instance), out)
    }

    /// Says that a bound keeps a replica from a state.
    pub fn say_full(
        &mut self,
        full: &Full,
        shown: &[(SessionId, InstanceId)],
        out: &mut Page,
    ) -> Deed
        requires { shown.now ≡ live_shown self.old.board.cluster }
        ensures { DoesDeed (λ x. say (1 + length full.now.holders)
            (full_text x.world.spec x.world.cluster.resources (live_shown x.world.cluster) full.now) x)
            self.old out.old self.new out.new result }
    {
        let holders = full.holders.as_slice();
        self.charge(1 + holders.len() as u64)?;
        if self.muted {
            return Ok(());
        }
        let part = full.candidate.part;
        print_full(
            full,
            name_in(&self.spec, &self.board, part),
            shown,
            &self.spec,
            out,
        )?;
        Ok(())
    }

    /// Says who has a replica of a part.
    pub fn say_view(
        &mut self,
        part: PartId,
        holders: &[(InstanceId, StateId)],
        out: &mut Page,
    ) -> Deed
        ensures { DoesDeed (say_view_of part holders.now) self.old out.old self.new out.new result }
    {
        let charge = 1 + holders.len() as u64;
        self.say_of_part(charge, part, &PartLine::Seen(holders), out)
    }

    /// Says which instances are in a state of a part.
    pub fn say_route(
        &mut self,
        part: PartId,
        state: StateId,
        instances: &[InstanceId],
        out: &mut Page,
    ) -> Deed
        ensures { DoesDeed (say_route part state instances.now)
            self.old out.old self.new out.new result }
    {
        let charge = 1 + instances.len() as u64;
        self.say_of_part(charge, part, &PartLine::Route(state, instances), out)
    }

    /// Says what happened so far, in numbers.
    pub fn say_summary(&mut self, summary: &Summary, out: &mut Page) -> Deed
        ensures { DoesDeed (say 1 (text_of summary.now)) self.old out.old self.new out.new result }
    {
        self.say_line(Line::Summary(*summary), out)
    }
}
