//! How accepted messages are run: taken, written and acknowledged.

ghost use Rattle.std.specs.Prelude.{◌≡◌, ◌<◌, true, is_some, IfOk, OnErr, IfSome, IfNone};
ghost use Rattle.std.specs.Prelude.{vec_len, vec_capacity};
ghost use Rattle.std.specs.Option.{option_map, ForSome};
ghost use Rattle.hx_cluster.specs.Steps.{has_instance};
ghost use Rattle.hx_board.specs.Board.{HasHistory};
ghost use Rattle.hx_replicas.specs.declared.slots.Work.TheVariants.{Out};
ghost use Rattle.hx_replicas.specs.Participants.{accepted_by, slot_of};
ghost use Rattle.hx_worlds.specs.Jobs.{do_take, do_write, do_ack};
ghost use Rattle.hx_scene.specs.Doing.{DoesDeed};
ghost use Rattle.hx_scene.specs.Taking.{HandsOut, IsStill, TakesJob, TakesTo, IsCutShort};

use crate::jobs::{OpenJob, end_at, place_of};
use crate::{Deed, Scene};
use hx_board::Board;
use hx_cluster::{Event, Message};
use hx_handler::Factory;
use hx_ids::{InstanceId, MsgId, SessionId};
use hx_print::Note;
use hx_replicas::{Job, Participant};
use hx_text::Page;
use hx_worlds::Voice;
use std::alloc::AllocError;

/// The most messages that are handed out.
const MOST_HANDED: u64 = 1 << 62;

/// Hands out an accepted message of a participant by its number.
fn hand_out<F: Factory>(
    participant: &mut Participant<F>,
    id: MsgId,
) -> Result<Option<Job<F::H>>, AllocError>
    ensures asked { IfOk result (λ found.
        option_map (λ job. job.message) found ≡ accepted_by participant.old.plain id) }
    ensures some { IfOk result (λ found.
        IfSome found (HandsOut participant.old participant.new)) }
    ensures none { IfOk result (λ found.
        IfNone found (IsStill participant.old participant.new)) }
    ensures err { OnErr result (IsStill participant.old participant.new) }
{
    participant.reserve(0)?;
    participant.job_of(id)
}

/// Takes a job's message on a board and runs the job, which stands with the open ones then. Where
/// its session has ended it is put back. It takes no memory.
fn run_taken<F: Factory>(
    board: &mut Board,
    jobs: &mut Vec<OpenJob<F::H>>,
    participant: &mut Participant<F>,
    instance: InstanceId,
    job: Job<F::H>,
) -> Result<(SessionId, MsgId), Note>
    requires room { vec_len jobs.old < vec_capacity jobs.old }
    requires out { (slot_of participant.old.plain job.message.part).work
        ≡ Out job.message (is_some job.handler) }
    requires listed { ForSome job.handler (λ h. h.listed ≡ participant.old.listed) }
    ensures takes { TakesJob instance job board.old board.new jobs.old.items jobs.new.items
        participant.old participant.new result }
    ensures history { HasHistory board.new }
{
    let Message { session, id, .. } = *job.message();
    let taken = board.take(session, id);
    board.history();
    match taken {
        Ok(()) => {
            jobs.push_reserved(OpenJob {
                instance,
                ran: job.run(),
                is_written: false,
            });
            Ok((session, id))
        }
        Err(_) => {
            participant.finish(job.put_back());
            Err(Note::SessionEnded)
        }
    }
}

impl<F: Factory> Scene<F> {
    /// Hands out an accepted message, takes it on the board and runs its transition. Where its
    /// session has ended it is put back.
    pub fn take(&mut self, voice: Voice, instance: InstanceId, id: MsgId, out: &mut Page) -> Deed
        requires { has_instance self.old.board.cluster instance ≡ true }
        ensures { DoesDeed (do_take voice instance id) self.old out.old self.new out.new result }
    {
        match self.take_job(instance, id)? {
            Ok((session, number)) => self.print_given(&Event::Take(session, number), out),
            Err(why) => self.note(voice, &why, out),
        }
    }

    /// Takes an accepted message and runs it, as `take` does, or says why not. It prints nothing.
    fn take_job(
        &mut self,
        instance: InstanceId,
        id: MsgId,
    ) -> Result<Result<(SessionId, MsgId), Note>, AllocError>
        requires { has_instance self.old.board.cluster instance ≡ true }
        ensures ok { IfOk result (λ told. TakesTo instance id self.old self.new told) }
        ensures err { OnErr result (IsCutShort instance id self.old self.new) }
    {
        if self.handed >= MOST_HANDED {
            return Err(AllocError);
        }
        self.jobs.reserve(1)?;
        let participant = &mut self.participants[instance.0 as usize];
        let Some(job) = hand_out(participant, id)? else {
            return Ok(Err(Note::NoJob));
        };
        self.handed += 1;
        Ok(run_taken(&mut self.board, &mut self.jobs, participant, instance, job))
    }

    /// Writes the outcome of an open job to the board. Where its session has ended the job ends.
    pub fn write(&mut self, voice: Voice, instance: InstanceId, id: MsgId, out: &mut Page) -> Deed
        requires { has_instance self.old.board.cluster instance ≡ true }
        ensures { DoesDeed (do_write voice instance id) self.old out.old self.new out.new result }
    {
        let Some(place) = place_of(&self.jobs, instance, id) else {
            return self.note(voice, &Note::NoJob, out);
        };
        let job = &self.jobs[place];
        if job.is_written {
            return self.note(voice, &Note::NoJob, out);
        }
        let session = job.session();
        let number = job.id();
        let outcome = job.outcome();
        let written = self.board.write(session, number, outcome);
        self.board.history();
        match written {
            Ok(()) => {
                self.jobs[place].is_written = true;
                self.print_given(&Event::Write(session, number, outcome), out)
            }
            Err(_) => {
                end_at(&mut self.jobs, &mut self.participants, place);
                self.note(voice, &Note::SessionEnded, out)
            }
        }
    }

    /// Acknowledges an open job whose outcome is written. The job ends, also where its session has.
    pub fn ack(&mut self, voice: Voice, instance: InstanceId, id: MsgId, out: &mut Page) -> Deed
        requires { has_instance self.old.board.cluster instance ≡ true }
        ensures { DoesDeed (do_ack voice instance id) self.old out.old self.new out.new result }
    {
        let Some(place) = place_of(&self.jobs, instance, id) else {
            return self.note(voice, &Note::NoJob, out);
        };
        let job = &self.jobs[place];
        if !job.is_written {
            return self.note(voice, &Note::NoJob, out);
        }
        let session = job.session();
        let number = job.id();
        let acked = self.board.ack(session, number);
        self.board.history();
        end_at(&mut self.jobs, &mut self.participants, place);
        match acked {
            Ok(()) => self.print_given(&Event::Ack(session, number), out),
            Err(_) => self.note(voice, &Note::SessionEnded, out),
        }
    }
}
