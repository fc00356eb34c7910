//! Open jobs: messages that were taken and run, and aren't done.

ghost use Rattle.std.specs.Prelude.{◌≡◌, ◌+◌, ◌<◌, ◌++◌, [], map, filter, take, drop};
ghost use Rattle.std.specs.Prelude.{length, position, slice_get, Some, IfOk};
ghost use Rattle.std.specs.List.{All};
ghost use Rattle.hx_lists.specs.Lists.{sort_by};
ghost use Rattle.hx_worlds.specs.Jobs.{is_job, is_job_of, job_before};
ghost use Rattle.hx_scene.specs.Scenes.{OpenState, plain_job, open_numbers};
ghost use Rattle.hx_scene.specs.Ending.{CanEnd, AreOfScene, KeepsParts, Adopts, Follows, IsAtRest};
ghost use Rattle.hx_scene.specs.Ending.{ended_staff, plain_staff, staff_in};

use crate::Scene;
use hx_cluster::Outcome;
use hx_handler::{Factory, Handler};
use hx_ids::{InstanceId, MsgId, SessionId};
use hx_lists::insert_reserved;
use hx_replicas::{Participant, Ran};
use std::alloc::{AllocError, Global};
use std::marker::Model;

/// A job that was run on an instance, and whether its outcome was written.
pub struct OpenJob<H: Handler> {
    pub(crate) instance: InstanceId,
    pub(crate) ran: Ran<H>,
    pub(crate) is_written: bool,
}

impl<H: Handler> Model for OpenJob<H> {
    ghost use Rattle.hx_scene.specs.Scenes.{OpenState};

    ghost Value = { OpenState };

    ghost view = { λ a. record {
      instance = a.instance;
      ran = a.ran;
      is_written = a.is_written;
    } };
}

impl<H: Handler> OpenJob<H> {
    pub(crate) fn id(&self) -> MsgId
        ensures { result ≡ self.now.ran.message.id }
    {
        self.ran.message().id
    }

    pub(crate) fn session(&self) -> SessionId
        ensures { result ≡ self.now.ran.message.session }
    {
        self.ran.message().session
    }

    pub(crate) fn outcome(&self) -> Outcome
        ensures { result ≡ self.now.ran.outcome }
    {
        self.ran.outcome()
    }

    fn is(&self, instance: InstanceId, id: MsgId) -> bool
        ensures { result ≡ is_job instance id (plain_job self.now) }
    {
        self.instance == instance && self.id() == id
    }
}

/// Where the open job of an instance and a number is.
pub(crate) fn place_of<H: Handler>(
    jobs: &[OpenJob<H>],
    instance: InstanceId,
    id: MsgId,
) -> Option<usize>
    ensures { result ≡ position (λ j. is_job instance id (plain_job j)) jobs.now }
{
    jobs.iter().position(|job| job.is(instance, id))
}

/// Ends a job by its outcome, and gives its handler back. It takes no memory.
pub(crate) fn end_at<F: Factory>(
    jobs: &mut Vec<OpenJob<F::H>>,
    participants: &mut Vec<Participant<F>>,
    place: usize,
)
    requires place { place < length jobs.old.items }
    requires can { (j : OpenState) → slice_get jobs.old.items place ≡ Some j
        → CanEnd participants.old.items j }
    ensures jobs { jobs.new.items
        ≡ take place jobs.old.items ++ drop (place + 1) jobs.old.items }
    ensures plain { (j : OpenState) → slice_get jobs.old.items place ≡ Some j
        → plain_staff participants.new.items
        ≡ ended_staff j (plain_staff participants.old.items)
        (staff_in participants.old.items j.instance).plain }
    ensures kept { KeepsParts jobs.old.items jobs.new.items
        participants.old.items participants.new.items }
{
    let OpenJob {
        instance,
        ran,
        is_written: _,
    } = jobs.remove(place);
    participants[instance.0 as usize].finish(ran.done());
}

/// Ends all open jobs. It takes no memory.
pub(crate) fn end_all<F: Factory>(
    jobs: &mut Vec<OpenJob<F::H>>,
    participants: &mut Vec<Participant<F>>,
)
    requires { AreOfScene jobs.old.items participants.old.items }
    ensures jobs { jobs.new.items ≡ [] }
    ensures rest { All IsAtRest participants.new.items }
{
    while !jobs.is_empty() {
        end_at(jobs, participants, 0);
    }
}

/// Ends the open jobs of an instance, which have these numbers, and gives its participant a
/// session. It takes no memory.
pub(crate) fn adopt<F: Factory>(
    jobs: &mut Vec<OpenJob<F::H>>,
    participants: &mut Vec<Participant<F>>,
    instance: InstanceId,
    session: Option<SessionId>,
    numbers: &[MsgId],
)
    requires parts { AreOfScene jobs.old.items participants.old.items }
    requires instance { instance.0 < length participants.old.items }
    requires numbers { numbers.now ≡ map (λ j. j.message.id)
        (sort_by job_before (filter (is_job_of instance) (map plain_job jobs.old.items))) }
    ensures adopts { Adopts instance session jobs.old.items jobs.new.items
        participants.old.items participants.new.items }
    ensures kept { KeepsParts jobs.old.items jobs.new.items
        participants.old.items participants.new.items }
{
    for id in numbers {
        let Some(place) = place_of(jobs, instance, *id) else {
            unreachable!()
        };
        end_at(jobs, participants, place);
    }
    participants[instance.0 as usize].adopt(session);
}

/// Gives an instance's participant a session, as `adopt` does, where it has another one. It takes
/// no memory.
pub(crate) fn follow<F: Factory>(
    jobs: &mut Vec<OpenJob<F::H>>,
    participants: &mut Vec<Participant<F>>,
    instance: InstanceId,
    session: Option<SessionId>,
    numbers: &[MsgId],
)
    requires parts { AreOfScene jobs.old.items participants.old.items }
    requires instance { instance.0 < length participants.old.items }
    requires numbers { numbers.now ≡ map (λ j. j.message.id)
        (sort_by job_before (filter (is_job_of instance) (map plain_job jobs.old.items))) }
    ensures follows { Follows instance session jobs.old.items jobs.new.items
        participants.old.items participants.new.items }
    ensures kept { KeepsParts jobs.old.items jobs.new.items
        participants.old.items participants.new.items }
{
    if participants[instance.0 as usize].session() == session {
        return;
    }
    adopt(jobs, participants, instance, session, numbers);
}

/// The numbers of an instance's jobs, rising.
fn numbers_of<H: Handler>(
    alloc: Global,
    jobs: &[OpenJob<H>],
    instance: InstanceId,
) -> Result<Vec<MsgId>, AllocError>
    ensures { IfOk result (λ numbers. numbers.items ≡ map (λ j. j.message.id)
        (sort_by job_before (filter (is_job_of instance) (map plain_job jobs.now)))) }
{
    let mut numbers = Vec::with_capacity(alloc, jobs.len())?;
    for i in (0..jobs.len()).rev() {
        let job = &jobs[i];
        if job.instance == instance {
            let id = job.id();
            insert_reserved(&mut numbers, id, |other| other.0 < id.0);
        }
    }
    Ok(numbers)
}

impl<F: Factory> Scene<F> {
    /// The numbers of an instance's open jobs, rising.
    #[inline(always)]
    pub fn open_jobs(&self, instance: InstanceId) -> Result<Vec<MsgId>, AllocError>
        ensures { IfOk result (λ numbers. numbers.items ≡ open_numbers self.now instance) }
    {
        if self.jobs.is_empty() {
            return Ok(Vec::new(self.alloc()));
        }
        numbers_of(self.alloc(), self.jobs.as_slice(), instance)
    }
}
