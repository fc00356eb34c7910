//! Who is live, and how the resources are called.
ghost use Rattle.std.specs.Prelude.{◌≡◌, ◌∷◌, ◌++◌, [], OnOk, OnErr, IfOk};
ghost use Rattle.hx_cluster.specs.Ends.{instance_in, session_in};
ghost use Rattle.hx_cluster.specs.Steps.{opening};
ghost use Rattle.hx_cluster.specs.Events.{next, IsStep};
ghost use Rattle.hx_cluster.specs.declared.state.Cluster.{Cluster};
ghost use Rattle.hx_cluster.specs.declared.happenings.Event.{Event};
ghost use Rattle.hx_text.specs.Texts.{Prints};
ghost use Rattle.hx_print.specs.Texts;
ghost use Rattle.hx_print.specs.Rolls;

use crate::log::{ended_by_tick, joined_by, print_event};
use hx_cluster::{Admin, Did, Event, Resource, Spec};
use hx_ids::{InstanceId, SessionId};
use hx_lists::Seq;
use hx_text::Page;
use std::alloc::{AllocError, Global};

/// What the names in a log need of a cluster.
#[derive(Drop)]
pub struct Roll {
    /// For each resource by number, the place of its name among the resource names.
    pub resources: Seq<u32>,
    /// The live sessions in order of last beat, with their instances.
    pub live: Seq<(SessionId, InstanceId)>,
}

/// The instance of a session.
pub fn instance_in(shown: &[(SessionId, InstanceId)], session: SessionId) -> Option<InstanceId>
    ensures { result ≡ instance_in shown.now session }
{
    shown.iter().find(|e| e.0 == session).map(|e| e.1)
}

/// The session of an instance.
pub fn session_in(shown: &[(SessionId, InstanceId)], instance: InstanceId) -> Option<SessionId>
    ensures { result ≡ session_in shown.now instance }
{
    shown.iter().find(|e| e.1 == instance).map(|e| e.0)
}

/// The live sessions but one.
fn end(live: &mut Seq<(SessionId, InstanceId)>, session: SessionId)
    ensures { live.new ≡ Rolls.without session live.old }
{
    live.retain(|e| e.0 != session);
}

/// The live sessions but some.
fn end_all(live: &mut Seq<(SessionId, InstanceId)>, sessions: &[SessionId])
    ensures { live.new ≡ Rolls.without_all sessions.now live.old }
{
    for session in sessions {
        end(live, *session);
    }
}

/// The live sessions with one of them as the last.
fn beaten(
    live: &Seq<(SessionId, InstanceId)>,
    session: SessionId,
    instance: InstanceId,
) -> Result<Seq<(SessionId, InstanceId)>, AllocError>
    ensures { IfOk result (λ list.
        list ≡ Rolls.without session live.now ++ (session, instance) ∷ []) }
{
    let mut list = live.clone()?;
    end(&mut list, session);
    list.push((session, instance))?;
    Ok(list)
}

/// The names of resources by number.
fn names_of(alloc: Global, resources: &[Resource]) -> Result<Vec<u32>, AllocError>
    ensures { IfOk result (λ names. names.items ≡ Texts.names_of resources.now) }
{
    resources.iter().map(|r| r.name).collect(alloc)
}

impl Roll {
    /// The roll at the opening of a description.
    pub fn at_opening(alloc: Global, spec: &Spec) -> Result<Roll, AllocError>
        ensures { IfOk result (λ roll. roll ≡ Texts.roll_of (opening spec.now)) }
    {
        Ok(Roll {
            resources: Seq::from_vec(names_of(alloc, spec.resources.as_slice())?),
            live: Seq::new(alloc),
        })
    }

    /// Goes on to the roll after a step.
    fn follow_step(&mut self, step: &Admin, did: &Did) -> Result<(), AllocError>
        ensures ok { OnOk result (self.new ≡ Rolls.roll_after_step self.old step.now did.now) }
        ensures err { OnErr result (self.new ≡ self.old) }
    {
        match step {
            Admin::Join { instance } => match joined_by(did) {
                Some(session) => self.live.push((session, *instance)),
                None => Ok(()),
            },
            Admin::End { instance } => {
                if let Some(session) = session_in(self.live.as_slice(), *instance) {
                    end(&mut self.live, session);
                }
                Ok(())
            }
            Admin::Beat { instance } => {
                if let Some(session) = session_in(self.live.as_slice(), *instance) {
                    self.live = beaten(&self.live, session, *instance)?;
                }
                Ok(())
            }
            Admin::Tick { .. } => {
                end_all(&mut self.live, ended_by_tick(did));
                Ok(())
            }
            Admin::Add { name, .. } => self.resources.push(*name),
            _ => Ok(()),
        }
    }

    /// Goes on to the roll after an event. For want of memory it stays.
    pub fn follow(&mut self, event: &Event) -> Result<(), AllocError>
        ensures ok { OnOk result (self.new ≡ Rolls.roll_after self.old event.now) }
        ensures err { OnErr result (self.new ≡ self.old) }
    {
        match event {
            Event::Admin(step, did) => self.follow_step(step, did),
            _ => Ok(()),
        }
    }

    /// Prints an event that comes next, and goes on to the roll after it. For want of memory it
    /// stays.
    pub fn print_next(
        &mut self,
        event: &Event,
        spec: &Spec,
        page: &mut Page,
    ) -> Result<(), AllocError>
        ensures text { Prints (Texts.event_text spec.now self.old event.now)
            page.old result page.new }
        ensures ok { OnOk result (self.new ≡ Rolls.roll_after self.old event.now) }
        ensures err { OnErr result (self.new ≡ self.old) }
    {
        print_event(event, self, spec, page)?;
        self.follow(event)
    }
}

/// A law: a roll that goes on with each event of a cluster is the roll of the cluster.
pub fn rolls_follow_clusters()
    ensures { (c : Cluster) (e : Event) → IsStep c e →
        Texts.roll_of (next c e) ≡ Rolls.roll_after (Texts.roll_of c) e }
{}
