//! One step of a cluster. It is refused exactly where its refusal says so, but for want of memory.
//! Its answer comes before its change: a caller that records both has made the record by then.
ghost use Rattle.std.specs.Prelude.{◌≡◌, None, true, false, length, OnOk, OnErr, IfOk, IsErrOf};
ghost use Rattle.hx_cluster.specs.Steps.{refusal_of, after, did_of, is_in_range};
ghost use Rattle.hx_cluster.specs.Numbered.{IsNumbered, is_end};
ghost use Rattle.hx_cluster.specs.Room.{HasRoom};
ghost use Rattle.hx_lists.specs.Answers.{RefusedBy};

use crate::happenings::{Admin, Did, StepFault};
use crate::state::Cluster;
use hx_ids::{ResourceId, SessionId};
use hx_lists::Seq;
use std::alloc::AllocError;

impl Cluster {
    /// What a step answers that nothing refuses. Only that of a tick takes memory.
    pub fn answer_to(&self, step: &Admin) -> Result<Did, AllocError>
        requires may { refusal_of self.now step.now ≡ None }
        requires ids { IsNumbered self.now }
        ensures did { IfOk result (λ did. did ≡ did_of self.now step.now) }
        ensures memory { OnErr result (is_end step.now ≡ false) }
    {
        match step {
            Admin::Join { .. } => Ok(Did::Joined(SessionId(self.next_session))),
            Admin::Tick { n } => {
                let ended = self.expired(self.clock + n)?;
                Ok(Did::Ended(Seq::from_vec(ended)))
            }
            Admin::Add { .. } => Ok(Did::Added(ResourceId(self.resources.len() as u32))),
            Admin::Lead { .. } => Ok(Did::Leads(self.epoch)),
            _ => Ok(Did::Done),
        }
    }

    /// Makes a step that nothing refuses, with its answer. An end takes no memory.
    pub fn make(&mut self, step: &Admin, did: &Did) -> Result<(), AllocError>
        requires may { refusal_of self.old step.now ≡ None }
        requires did { did.now ≡ did_of self.old step.now }
        requires range { is_in_range self.old step.now ≡ true }
        requires room { HasRoom self.old }
        ensures ok { OnOk result (self.new ≡ after self.old step.now) }
        ensures err { OnErr result (self.new ≡ self.old) }
        ensures memory { OnErr result (is_end step.now ≡ false) }
    {
        match step {
            Admin::Join { instance } => return self.open_session(*instance),
            Admin::End { instance } => self.end(*instance),
            Admin::Beat { instance } => return self.beat(*instance),
            Admin::Tick { n } => {
                let Did::Ended(ended) = did else {
                    unreachable!()
                };
                self.tick(*n, ended.as_slice());
            }
            Admin::Drain { instance } => self.set_drained(*instance, true),
            Admin::Undrain { instance } => self.set_drained(*instance, false),
            Admin::Add { name, model, ideal } => return self.add(*name, *model, ideal),
            Admin::Drop { resource } => self.drop_resource(*resource),
            Admin::SetList { part, list } => return self.set_list(*part, list),
            Admin::SetMap { part, map } => return self.set_map(*part, map),
            Admin::Reset { instance, part } => return self.reset(*instance, *part),
            Admin::Lead { controller } => self.leader = Some(*controller),
            Admin::Stop { controller } => self.stop(*controller),
            Admin::Start { controller } => self.set_down(*controller, false),
        }
        Ok(())
    }

    /// Makes a step. An end takes no memory.
    pub fn admin(&mut self, step: &Admin) -> Result<Did, StepFault>
        requires range { is_in_range self.old step.now ≡ true }
        requires room { HasRoom self.old }
        ensures refused { RefusedBy StepFault.OutOfMemory (refusal_of self.old step.now) result }
        ensures did { IfOk result (λ did. did ≡ did_of self.old step.now) }
        ensures ok { OnOk result (self.new ≡ after self.old step.now) }
        ensures err { OnErr result (self.new ≡ self.old) }
        ensures memory { IsErrOf result StepFault.OutOfMemory → is_end step.now ≡ false }
    {
        if let Some(fault) = self.refuses(step) {
            return Err(fault);
        }
        let did = self.answer_to(step)?;
        self.make(step, &did)?;
        Ok(did)
    }
}
