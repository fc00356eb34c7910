//! A plan whose report isn't made yet.
ghost use Rattle.std.specs.Prelude.{◌≡◌, true, [], IfOk};
ghost use Rattle.hx_gen.specs.Modelled.{has_models};
ghost use Rattle.hx_pass.specs.Plans.{all_candidates, plan as plan_of};
ghost use Rattle.hx_pass.specs.Drafts.{finished, proposed, reported};

use crate::plan;
use crate::plans::{plan_without, proposals_of};
use hx_cluster::{Candidate, Proposal, Report, Rule, Spec, View};
use hx_hops::Hops;
use hx_lists::Seq;
use hx_model::Model;
use std::alloc::{AllocError, Global};
use std::marker;
use std::snapshot::Snapshot;

/// What a plan sends. Contracts see also the models and rules of the description that it was made
/// with. What it holds back, and what finds no room, isn't kept: a report finds it again.
pub struct Draft {
    pub(crate) models: Snapshot<Seq<Model>>,
    pub(crate) rules: Snapshot<Seq<Rule>>,
    pub(crate) sent: Seq<Candidate>,
}

// A derived drop is written out, field by field, wherever one is dropped; this is a call.
impl Drop for Draft {
    fn drop(self) {
        let Draft {
            models: _,
            rules: _,
            sent: _,
        } = self;
    }
}

impl marker::Model for Draft {
    ghost use Rattle.hx_pass.specs.Drafts.{Draft as Seen};

    ghost Value = { Seen };

    ghost view = { λ d. record {
      models = d.models.value;
      rules = d.rules.value;
      sent = d.sent;
    } };
}

impl Draft {
    /// What is proposed.
    pub fn proposals(&self, alloc: Global) -> Result<Seq<Proposal>, AllocError>
        ensures { IfOk result (λ proposals. proposals ≡ proposed self.now) }
    {
        proposals_of(alloc, self.sent.as_slice())
    }

    /// What is found of each target, by what the view shows, with a description by which the plan
    /// of the view is the drafted one. `hops` are those of its models. It costs a whole plan.
    pub fn report(
        &self,
        alloc: Global,
        spec: &Spec,
        hops: &[Hops],
        view: &View,
    ) -> Result<Report, AllocError>
        requires hops { hops.now ≡ spec.now.models }
        requires models { has_models spec.now.models view.now ≡ true }
        requires planned { finished view.now self.now
            ≡ plan_of spec.now.models spec.now.rules view.now }
        ensures { IfOk result (λ report. report ≡ reported view.now self.now) }
    {
        let plan = plan(alloc, spec, hops, view)?;
        Ok(plan.report)
    }

    /// The same of a view that is known to have no candidates. It costs no more than a look at each
    /// row, and no memory, where each replica is at its best.
    pub fn report_without(
        &self,
        alloc: Global,
        spec: &Spec,
        view: &View,
    ) -> Result<Report, AllocError>
        requires none { all_candidates spec.now.models view.now ≡ [] }
        requires planned { finished view.now self.now
            ≡ plan_of spec.now.models spec.now.rules view.now }
        ensures { IfOk result (λ report. report ≡ reported view.now self.now) }
    {
        let models = spec.models.as_slice();
        let plan = plan_without(alloc, models, spec.rules.as_slice(), view)?;
        Ok(plan.report)
    }
}
