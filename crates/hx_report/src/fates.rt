//! What became of the candidates of targets.
ghost use Rattle.std.specs.Prelude.{◌≡◌, IfOk};
ghost use Rattle.hx_cluster.specs.declared.planning.Finding.TheVariants as findings;
ghost use Rattle.hx_report.specs.Findings.{fate_of};

use crate::places::{first_of, first_places};
use hx_cluster::{Finding, Full, Selection, Target, Throttled};
use hx_ids::{PartId, SessionId};
use std::alloc::{AllocError, Global};
use std::collections::BTreeMap;
use std::marker::Model;

/// What was selected and throttled, found by session and part. Contracts see both.
#[derive(Drop)]
pub struct Fates<'a> {
    selection: &'a Selection,
    throttled: &'a Throttled,
    sent: BTreeMap<(SessionId, PartId), usize>,
    held: BTreeMap<(SessionId, PartId), usize>,
    full: BTreeMap<(SessionId, PartId), usize>,
}

impl<'a> Model for Fates<'a> {
    ghost use Rattle.hx_cluster.specs.declared.planning.Selection.{Selection};
    ghost use Rattle.hx_cluster.specs.declared.planning.Throttled.{Throttled};

    ghost Value = { Selection × Throttled };

    ghost use Rattle.hx_report.specs.Places.{AreFates};

    ghost view = { λ a. (a.selection.now, a.throttled.now) };

    ghost invariant = { λ a. AreFates a.selection.now a.throttled.now a.sent a.held a.full };
}

/// The same again.
fn copied(full: &Full) -> Result<Full, AllocError>
    ensures { IfOk result (λ copy. copy ≡ full.now) }
{
    Ok(Full {
        candidate: full.candidate,
        count: full.count,
        bound: full.bound,
        holders: full.holders.clone()?,
    })
}

impl<'a> Fates<'a> {
    /// The fates of the candidates of a pass.
    pub fn new(
        alloc: Global,
        selection: &'a Selection,
        throttled: &'a Throttled,
    ) -> Result<Fates<'a>, AllocError>
        ensures { IfOk result (λ fates. fates ≡ (selection.now, throttled.now)) }
    {
        Ok(Fates {
            selection,
            throttled,
            sent: first_places(alloc, throttled.sent.as_slice())?,
            held: first_places(alloc, throttled.held.as_slice())?,
            full: first_places(alloc, selection.full.as_slice())?,
        })
    }

    /// What became of a target's candidate. A target without one is at its best.
    pub fn of(&self, target: &Target) -> Result<Finding, AllocError>
        ensures { IfOk result (λ fate. fate ≡ fate_of self.now.0 self.now.1 target.now) }
    {
        let Target { session, part, .. } = *target;
        let Throttled { sent, held } = self.throttled;
        if first_of(sent.as_slice(), &self.sent, session, part).is_some() {
            return Ok(Finding::Sent);
        }
        if let Some(held) = first_of(held.as_slice(), &self.held, session, part) {
            return Ok(Finding::Held(*held));
        }
        let full = self.selection.full.as_slice();
        match first_of(full, &self.full, session, part) {
            Some(full) => Ok(Finding::Full(copied(full)?)),
            None => Ok(Finding::AtBest),
        }
    }
}
