//! What is chosen of candidates.
ghost use Rattle.std.specs.Prelude.{◌≡◌, IfOk};
ghost use Rattle.hx_parts.specs.Parts.{IsByPart};
ghost use Rattle.hx_select.specs.Selection.{accepted_of};
ghost use Rattle.hx_pass.specs.Waiting.{HasWaiting};

use hx_cluster::Candidate;
use hx_lists::Seq;
use hx_model::Model;
use hx_parts::ViewIndex;
use hx_select::accepted_on;
use std::alloc::{AllocError, Global};

/// The candidates for which the bounds leave room, in order, and others that tell of which parts a
/// candidate may be left.
#[derive(Drop)]
pub struct Choice {
    pub accepted: Seq<Candidate>,
    pub waiting: Vec<Candidate>,
}

/// What is chosen of candidates. None waits where each was accepted; else they all do.
pub fn choose_on(
    alloc: Global,
    models: &[Model],
    index: &ViewIndex,
    candidates: Vec<Candidate>,
) -> Result<Choice, AllocError>
    requires by_part { IsByPart (λ c. c.part) candidates.items }
    ensures accepted { IfOk result (λ choice.
        choice.accepted ≡ accepted_of models.now index.now candidates.items) }
    ensures waiting { IfOk result (λ choice.
        HasWaiting candidates.items choice.accepted choice.waiting.items) }
{
    let accepted = accepted_on(alloc, models, index, candidates.as_slice())?;
    let waiting = if accepted.len() == candidates.len() {
        Vec::new(alloc)
    } else {
        candidates
    };
    Ok(Choice { accepted, waiting })
}
