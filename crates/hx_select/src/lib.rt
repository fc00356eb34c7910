//! The candidates that the bounds of their states allow.
#![tactic(auto)]

mod fillings;
mod part_fillings;

ghost use Rattle.std.specs.Prelude.{◌≡◌, List, Bool, IfOk};
ghost use Rattle.std.specs.List.{items_where_true};
ghost use Rattle.hx_model.specs.declared.ModelParts.{ModelParts};
ghost use Rattle.hx_cluster.specs.declared.planning.View.{View};
ghost use Rattle.hx_cluster.specs.declared.planning.Candidate.{Candidate};
ghost use Rattle.hx_parts.specs.Parts.{IsByPart};
ghost use Rattle.hx_select.specs.Selection.{accepted_of, selection, IsSelection};

use crate::fillings::Fillings;
use crate::part_fillings::PartFillings;
use hx_cluster::{Candidate, Selection, Spec, View};
use hx_lists::Seq;
use hx_model::Model;
use hx_parts::ViewIndex;
use std::alloc::{AllocError, Global};

/// The candidates for which the bounds of their states leave room, and those for which they don't,
/// in their order.
pub fn select(
    alloc: Global,
    spec: &Spec,
    view: &View,
    candidates: &[Candidate],
) -> Result<Selection, AllocError>
    ensures { IfOk result (λ all. all ≡ selection spec.now.models view.now candidates.now) }
{
    let index = ViewIndex::new(alloc, view)?;
    select_on(alloc, spec.models.as_slice(), &index, candidates)
}

/// The same by the index of a view.
pub fn select_on(
    alloc: Global,
    models: &[Model],
    index: &ViewIndex,
    candidates: &[Candidate],
) -> Result<Selection, AllocError>
    ensures { IfOk result (λ all. all ≡ selection models.now index.now candidates.now) }
{
    let mut fillings = Fillings::new(alloc);
    let mut accepted = Seq::new(alloc);
    let mut full = Seq::new(alloc);
    for candidate in candidates {
        let limit = index.limit_of(models, candidate.part, candidate.to);
        match fillings.judge(index, candidate, limit)? {
            Some(entry) => full.push(entry)?,
            None => accepted.push(*candidate)?,
        }
    }
    Ok(Selection { accepted, full })
}

/// The candidates for which the bounds of their states leave room, in their order. Nothing is said
/// of the others, so that it keeps no more than the states of one part.
pub fn accepted_on(
    alloc: Global,
    models: &[Model],
    index: &ViewIndex,
    candidates: &[Candidate],
) -> Result<Seq<Candidate>, AllocError>
    requires by_part { IsByPart (λ c. c.part) candidates.now }
    ensures { IfOk result (λ accepted.
        accepted ≡ accepted_of models.now index.now candidates.now) }
{
    let mut fillings = PartFillings::new(alloc);
    let mut accepted = Seq::new(alloc);
    accepted.reserve(candidates.len())?;
    for candidate in candidates {
        if fillings.accepts(models, index, candidate)? {
            accepted.push(*candidate)?;
        }
    }
    Ok(accepted)
}

/// The bounds name exactly one list of candidates, the accepted ones.
pub fn bounds_name_one_list()
    ensures some { (models : List ModelParts) (view : View) (candidates : List Candidate) → (marks : List Bool) × IsSelection models view candidates marks × (items_where_true marks candidates ≡ accepted_of models view candidates) }
    ensures one { (models : List ModelParts) (view : View) (candidates : List Candidate) (a b : List Bool) → IsSelection models view candidates a → IsSelection models view candidates b → a ≡ b }
{}
