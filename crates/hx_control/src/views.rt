//! What a turn was shown: whether it is of a board.
ghost use Rattle.std.specs.Prelude.{◌≡◌, ◌≤◌, true, length, IfOk};
ghost use Rattle.std.specs.List.{list_all};
ghost use Rattle.hx_lists.specs.Lists.{numbers_below};
ghost use Rattle.hx_cluster.specs.Views.{is_well_formed};
ghost use Rattle.hx_board.specs.Board.{HasHistory};
ghost use Rattle.hx_formed.specs.Formed.{IsFound};
ghost use Rattle.hx_control.specs.Steps.{has_parts_of, is_of_cluster};

use hx_board::Board;
use hx_cluster::{Spec, View};
use hx_formed::Formed;
use hx_ids::ResourceId;
use std::alloc::{AllocError, Global};

/// Whether a board has each part of one of the resources that were shown.
fn has_parts_of(board: &Board, view: &View, place: u32) -> bool
    ensures { result ≡ has_parts_of board.now.cluster view.now place }
{
    let resource = ResourceId(place);
    let parts = match view.ideals.resources.get(place as usize) {
        Some(shown) => shown.ideal.parts(),
        None => return true,
    };
    match board.resource(resource) {
        Some(there) => parts <= there.ideal.parts(),
        None => parts == 0,
    }
}

/// Whether a board has each part of the resources that were shown.
#[tactic(auto, using(crate::proofs::Numbers::first_number, crate::proofs::Numbers::no_number))]
fn has_parts(board: &Board, view: &View) -> bool
    requires { length view.now.ideals.resources ≤ 256 }
    ensures { result
        ≡ list_all (has_parts_of board.now.cluster view.now)
        (numbers_below (length view.now.ideals.resources)) }
{
    for place in 0..view.ideals.resources.len() as u32 {
        if !has_parts_of(board, view, place) {
            return false;
        }
    }
    true
}

/// Whether a view is well formed, and of a board. What was found of the view before isn't found
/// again. What holds of every board comes with it.
#[tactic(auto, using(crate::proofs::Given::instances_given))]
pub(crate) fn is_of_board(
    alloc: Global,
    spec: &Spec,
    board: &Board,
    view: &View,
    formed: &Formed,
) -> Result<bool, AllocError>
    requires board { board.now.spec ≡ spec.now }
    requires formed { IsFound formed.now view.now }
    ensures is { IfOk result (λ is. is ≡ is_of_cluster spec.now board.now.cluster view.now) }
    ensures history { HasHistory board.now }
{
    board.history();
    let instances = spec.instances.len() as usize;
    if !formed.tells(alloc, spec.models.as_slice(), instances, view)? {
        return Ok(false);
    }
    Ok(has_parts(board, view))
}

/// Keeps that a view is well formed, and tells whether it is of a board.
pub(crate) fn keep_of_board(
    alloc: Global,
    spec: &Spec,
    board: &Board,
    view: &View,
    formed: &mut Formed,
) -> Result<bool, AllocError>
    requires board { board.now.spec ≡ spec.now }
    requires formed { is_well_formed spec.now.models (length spec.now.instances) view.now ≡ true }
    ensures is { IfOk result (λ is. is ≡ is_of_cluster spec.now board.now.cluster view.now) }
    ensures found { IsFound formed.old view.now → IsFound formed.new view.now }
{
    let instances = spec.instances.len() as usize;
    formed.keep(spec.models.as_slice(), instances, view)?;
    is_of_board(alloc, spec, board, view, formed)
}
