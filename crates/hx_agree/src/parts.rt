//! The parts of a board, by its readers.
ghost use Rattle.std.specs.Prelude.{◌≡◌, length};
ghost use Rattle.hx_cluster.specs.Ends.{parts_of};
ghost use Rattle.hx_cluster.specs.Events.{has_part};
ghost use Rattle.hx_agree.specs.Tests.{initial_at};

use hx_board::Board;
use hx_cluster::Spec;
use hx_ids::{PartId, ResourceId, StateId};
use hx_model::DROPPED;

/// How many resources there are, dropped ones too.
pub(crate) fn resources(board: &Board) -> u32
    ensures { result ≡ length board.now.cluster.resources }
{
    board.history();
    board.resources().len() as u32
}

/// How many parts a resource has.
pub(crate) fn parts_of(board: &Board, resource: ResourceId) -> u32
    ensures { result ≡ parts_of board.now.cluster.resources resource }
{
    match board.resource(resource) {
        Some(there) => there.ideal.parts(),
        None => 0,
    }
}

/// Whether a part is there.
pub(crate) fn has_part(board: &Board, part: PartId) -> bool
    ensures { result ≡ has_part board.now.cluster part }
{
    part.index < parts_of(board, part.resource)
}

/// The initial state of a part's model.
pub(crate) fn initial_of(spec: &Spec, board: &Board, part: PartId) -> StateId
    ensures { result ≡ initial_at spec.now.models board.now.cluster part }
{
    let Some(resource) = board.resource(part.resource) else {
        return DROPPED;
    };
    match spec.models.as_slice().get(resource.model.0 as usize) {
        Some(model) => model.initial(),
        None => DROPPED,
    }
}
