//! The test whether a board, its controllers and its participants agree: between the lines of a
//! script, while nothing is open. Nothing here takes memory.
#![tactic(auto)]

ghost use Rattle.std.specs.Prelude.{◌↔◌, IsTrue, map};
ghost use Rattle.hx_worlds.specs.Agree.{Agree};
ghost use Rattle.hx_agree.specs.Tests.{board_state, stationed};

mod numbers;
mod parts;
mod settled;
mod staff;
mod untouched;

pub use crate::numbers::{joined_in, sent_in};
use crate::numbers::{joined_on, sent_on};
use crate::settled::are_settled;
use crate::staff::{are_controllers, are_idle, are_participants, are_quiet, have_begun};
use crate::untouched::are_cared_for;
use hx_board::Board;
use hx_cluster::Spec;
use hx_control::Controller;
use hx_handler::Factory;
use hx_replicas::Participant;

/// Whether the parts of a world agree: the board is one of this description; there is a controller
/// for each number and a participant for each instance, in order, none of them at work; and each
/// participant whose session is live stands as the board has it. It takes no memory.
pub fn agree<F: Factory>(
    spec: &Spec,
    board: &Board,
    controllers: &[Controller],
    participants: &[Participant<F>],
) -> bool
    ensures { IsTrue result
        ↔ Agree spec.now (board_state board.now) controllers.now
        (map stationed participants.now) }
{
    // What holds of every board: its history is legal, and the cluster is what it makes.
    board.history();
    let instances = spec.instances.len();
    if !board.of_spec(spec) {
        return false;
    }
    if !are_controllers(spec.controllers, controllers) {
        return false;
    }
    if !are_participants(instances, participants) {
        return false;
    }
    if !are_idle(controllers) {
        return false;
    }
    if !are_quiet(participants) {
        return false;
    }
    if !have_begun(joined_on(board), participants) {
        return false;
    }
    if !are_cared_for(instances, board, participants) {
        return false;
    }
    are_settled(sent_on(board), spec, board, participants)
}
