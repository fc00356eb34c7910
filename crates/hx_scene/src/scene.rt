//! The parts of a world, and what stands in them.

ghost use Rattle.std.specs.Prelude.{◌≡◌, true, false, [], IfOk};
ghost use Rattle.std.specs.List.{All};
ghost use Rattle.hx_cluster.specs.Steps.{has_instance, has_controller};
ghost use Rattle.hx_board.specs.Board.{HasHistory};
ghost use Rattle.hx_replicas.specs.Participants.{accepted_all};
ghost use Rattle.hx_worlds.specs.World.{controller_of, participant_of};
ghost use Rattle.hx_worlds.specs.Agree.{Agree, stationed_from};
ghost use Rattle.hx_agreed.specs.OfParts.{IsOrderly};
ghost use Rattle.hx_scene.specs.Scenes.{world_of};
ghost use Rattle.hx_scene.specs.Kept.{IsScene};
ghost use Rattle.hx_scene.specs.Ending.{IsAtRest, plain_staff};

use crate::bag::Bag;
use crate::jobs::{OpenJob, end_all};
use hx_board::Board;
use hx_cluster::{Message, Spec};
use hx_control::Controller;
use hx_handler::Factory;
use hx_hops::Hops;
use hx_ids::{ControllerId, InstanceId};
use hx_model::Model as StateModel;
use hx_replicas::Participant;
use std::alloc::{AllocError, Global};
use std::marker::Model;

/// What a scene is made of: a board of a description, and the controllers and participants that act
/// on it.
pub struct Parts<F: Factory> {
    pub spec: Spec,
    pub board: Board,
    pub controllers: Vec<Controller>,
    /// By instance.
    pub participants: Vec<Participant<F>>,
}

/// A board with the controllers and participants that act on it. It can't be dropped: it has to be
/// closed.
pub struct Scene<F: Factory> {
    pub(crate) spec: Spec,
    pub(crate) hops: Vec<Hops>,
    pub(crate) board: Board,
    pub(crate) controllers: Vec<Controller>,
    /// By instance.
    pub(crate) participants: Vec<Participant<F>>,
    pub(crate) jobs: Vec<OpenJob<F::H>>,
    pub(crate) bag: Bag,
    /// At least as many as the makings that were tried of a part, and as the runs of a handler.
    pub(crate) handed: u64,
    /// Whether it prints nothing.
    pub(crate) muted: bool,
}

impl<F: Factory> Model for Scene<F> {
    ghost use Rattle.std.specs.Prelude.{◌≡◌};
    ghost use Rattle.hx_scene.specs.Scenes.{SceneState};
    ghost use Rattle.hx_scene.specs.Kept.{IsScene};

    ghost Value = { SceneState };

    ghost use Rattle.hx_scene.specs.Fields.{scene_of};

    ghost view = { scene_of };

    ghost invariant = { λ a. IsScene (scene_of a) × (a.hops.items ≡ a.spec.models) };
}

/// The hops of models, in their order.
fn hops_of(alloc: Global, models: &[StateModel]) -> Result<Vec<Hops>, AllocError>
    ensures { IfOk result (λ hops. hops.items ≡ models.now) }
{
    let mut hops = Vec::with_capacity(alloc, models.len())?;
    for model in models {
        hops.push_reserved(Hops::build(alloc, model)?);
    }
    Ok(hops)
}

/// Ends participants that have no job out.
fn close_all<F: Factory>(mut participants: Vec<Participant<F>>)
    requires { All IsAtRest participants.items }
{
    while let Some(participant) = participants.pop() {
        let _factory = participant.close();
    }
    participants.destroy_empty();
}

impl<F: Factory> Scene<F> {
    /// A scene of its parts, in which nothing is open, and which prints. For want of memory its
    /// participants are closed.
    pub fn from_parts(alloc: Global, parts: Parts<F>) -> Result<Scene<F>, AllocError>
        requires history { HasHistory parts.board }
        requires orderly { All IsOrderly (plain_staff parts.participants.items) }
        requires agree { Agree parts.spec
            (record { spec = parts.board.spec; history = parts.board.history })
            parts.controllers.items (stationed_from 0 (plain_staff parts.participants.items)) }
        ensures { IfOk result (λ scene. scene ≡ record {
          spec = parts.spec;
          board = parts.board;
          controllers = parts.controllers.items;
          staff = parts.participants.items;
          jobs = [];
          bag = [];
          handed = 0;
          muted = false;
        }) }
    {
        let Parts {
            spec,
            board,
            controllers,
            participants,
        } = parts;
        match hops_of(alloc, spec.models.as_slice()) {
            Ok(hops) => Ok(Scene {
                spec,
                hops,
                board,
                controllers,
                participants,
                jobs: Vec::new(alloc),
                bag: Bag::new(alloc),
                handed: 0,
                muted: false,
            }),
            Err(fault) => {
                close_all(participants);
                Err(fault)
            }
        }
    }

    /// Prints nothing from then on, and does all else as before. It takes no memory.
    pub fn mute(&mut self)
        ensures { self.new ≡ record self.old { muted = true } }
    {
        self.muted = true;
    }

    /// Ends all that is open and closes the participants, and gives the board. It takes no memory.
    pub fn close(self) -> Board
        ensures { result ≡ self.board }
    {
        let Scene {
            spec: _,
            hops: _,
            muted: _,
            board,
            controllers: _,
            mut participants,
            mut jobs,
            bag: _,
            handed: _,
        } = self;
        end_all(&mut jobs, &mut participants);
        jobs.destroy_empty();
        close_all(participants);
        board
    }

    /// The allocator. It takes no memory.
    pub fn alloc(&self) -> Global {
        *self.controllers.allocator()
    }

    /// The description. It takes no memory.
    pub fn spec(&self) -> &Spec
        ensures { result.now ≡ self.now.spec }
    {
        &self.spec
    }

    /// The board. It takes no memory.
    pub fn board(&self) -> &Board
        ensures board { result.now ≡ self.now.board }
        ensures scene { IsScene self.now }
    {
        &self.board
    }

    /// A controller. It takes no memory.
    pub fn controller(&self, controller: ControllerId) -> &Controller
        requires { has_controller self.now.board.cluster controller ≡ true }
        ensures { result.now ≡ controller_of (world_of self.now) controller }
    {
        &self.controllers[controller.0 as usize]
    }

    /// The accepted messages of an instance, by number.
    pub fn accepted(&self, instance: InstanceId) -> Result<Vec<Message>, AllocError>
        requires { has_instance self.now.board.cluster instance ≡ true }
        ensures { IfOk result (λ messages.
            messages.items ≡ accepted_all (participant_of (world_of self.now) instance)) }
    {
        self.participants[instance.0 as usize].accepted()
    }
}
