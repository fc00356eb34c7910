//! A world: a board with controllers and participants, one script line at a time.

ghost use Rattle.std.specs.Prelude.{◌≡◌, true, false, [], Some, IfOk};
ghost use Rattle.std.specs.List.{All};
ghost use Rattle.hx_board.specs.Board.{HasHistory, next_line_of};
ghost use Rattle.hx_worlds.specs.Scripts.{do_line, is_next_line};
ghost use Rattle.hx_worlds.specs.Agree.{Agree, stationed_from};
ghost use Rattle.hx_agreed.specs.OfParts.{IsOrderly};
ghost use Rattle.hx_scene.specs.Kept.{IsScene};
ghost use Rattle.hx_scene.specs.Ending.{plain_staff};
ghost use Rattle.hx_scene.specs.Doing.{DoesDeed};
ghost use Rattle.hx_sim.specs.Settling.{Settles};

use crate::settles::Settle;
use hx_board::{Board, RoomFault};
use hx_cluster::Spec;
use hx_control::Controller;
use hx_handler::Factory;
use hx_replicas::Participant;
use hx_scene::{Parts, Scene};
use hx_script::Line;
use hx_text::Page;
use hx_worlds::{Settled, Voice};
use std::alloc::{AllocError, Global};
use std::marker::Model;

/// A board, its controllers and its participants, with what is open between them. It can't be
/// dropped: it has to be closed.
pub struct World<F: Factory> {
    pub(crate) scene: Scene<F>,
}

impl<F: Factory> Model for World<F> {
    ghost use Rattle.hx_scene.specs.Scenes.{SceneState};

    ghost Value = { SceneState };

    ghost view = { λ a. a.scene };
}

impl<F: Factory> World<F> {
    /// A world of its parts, in which nothing is open, and which prints. For want of memory its
    /// participants are closed.
    pub fn from_parts(
        alloc: Global,
        spec: Spec,
        board: Board,
        controllers: Vec<Controller>,
        participants: Vec<Participant<F>>,
    ) -> Result<World<F>, AllocError>
        requires history { HasHistory board }
        requires orderly { All IsOrderly (plain_staff participants.items) }
        requires agree { Agree spec (record { spec = board.spec; history = board.history })
            controllers.items (stationed_from 0 (plain_staff participants.items)) }
        ensures { IfOk result (λ world. world ≡ record {
          spec = spec;
          board = board;
          controllers = controllers.items;
          staff = participants.items;
          jobs = [];
          bag = [];
          handed = 0;
          muted = false;
        }) }
    {
        let parts = Parts {
            spec,
            board,
            controllers,
            participants,
        };
        let scene = Scene::from_parts(alloc, parts)?;
        Ok(World { scene })
    }

    /// The board. It takes no memory.
    pub fn board(&self) -> &Board
        ensures board { result.now ≡ self.now.board }
        ensures kept { IsScene self.now }
    {
        self.scene.board()
    }

    /// Prints nothing from then on, and does all else as before. It takes no memory.
    pub fn mute(&mut self)
        ensures { self.new ≡ record self.old { muted = true } }
    {
        self.scene.mute();
    }

    /// Closes every participant, and gives the board. It takes no memory.
    pub fn close(self) -> Board
        ensures { result ≡ self.board }
    {
        let World { scene } = self;
        scene.close()
    }

    /// Takes a script line, the next of the board's, and does it, and prints what it brings, unless
    /// the world is muted.
    pub fn line(&mut self, line: &Line, out: &mut Page) -> Result<(), RoomFault>
        requires next { next_line_of self.old.board ≡ Some line.now.number }
        requires given { is_next_line self.old.spec self.old.board.cluster.line line.now ≡ true }
        ensures { DoesDeed (λ x. do_line line.now x) self.old out.old self.new out.new result }
    {
        self.scene.take_line(line.number, out)?;
        self.what(Voice::Loud(line.number), &line.what, out)
    }

    /// Settles the cluster, if somebody leads. Its log is printed nowhere.
    pub fn settle(&mut self) -> Result<Settle, RoomFault>
        ensures { Settles self.old self.new result }
    {
        self.scene.board();
        let mut log = Page::new(self.scene.alloc());
        let Some(Settled { passes, report }) = self.settle_led(&mut log)? else {
            return Ok(Settle::NoLeader);
        };
        match report {
            Some(report) => Ok(Settle::Settled { passes, report }),
            None => unreachable!(),
        }
    }
}
