//! The view, and routing.

ghost use Rattle.std.specs.Prelude.{◌≡◌, IfOk};
ghost use Rattle.hx_print.specs.Texts.{view_of_part};
ghost use Rattle.hx_worlds.specs.Runs.{for_each};
ghost use Rattle.hx_worlds.specs.Scripts.{do_view, say_view_of, do_route, say_route, routed};
ghost use Rattle.hx_scene.specs.Doing.{DoesDeed};
ghost use Rattle.hx_sim.specs.Viewing.{IsViewOf};

use crate::World;
use crate::rows::{holders, rows_by_part, viewed_parts};
use hx_board::RoomFault;
use hx_cluster::Seen;
use hx_handler::Factory;
use hx_ids::{InstanceId, PartId, StateId};
use hx_parts::ByPart;
use hx_print::Note;
use hx_scene::Deed;
use hx_text::Page;
use hx_worlds::Voice;
use std::alloc::{AllocError, Global};

/// The instances that posted rows have in a state of a part.
fn routed(
    alloc: Global,
    rows: &[Seen],
    part: PartId,
    state: StateId,
) -> Result<Vec<InstanceId>, AllocError>
    ensures { IfOk result (λ instances. instances.items ≡ routed rows.now part state) }
{
    rows.iter()
        .copied()
        .filter(|row| row.part == part && row.state == state)
        .map(|row| row.instance)
        .collect(alloc)
}

impl<F: Factory> World<F> {
    /// Prints who has a replica of each of some parts.
    fn view_each(&mut self, rows: &ByPart<Seen>, parts: &[PartId], out: &mut Page) -> Deed
        requires { IsViewOf rows.now self.old.board.cluster }
        ensures { DoesDeed (λ x. for_each (λ p y. say_view_of p (view_of_part y.world.cluster p) y) parts.now x)
            self.old out.old self.new out.new result }
    {
        for part in parts {
            let holders = holders(self.scene.alloc(), rows, *part)?;
            self.scene.say_view(*part, &holders, out)?;
        }
        Ok(())
    }

    /// Prints the view: who has which replica. Each line is charged.
    pub fn view(&mut self, out: &mut Page) -> Result<(), RoomFault>
        ensures { DoesDeed (λ x. do_view x)
            self.old out.old self.new out.new result }
    {
        let rows = rows_by_part(self.scene.alloc(), self.scene.board())?;
        let parts = viewed_parts(self.scene.alloc(), self.scene.board(), &rows)?;
        self.view_each(&rows, &parts, out)
    }

    /// Prints the instances in a state of a part of the newest resource of a name, as they were
    /// posted last.
    pub(crate) fn route(
        &mut self,
        voice: Voice,
        name: u32,
        index: u32,
        state: StateId,
        out: &mut Page,
    ) -> Deed
        ensures { DoesDeed (do_route voice name index state)
            self.old out.old self.new out.new result }
    {
        match self.scene.board().newest(name) {
            Some(resource) => self.route_of(PartId { resource, index }, state, out),
            None => self.scene.note(voice, &Note::NoResource, out),
        }
    }

    /// Prints the instances in a state of a part, as they were posted last.
    fn route_of(&mut self, part: PartId, state: StateId, out: &mut Page) -> Deed
        ensures { DoesDeed (λ x. say_route part state (routed x.world.cluster.posted part state) x)
            self.old out.old self.new out.new result }
    {
        let rows = self.scene.board().posted();
        let instances = routed(self.scene.alloc(), rows, part, state)?;
        self.scene.say_route(part, state, &instances, out)
    }
}
