//! A script that is run in a world.
ghost use Rattle.std.specs.Prelude.{◌≡◌, ◌≤◌, ◌^◌, true, false, IfOk, length, map};
ghost use Rattle.hx_board.specs.Board.{new_board};
ghost use Rattle.hx_print.specs.Texts.{history_full_text};
ghost use Rattle.hx_replicas.specs.Participants.{failures_on};
ghost use Rattle.hx_text.specs.Texts.{Prints};
ghost use Rattle.hx_worlds.specs.Runs.{for_each};
ghost use Rattle.hx_worlds.specs.Scripts.{do_line, do_script, most_weight};
ghost use Rattle.hx_worlds.specs.World.{controllers_of};
ghost use Rattle.hx_scene.specs.Doing.{DoesDeed};
ghost use Rattle.hx_app.specs.Simulation.{
  IsGiven,
  IsFresh,
  IsSimulated,
  failure_lists,
  numbers_of,
  opening_scene,
  staff_from,
};

use crate::input::Scenario;
use hx_board::{Board, RoomFault};
use hx_cluster::{Failure, Spec};
use hx_control::Controller;
use hx_handler::{Factory, ScriptedFactory};
use hx_ids::{ControllerId, InstanceId};
use hx_print::print_history_full;
use hx_replicas::Participant;
use hx_scene::Deed;
use hx_script::Line;
use hx_sim::World;
use hx_text::Page;
use std::alloc::{AllocError, Global};

/// What the history of a run may weigh.
const MOST_WEIGHT: u64 = 4_000_000;

/// What a run printed, and its board. It was ended early where the history was full: what that then
/// weighed.
#[derive(Drop)]
pub(crate) struct Simulated {
    pub page: Page,
    pub board: Board,
    pub full: Option<u64>,
}

/// What a world is made of, beside its description.
struct Parts {
    board: Board,
    controllers: Vec<Controller>,
    staff: Vec<Participant<ScriptedFactory>>,
}

/// The numbers of lines.
fn numbers_of(alloc: Global, lines: &[Line]) -> Result<Vec<u32>, AllocError>
    ensures { IfOk result (λ numbers. numbers.items ≡ numbers_of lines.now) }
{
    lines.iter().map(|line| line.number).collect(alloc)
}

/// The controllers of a description, each idle.
fn controllers_of(alloc: Global, spec: &Spec) -> Result<Vec<Controller>, AllocError>
    ensures { IfOk result (λ controllers. controllers.items ≡ controllers_of spec.now.controllers) }
{
    let mut controllers = Vec::with_capacity(alloc, spec.controllers as usize)?;
    for number in 0..spec.controllers {
        controllers.push_reserved(Controller::new(alloc, ControllerId(number)));
    }
    Ok(controllers)
}

/// The failures of an instance.
fn failures_on(
    alloc: Global,
    failures: &[Failure],
    instance: InstanceId,
) -> Result<Vec<Failure>, AllocError>
    ensures { IfOk result (λ found. found.items ≡ failures_on instance failures.now) }
{
    failures
        .iter()
        .copied()
        .filter(|failure| failure.instance == instance)
        .collect(alloc)
}

/// The failures of each instance.
fn failure_lists(alloc: Global, spec: &Spec) -> Result<Vec<Vec<Failure>>, AllocError>
    ensures few { IfOk result (λ lists. length lists.items ≤ 2 ^ 32) }
    ensures lists { IfOk result (λ lists. map (λ list. list.items) lists.items ≡ failure_lists spec.now) }
{
    let count = spec.instances.len();
    let mut lists = Vec::with_capacity(alloc, count as usize)?;
    for instance in 0..count {
        lists.push_reserved(failures_on(alloc, spec.failures.as_slice(), InstanceId(instance))?);
    }
    Ok(lists)
}

/// The participants of instances whose handlers fail as these lists say.
fn participants_of(
    alloc: Global,
    lists: Vec<Vec<Failure>>,
) -> Result<Vec<Participant<ScriptedFactory>>, AllocError>
    requires { length lists.items ≤ 2 ^ 32 }
    ensures { IfOk result (λ participants.
        participants.items ≡ staff_from 0 (map (λ list. list.items) lists.items)) }
{
    let mut participants = Vec::with_capacity(alloc, lists.len())?;
    for (instance, failures) in lists.into_iter().enumerate() {
        let instance = InstanceId(instance as u32);
        let factory = ScriptedFactory::new(failures);
        participants.push_reserved(Participant::new(alloc, instance, factory));
    }
    Ok(participants)
}

/// Does lines in turn.
fn do_lines<F: Factory>(world: &mut World<F>, lines: &[Line], page: &mut Page) -> Deed
    requires { IsFresh lines.now world.old }
    ensures { DoesDeed (λ x. for_each do_line lines.now x) world.old page.old world.new page.new result }
{
    for line in lines {
        world.board();
        world.line(line, page)?;
    }
    Ok(())
}

/// Does a whole script, and prints the view at its end.
fn do_script<F: Factory>(world: &mut World<F>, lines: &[Line], page: &mut Page) -> Deed
    requires { IsFresh lines.now world.old }
    ensures { DoesDeed (λ x. do_script lines.now x) world.old page.old world.new page.new result }
{
    do_lines(world, lines, page)?;
    world.view(page)
}

/// The board that a script begins with.
fn board_of(alloc: Global, spec: &Spec, lines: &[Line]) -> Result<Board, AllocError>
    requires { IsGiven (record { spec = spec.now; lines = lines.now }) }
    ensures { IfOk result (λ board.
        board ≡ new_board spec.now (numbers_of lines.now) most_weight) }
{
    let numbers = numbers_of(alloc, lines)?;
    Board::new(alloc, spec, numbers, MOST_WEIGHT)
}

/// The participants of a description's instances.
fn staff_of(alloc: Global, spec: &Spec) -> Result<Vec<Participant<ScriptedFactory>>, AllocError>
    ensures { IfOk result (λ staff. staff.items ≡ staff_from 0 (failure_lists spec.now)) }
{
    let lists = failure_lists(alloc, spec)?;
    participants_of(alloc, lists)
}

/// The parts of the world that a script begins with.
fn parts_of(alloc: Global, spec: &Spec, lines: &[Line]) -> Result<Parts, AllocError>
    requires { IsGiven (record { spec = spec.now; lines = lines.now }) }
    ensures board { IfOk result (λ parts.
        parts.board ≡ new_board spec.now (numbers_of lines.now) most_weight) }
    ensures controllers { IfOk result (λ parts.
        parts.controllers.items ≡ controllers_of spec.now.controllers) }
    ensures staff { IfOk result (λ parts.
        parts.staff.items ≡ staff_from 0 (failure_lists spec.now)) }
{
    let board = board_of(alloc, spec, lines)?;
    let controllers = controllers_of(alloc, spec)?;
    let staff = staff_of(alloc, spec)?;
    Ok(Parts {
        board,
        controllers,
        staff,
    })
}

/// The world that a script begins with.
fn opening(alloc: Global, spec: Spec, lines: &[Line]) -> Result<World<ScriptedFactory>, AllocError>
    requires { IsGiven (record { spec = spec; lines = lines.now }) }
    ensures { IfOk result (λ world. world ≡ opening_scene false spec lines.now) }
{
    let Parts {
        board,
        controllers,
        staff,
    } = parts_of(alloc, &spec, lines)?;
    World::from_parts(alloc, spec, board, controllers, staff)
}

/// The world that a script begins with, which is muted or prints.
fn opening_as(
    alloc: Global,
    spec: Spec,
    lines: &[Line],
    muted: bool,
) -> Result<World<ScriptedFactory>, AllocError>
    requires { IsGiven (record { spec = spec; lines = lines.now }) }
    ensures { IfOk result (λ world. world ≡ opening_scene muted spec lines.now) }
{
    let mut world = opening(alloc, spec, lines)?;
    if !muted {
        return Ok(world);
    }
    world.mute();
    Ok(world)
}

/// Runs a script in a world of its own, which is muted or prints.
fn run(alloc: Global, scenario: Scenario, muted: bool) -> Result<Simulated, AllocError>
    requires { IsGiven scenario }
    ensures { IfOk result (IsSimulated scenario muted) }
{
    let Scenario { spec, lines } = scenario;
    let mut world = opening_as(alloc, spec, lines.as_slice(), muted)?;
    let mut page = Page::new(alloc);
    let ended = do_script(&mut world, lines.as_slice(), &mut page);
    let board = world.close();
    match ended {
        Ok(()) => Ok(Simulated {
            page,
            board,
            full: None,
        }),
        Err(RoomFault::HistoryFull { weight }) => Ok(Simulated {
            page,
            board,
            full: Some(weight),
        }),
        Err(RoomFault::OutOfMemory) => Err(AllocError),
    }
}

/// Runs a script in a world of its own.
pub(crate) fn simulate(alloc: Global, scenario: Scenario) -> Result<Simulated, AllocError>
    requires { IsGiven scenario }
    ensures { IfOk result (IsSimulated scenario false) }
{
    run(alloc, scenario, false)
}

/// Runs a script as `simulate` does, in a world that prints nothing.
pub(crate) fn simulate_muted(alloc: Global, scenario: Scenario) -> Result<Simulated, AllocError>
    requires { IsGiven scenario }
    ensures { IfOk result (IsSimulated scenario true) }
{
    run(alloc, scenario, true)
}

/// Prints that the history is full.
pub(crate) fn print_full(weight: u64, page: &mut Page) -> Result<(), AllocError>
    ensures { Prints (history_full_text weight) page.old result page.new }
{
    print_history_full(weight, page)
}
