//! The answer to an input that is run.
ghost use Rattle.std.specs.Prelude.{◌≡◌, ◌≤◌, ◌++◌, length, IfOk};
ghost use Rattle.hx_print.specs.Texts.{history_full_text};
ghost use Rattle.hx_worlds.specs.Summaries.{summary_of};
ghost use Rattle.hx_app.specs.Replies.{AnswersAs};
ghost use Rattle.hx_app.specs.Constants.{most_bytes, done, history_full};
ghost use Rattle.hx_words.specs.Tasks.{HasRanges};
ghost use Rattle.hx_app.specs.Simulation.{IsGiven};
ghost use Rattle.hx_app.specs.Answers.{
  answer_to,
  fault_answer,
  generated_answer,
  sim_answer,
  summary_answer,
};

use crate::input::{InputFault, InputRefusal, Scenario, read_scenario};
use crate::replies::{Reply, refuse_description, refuse_script};
use crate::simulation::{print_full, simulate, simulate_muted};
use crate::statuses::Status;
use hx_board::Board;
use hx_genwork::make;
use hx_scene::print_counts;
use hx_sim::summary_of;
use hx_text::Page;
use hx_words::Task;
use std::alloc::{AllocError, Global};

/// The answer to an input that isn't run.
fn refused(alloc: Global, fault: &InputFault) -> Result<Reply, AllocError>
    ensures { IfOk result (AnswersAs (fault_answer fault.now)) }
{
    match fault {
        InputFault::Description(fault) => refuse_description(alloc, fault),
        InputFault::Script(fault) => refuse_script(alloc, fault),
    }
}

/// A text that was run to its end.
fn done(text: Page) -> Reply
    ensures status { result.status.0 ≡ done }
    ensures text { result.text ≡ text }
{
    Reply {
        status: Status::DONE,
        text,
    }
}

/// A text behind which the history had no room.
fn ended_full(weight: u64, text: Page) -> Result<Reply, AllocError>
    ensures status { IfOk result (λ reply. reply.status.0 ≡ history_full) }
    ensures text { IfOk result (λ reply. reply.text ≡ text ++ history_full_text weight) }
{
    let mut text = text;
    print_full(weight, &mut text)?;
    Ok(Reply {
        status: Status::HISTORY_FULL,
        text,
    })
}

/// The answer to a script that is run line by line.
fn simulated(alloc: Global, scenario: Scenario) -> Result<Reply, AllocError>
    requires { IsGiven scenario }
    ensures { IfOk result (AnswersAs (sim_answer scenario)) }
{
    let run = simulate(alloc, scenario)?;
    match run.full {
        None => Ok(done(run.page)),
        Some(weight) => ended_full(weight, run.page),
    }
}

/// The summary of what happened on a board.
fn summary_page(alloc: Global, board: &Board) -> Result<Page, AllocError>
    ensures { IfOk result (λ page. page ≡ summary_of board.now.history) }
{
    let summary = summary_of(&board.history().entries)?;
    let mut text = Page::new(alloc);
    print_counts(&summary, &mut text)?;
    Ok(text)
}

/// The answer to a generated script: its summary alone.
fn summarized(alloc: Global, scenario: Scenario) -> Result<Reply, AllocError>
    requires { IsGiven scenario }
    ensures { IfOk result (AnswersAs (summary_answer scenario)) }
{
    let run = simulate_muted(alloc, scenario)?;
    match run.full {
        None => Ok(done(summary_page(alloc, &run.board)?)),
        Some(weight) => ended_full(weight, Page::new(alloc)),
    }
}

/// The answer to an input.
pub fn answer(alloc: Global, bytes: &[u8]) -> Result<Reply, AllocError>
    requires { length bytes.now ≤ most_bytes }
    ensures { IfOk result (AnswersAs (answer_to bytes.now)) }
{
    match read_scenario(alloc, bytes) {
        Ok(scenario) => simulated(alloc, scenario),
        Err(InputRefusal::Fault(fault)) => refused(alloc, &fault),
        Err(InputRefusal::OutOfMemory) => Err(AllocError),
    }
}

/// The answer to no input: that of the one which is generated.
pub fn generated(alloc: Global, task: Task) -> Result<Reply, AllocError>
    requires { HasRanges task }
    ensures { IfOk result (AnswersAs (generated_answer task)) }
{
    let input = make(alloc, task.seed, task.size)?;
    match read_scenario(alloc, input.as_bytes()) {
        Ok(scenario) => summarized(alloc, scenario),
        Err(InputRefusal::Fault(fault)) => refused(alloc, &fault),
        Err(InputRefusal::OutOfMemory) => Err(AllocError),
    }
}
