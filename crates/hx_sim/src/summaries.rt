//! What happened, in numbers.

ghost use Rattle.std.specs.Prelude.{◌≡◌, [], ◌∷◌, IfOk, IfSome};
ghost use Rattle.hx_lists.specs.Lists.{count};
ghost use Rattle.hx_worlds.specs.Scripts.{do_summary};
ghost use Rattle.hx_worlds.specs.Summaries.{ended_in, is_write, summary_of};
ghost use Rattle.hx_scene.specs.Telling.{text_of};
ghost use Rattle.hx_scene.specs.Doing.{DoesDeed};
ghost use Rattle.hx_sim.specs.Counting.{has_outcome, IsCounted};

use crate::World;
use hx_agree::{joined_in, sent_in};
use hx_cluster::{Admin, Did, Event, Outcome};
use hx_handler::Factory;
use hx_history::{Counted, Entries};
use hx_scene::{Deed, Summary};
use hx_text::Page;
use std::alloc::AllocError;

/// How many sessions an event ended.
fn ended_in(event: &Event) -> u64
    ensures { result ≡ ended_in event.now }
{
    match event {
        Event::Admin(Admin::End { .. }, _) => 1,
        Event::Admin(_, Did::Ended(sessions)) => sessions.len() as u64,
        _ => 0,
    }
}

fn is_write(event: &Event, wanted: Outcome) -> bool
    ensures { result ≡ is_write (has_outcome wanted) event.now }
{
    match event {
        Event::Write(_, _, outcome) => *outcome == wanted,
        _ => false,
    }
}

/// How many writes of an outcome it is.
fn written_in(event: &Event, outcome: Outcome) -> u64
    ensures { result ≡ count (is_write (has_outcome outcome)) (event.now ∷ []) }
{
    u64::from(is_write(event, outcome))
}

/// What happened, with one event more. A number past 64 bits is none.
fn counted(summary: &Summary, event: &Event) -> Option<Summary>
    ensures { IfSome result (IsCounted summary.now event.now) }
{
    match event {
        Event::Dispatch { .. } => Some(Summary {
            sent: summary.sent.checked_add(sent_in(event))?,
            ..*summary
        }),
        Event::Write(..) => Some(Summary {
            ok: summary.ok.checked_add(written_in(event, Outcome::Ok))?,
            failed: summary
                .failed
                .checked_add(written_in(event, Outcome::Failed))?,
            ..*summary
        }),
        Event::Admin(..) => Some(Summary {
            joined: summary.joined.checked_add(joined_in(event))?,
            ended: summary.ended.checked_add(ended_in(event))?,
            ..*summary
        }),
        _ => Some(*summary),
    }
}

/// What happened in a history. A number past 64 bits is want of memory.
pub fn summary_of(entries: &Entries) -> Result<Summary, AllocError>
    ensures { IfOk result (λ summary. text_of summary ≡ summary_of entries.now.items) }
{
    let Counted { kept, ok, failed } = entries.counted();
    let mut summary = Summary {
        sent: 0,
        ok: ok as u64,
        failed: failed as u64,
        joined: 0,
        ended: 0,
    };
    for event in kept {
        summary = counted(&summary, event).ok_or(AllocError)?;
    }
    Ok(summary)
}

impl<F: Factory> World<F> {
    /// Prints what happened so far, in numbers.
    pub(crate) fn summary(&mut self, out: &mut Page) -> Deed
        ensures { DoesDeed do_summary self.old out.old self.new out.new result }
    {
        let summary = summary_of(&self.scene.board().history().entries)?;
        self.scene.say_summary(&summary, out)
    }
}
