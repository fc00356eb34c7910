//! How many sessions and messages a history gave numbers to.
ghost use Rattle.std.specs.Prelude.{◌≡◌, ◌+◌, ◌^◌, ◌<◌};
ghost use Rattle.std.specs.List.{sum_by};
ghost use Rattle.hx_lists.specs.Lists.{count};
ghost use Rattle.hx_control.specs.Steps.{is_sent};
ghost use Rattle.hx_worlds.specs.Summaries.{joined_in, sent_in};
ghost use Rattle.hx_agree.specs.Numbers.{given_in};

use hx_board::Board;
use hx_cluster::{Admin, Dispatched, Event, Placed};
use hx_history::Entries;

/// How many messages a dispatch sent.
fn sent_by(answer: &Dispatched) -> u64
    ensures { result ≡ count is_sent answer.now.placed }
{
    answer
        .placed
        .iter()
        .filter(|placed| matches!(placed, Placed::Sent(_)))
        .count() as u64
}

/// How many messages an event sent.
pub fn sent_in(event: &Event) -> u64
    ensures { result ≡ sent_in event.now }
{
    match event {
        Event::Dispatch { answer, .. } => sent_by(answer),
        _ => 0,
    }
}

/// How many sessions it opened.
pub fn joined_in(event: &Event) -> u64
    ensures { result ≡ joined_in event.now }
{
    match event {
        Event::Admin(Admin::Join { .. }, _) => 1,
        _ => 0,
    }
}

/// What a history gives numbers to.
#[derive(Clone, Copy)]
enum Numbered {
    Session,
    Message,
}

/// To how many an event gave a number.
fn given_in(numbered: Numbered, event: &Event) -> u64
    ensures { result ≡ given_in numbered event.now }
{
    match numbered {
        Numbered::Session => joined_in(event),
        Numbered::Message => sent_in(event),
    }
}

/// To how many a history's events gave one.
fn given(numbered: Numbered, entries: &Entries) -> u64
    requires { sum_by (given_in numbered) entries.now.items < 2 ^ 64 }
    ensures { result ≡ sum_by (given_in numbered) entries.now.items }
{
    let mut sum = 0;
    for told in entries {
        sum += given_in(numbered, told.event());
    }
    sum
}

/// The number of the last message on a board.
pub(crate) fn sent_on(board: &Board) -> u64
    ensures { board.now.cluster.next_msg ≡ 1 + result }
{
    let _weight = board.weight();
    given(Numbered::Message, &board.history().entries)
}

/// The number of the last session on a board.
pub(crate) fn joined_on(board: &Board) -> u64
    ensures { board.now.cluster.next_session ≡ 1 + result }
{
    let _weight = board.weight();
    given(Numbered::Session, &board.history().entries)
}
