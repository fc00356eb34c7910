//! How far the messages of each session were fetched, by the sessions' numbers.
ghost use Rattle.std.specs.Prelude.{◌≡◌, nat_lt, OnOk};
ghost use Rattle.hx_check.specs.Standing.{with_mark, mark_of};
ghost use Rattle.hx_check.specs.Judging.{marked};

use hx_ids::{MsgId, SessionId};
use std::alloc::AllocError;

/// Sets a session's mark to the next message number at its last fetch.
fn set_mark(marks: &mut Vec<u64>, session: SessionId, next: u64) -> Result<(), AllocError>
    ensures { OnOk result (marks.new.items ≡ with_mark marks.old.items session.0 next) }
{
    let place = session.0 as usize;
    if place == usize::MAX {
        return Err(AllocError);
    }
    for _made in marks.len()..place + 1 {
        marks.push(0)?;
    }
    marks[place] = next;
    Ok(())
}

/// Sets the mark of a fetched session, if there is one.
pub(crate) fn mark(
    marks: &mut Vec<u64>,
    session: Option<SessionId>,
    next: u64,
) -> Result<(), AllocError>
    ensures { OnOk result (marks.new.items ≡ marked marks.old.items session next) }
{
    match session {
        Some(session) => set_mark(marks, session, next),
        None => Ok(()),
    }
}

/// Whether a number is below its session's mark.
pub(crate) fn is_marked(marks: &[u64], session: SessionId, id: MsgId) -> bool
    ensures { result ≡ nat_lt id.0 (mark_of marks.now session) }
{
    match marks.get(session.0 as usize) {
        Some(next) => id.0 < *next,
        None => false,
    }
}
