//! Who has a replica of which part: the rows of the live sessions in order of part.

ghost use Rattle.std.specs.Prelude.{◌≡◌, ◌++◌, OnOk, IfOk, filter};
ghost use Rattle.hx_print.specs.Texts.{parts_at, viewed_parts};
ghost use Rattle.hx_sim.specs.Viewing.{seen_of, rows_seen, held_at, is_shown_by, IsViewOf};

use hx_board::Board;
use hx_cluster::{Resource, Row, Seen};
use hx_ids::{InstanceId, PartId, ResourceId, SessionId, StateId};
use hx_lists::Seq;
use hx_parts::ByPart;
use std::alloc::{AllocError, Global};

/// Adds an instance's rows.
fn push_seen(instance: InstanceId, rows: &[Row], seen: &mut Vec<Seen>) -> Result<(), AllocError>
    ensures { OnOk result (seen.new.items ≡ seen.old.items ++ seen_of instance rows.now) }
{
    for row in rows {
        seen.push(Seen {
            instance,
            part: row.part,
            state: row.state,
        })?;
    }
    Ok(())
}

/// The rows of some sessions with their instances, session by session.
fn rows_seen(
    alloc: Global,
    board: &Board,
    shown: &[(SessionId, InstanceId)],
) -> Result<Vec<Seen>, AllocError>
    ensures { IfOk result (λ seen. seen.items ≡ rows_seen board.now.cluster shown.now) }
{
    let mut rows = Seq::new(alloc);
    let mut seen = Vec::new(alloc);
    for (session, instance) in shown {
        rows.truncate(0);
        board.push_rows_of(*session, &mut rows)?;
        push_seen(*instance, rows.as_slice(), &mut seen)?;
    }
    Ok(seen)
}

/// The rows of the live sessions in order of part; those of a part by instance.
pub(crate) fn rows_by_part(alloc: Global, board: &Board) -> Result<ByPart<Seen>, AllocError>
    ensures { IfOk result (λ rows. IsViewOf rows board.now.cluster) }
{
    board.history();
    let shown = board.shown()?;
    let rows = rows_seen(alloc, board, &shown)?;
    ByPart::new(alloc, &rows)
}

/// Who has a replica of a part, by instance.
pub(crate) fn holders(
    alloc: Global,
    rows: &ByPart<Seen>,
    part: PartId,
) -> Result<Vec<(InstanceId, StateId)>, AllocError>
    ensures { IfOk result (λ holders. holders.items ≡ held_at rows.now part) }
{
    rows.at(part)
        .iter()
        .map(|row| (row.instance, row.state))
        .collect(alloc)
}

/// Whether a view shows a part: one of a dropped resource only where somebody has a replica.
fn is_viewed(rows: &ByPart<Seen>, dropped: bool, part: PartId) -> bool
    ensures { result ≡ is_shown_by rows.now dropped part }
{
    if !dropped {
        return true;
    }
    !rows.at(part).is_empty()
}

/// Adds the parts of a resource that a view shows.
fn add_viewed(
    rows: &ByPart<Seen>,
    resource: ResourceId,
    found: &Resource,
    parts: &mut Vec<PartId>,
) -> Result<(), AllocError>
    ensures { OnOk result (parts.new.items ≡ parts.old.items
        ++ filter (is_shown_by rows.now found.now.dropped)
        (parts_at resource.0 found.now.ideal.parts)) }
{
    for index in 0..found.ideal.parts() {
        let part = PartId { resource, index };
        if is_viewed(rows, found.dropped, part) {
            parts.push(part)?;
        }
    }
    Ok(())
}

/// The parts that a view shows.
pub(crate) fn viewed_parts(
    alloc: Global,
    board: &Board,
    rows: &ByPart<Seen>,
) -> Result<Vec<PartId>, AllocError>
    requires { IsViewOf rows.now board.now.cluster }
    ensures { IfOk result (λ parts. parts.items ≡ viewed_parts board.now.cluster) }
{
    board.history();
    let mut parts = Vec::new(alloc);
    for (number, resource) in board.resources().iter().enumerate() {
        let id = ResourceId(number as u32);
        add_viewed(rows, id, resource, &mut parts)?;
    }
    Ok(parts)
}
