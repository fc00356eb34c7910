//! Whether rows are good ones.
ghost use Rattle.std.specs.Prelude.{◌≡◌, true, IfOk};
ghost use Rattle.std.specs.List.{list_all};
ghost use Rattle.hx_lists.specs.Lists.{count};
ghost use Rattle.hx_cluster.specs.Ends.{is_row};
ghost use Rattle.hx_cluster.specs.Views.{is_good_row};
ghost use Rattle.hx_parts.specs.Parts.{HasSameAt};
ghost use Rattle.hx_formed.specs.Reads.{is_row_there};
ghost use Rattle.hx_formed.specs.Sessions.{are_distinct};

use crate::places::Place;
use crate::reads::{Shown, are_read};
use crate::{is_good_part, is_good_state};
use hx_cluster::{Resource, Row, View};
use hx_ids::{PartId, SessionId};
use hx_model::Model;
use hx_parts::ByPart;
use std::alloc::{AllocError, Global};

impl Shown for Row {
    ghost session_of = { λ row. row.session };

    ghost is_there = { is_row_there };

    fn session(&self) -> SessionId {
        self.session
    }

    fn place_behind(&self, models: &[Model], resources: &[Resource], at: Place) -> Option<Place> {
        at.next(models, resources, self.part, self.state)
    }
}

fn rows_on(rows: &[Row], session: SessionId, part: PartId) -> usize
    ensures { result ≡ count (is_row session part) rows.now }
{
    rows.iter().filter(|r| r.is_of(session, part)).count()
}

/// How many rows a session has of a part.
#[tactic(auto, using(crate::proofs::Counted::rows_counted))]
fn rows_of(rows: &[Row], kept: &ByPart<Row>, session: SessionId, part: PartId) -> usize
    requires { HasSameAt (λ (r : Row). r.part) rows.now kept.now }
    ensures { result ≡ count (is_row session part) rows.now }
{
    rows_on(kept.at(part), session, part)
}

fn is_good_row(models: &[Model], view: &View, kept: &ByPart<Row>, row: &Row) -> bool
    requires { HasSameAt (λ (r : Row). r.part) view.now.rows kept.now }
    ensures { result ≡ is_good_row models.now view.now row.now }
{
    is_good_part(view, row.session, row.part)
        && is_good_state(models, view, row.part, row.state)
        && rows_of(view.rows.as_slice(), kept, row.session, row.part) == 1
}

fn are_good_rows(models: &[Model], view: &View, kept: &ByPart<Row>) -> bool
    requires { HasSameAt (λ (r : Row). r.part) view.now.rows kept.now }
    ensures { result ≡ list_all (is_good_row models.now view.now) view.now.rows }
{
    let mut rows = view.rows.iter();
    rows.all(|r| is_good_row(models, view, kept, r))
}

/// Whether each row is a good one. For good rows that stand as they are read it takes no memory.
#[tactic(auto, using(crate::proofs::Read::rows_good))]
pub fn has_good_rows(alloc: Global, models: &[Model], view: &View) -> Result<bool, AllocError>
    requires { are_distinct view.now.live ≡ true }
    ensures { IfOk result (λ is. is ≡ list_all (is_good_row models.now view.now) view.now.rows) }
{
    let resources = view.ideals.resources.as_slice();
    if are_read(
        models,
        resources,
        view.live.as_slice(),
        view.rows.as_slice(),
    ) {
        return Ok(true);
    }
    let kept = ByPart::new(alloc, view.rows.as_slice())?;
    Ok(are_good_rows(models, view, &kept))
}
