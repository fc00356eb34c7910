//! What a controller may have been shown of a description's one resource.
ghost use Rattle.std.specs.Prelude.{◌≡◌};

use crate::tests::fixtures::{self, DB, N1, N2, N3, OFFLINE, S1, S2, S3, db};
use crate::tests::stages::texts::{LISTED, Text, written};
use hx_best::targets;
use hx_cluster::{Ideals, Message, Resource, Row, Spec, Target, View};
use hx_gen::hops_of;
use hx_hops::Hops;
use hx_ids::{Epoch, InstanceId, MsgId, PartId, SessionId, StateId};
use hx_lists::Seq;
use hx_model::Model;
use std::alloc::{AllocError, Global};
use std::process::Abort;

/// What stands in a view.
#[derive(Clone, Copy)]
pub struct Case {
    pub text: Text,
    pub live: &'static [(SessionId, InstanceId)],
    pub dropped: bool,
    pub drained: [bool; 3],
    pub rows: &'static [(SessionId, u32, StateId)],
    /// Numbers from 4 on.
    pub mail: &'static [(SessionId, u32, StateId, StateId)],
    pub resets: &'static [SessionId],
}

/// Three sessions without replicas, shown out of order.
pub const EMPTY: Case = Case {
    text: LISTED,
    live: &[(S3, N3), (S1, N1), (S2, N2)],
    dropped: false,
    drained: [false; 3],
    rows: &[],
    mail: &[],
    resets: &[],
};

pub fn described(rt: &impl Abort, alloc: Global, text: Text) -> Spec {
    let Ok(written) = written(alloc, text) else {
        panic!(rt; "no memory");
    };
    fixtures::described(rt, alloc, written.as_str())
}

fn resources(
    alloc: Global,
    wanted: &[Resource],
    dropped: bool,
) -> Result<Seq<Resource>, AllocError> {
    let mut resources = Seq::new(alloc);
    for resource in wanted {
        let mut copy = resource.clone()?;
        copy.dropped = dropped;
        resources.push(copy)?;
    }
    Ok(resources)
}

fn rows(alloc: Global, case: &Case) -> Result<Seq<Row>, AllocError> {
    let mut rows = Seq::new(alloc);
    for (session, index, state) in case.rows {
        rows.push(Row {
            session: *session,
            part: db(*index),
            state: *state,
        })?;
    }
    Ok(rows)
}

fn mail(alloc: Global, case: &Case) -> Result<Seq<Message>, AllocError> {
    let mut mail = Seq::new(alloc);
    for (id, (session, index, from, to)) in (4..u64::MAX).zip(case.mail) {
        mail.push(Message {
            id: MsgId(id),
            session: *session,
            part: db(*index),
            from: *from,
            to: *to,
            initial: OFFLINE,
            epoch: Epoch(1),
            taken: false,
            written: false,
        })?;
    }
    Ok(mail)
}

fn resets(alloc: Global, case: &Case) -> Result<Seq<(SessionId, PartId)>, AllocError> {
    let mut resets = Seq::new(alloc);
    for session in case.resets {
        resets.push((*session, db(0)))?;
    }
    Ok(resets)
}

fn ideals(alloc: Global, spec: &Spec, case: &Case) -> Result<Ideals, AllocError> {
    Ok(Ideals {
        resources: resources(alloc, spec.resources.as_slice(), case.dropped)?,
        drained: Seq::from_slice(alloc, &case.drained)?,
        resets: resets(alloc, case)?,
    })
}

fn shown(alloc: Global, spec: &Spec, case: &Case) -> Result<View, AllocError> {
    Ok(View {
        live: Seq::from_slice(alloc, case.live)?,
        mail: mail(alloc, case)?,
        rows: rows(alloc, case)?,
        ideals: ideals(alloc, spec, case)?,
    })
}

pub fn view(rt: &impl Abort, alloc: Global, spec: &Spec, case: &Case) -> View {
    let Ok(view) = shown(alloc, spec, case) else {
        panic!(rt; "no memory");
    };
    view
}

/// The targets of the resource.
pub fn targets_of(rt: &impl Abort, alloc: Global, spec: &Spec, view: &View) -> Vec<Target> {
    let Ok(found) = targets(alloc, spec.models.as_slice(), view, DB) else {
        panic!(rt; "no memory");
    };
    found
}

pub fn hops(rt: &impl Abort, alloc: Global, models: &[Model]) -> Vec<Hops>
    ensures { result.items ≡ models.now }
{
    let Ok(hops) = hops_of(alloc, models) else {
        panic!(rt; "no memory");
    };
    hops
}
