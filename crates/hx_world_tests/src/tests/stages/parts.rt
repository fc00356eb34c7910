use crate::tests::fixtures::{expect, part};
use hx_ids::{PartId, ResourceId, SessionId};
use hx_parts::ByPart;
use std::alloc::{AllocError, Global};
use std::process::Abort;
use std::test::Fail;

/// Flags, each by its session, its resource and its part's index.
type Flags = &'static [(u64, u32, u32)];

fn items(alloc: Global, flags: Flags) -> Result<Vec<(SessionId, PartId)>, AllocError> {
    let mut items = Vec::new(alloc);
    for (session, resource, index) in flags {
        items.push((SessionId(*session), part(ResourceId(*resource), *index)))?;
    }
    Ok(items)
}

fn sessions(alloc: Global, items: &[(SessionId, PartId)]) -> Result<Vec<u64>, AllocError> {
    let mut sessions = Vec::new(alloc);
    for (session, _) in items {
        sessions.push(session.0)?;
    }
    Ok(sessions)
}

fn kept(alloc: Global, flags: Flags) -> Result<ByPart<(SessionId, PartId)>, AllocError> {
    let items = items(alloc, flags)?;
    ByPart::new(alloc, items.as_slice())
}

/// These sessions have a flag at a part.
fn expect_at(
    rt: &impl Abort,
    alloc: Global,
    flags: Flags,
    at: (u32, u32),
    wanted: &[u64],
) -> Result<(), AllocError> {
    let kept = kept(alloc, flags)?;
    let found = sessions(alloc, kept.at(part(ResourceId(at.0), at.1)))?;
    expect(rt, &found.as_slice(), &wanted);
    Ok(())
}

/// The sessions of the flags as they are kept.
fn expect_kept(
    rt: &impl Abort,
    alloc: Global,
    flags: Flags,
    wanted: &[u64],
) -> Result<(), AllocError> {
    let items = kept(alloc, flags)?.into_items();
    let found = sessions(alloc, items.as_slice())?;
    expect(rt, &found.as_slice(), &wanted);
    Ok(())
}

const DENSE: Flags = &[
    (1, 1, 0),
    (2, 0, 1),
    (3, 1, 0),
    (4, 0, 0),
    (5, 2, 1),
    (6, 0, 1),
];

const SPARSE: Flags = &[
    (1, 7, 4_000_000_000),
    (2, 0, 9),
    (3, 7, 4_000_000_000),
    (4, 0, 0),
];

const FAR: Flags = &[(1, u32::MAX, u32::MAX), (2, u32::MAX, 0)];

static AT: &[(Flags, (u32, u32), &[u64])] = &[
    (DENSE, (1, 0), &[1, 3]),
    (DENSE, (0, 1), &[2, 6]),
    (DENSE, (2, 1), &[5]),
    (DENSE, (2, 0), &[]),
    (DENSE, (1, 2), &[]),
    (SPARSE, (7, 4_000_000_000), &[1, 3]),
    (SPARSE, (0, 1), &[]),
    (FAR, (u32::MAX, 0), &[2]),
    (&[], (0, 0), &[]),
];

#[test]
fn items_stand_at_their_part(rt: HostRuntime) -> Result<(), Fail> {
    for (flags, at, wanted) in AT {
        expect_at(&rt, rt.alloc(), *flags, *at, *wanted)?;
    }
    Ok(())
}

static KEPT: &[(Flags, &[u64])] = &[
    (DENSE, &[4, 2, 6, 1, 3, 5]),
    (SPARSE, &[4, 2, 1, 3]),
    (FAR, &[2, 1]),
    (&[], &[]),
];

#[test]
fn items_stand_by_part(rt: HostRuntime) -> Result<(), Fail> {
    for (flags, wanted) in KEPT {
        expect_kept(&rt, rt.alloc(), *flags, *wanted)?;
    }
    Ok(())
}
