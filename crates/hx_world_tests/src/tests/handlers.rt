//! Makings and runs that fail as a list says.
ghost use Rattle.std.specs.Prelude.{◌≡◌};

use crate::tests::fixtures::{DB0, N1, OFFLINE, ONLINE, db, expect};
use hx_cluster::Failure;
use hx_handler::{Factory, Handler, Kept, MakeFault, ScriptedFactory, ScriptedHandler};
use hx_ids::PartId;
use std::alloc::{AllocError, Global};
use std::process::Abort;
use std::test::Fail;

/// Failures, each by its part's index, whether it is of a making, and its number.
fn failures(alloc: Global, listed: &[(u32, bool, u32)]) -> Result<Vec<Failure>, AllocError> {
    let mut failures = Vec::new(alloc);
    for (index, make, number) in listed {
        failures.push(Failure {
            instance: N1,
            part: db(*index),
            make: *make,
            number: *number,
        })?;
    }
    Ok(failures)
}

/// Whether a making fails. The handler is retired at once.
fn making_fails(rt: &impl Abort, factory: &mut ScriptedFactory, part: PartId) -> bool {
    match factory.make(part, OFFLINE) {
        Ok(handler) => {
            let _ = handler.retire();
            false
        }
        Err(MakeFault::Faulted) => true,
        Err(MakeFault::OutOfMemory) => panic!(rt; "no memory"),
    }
}

#[test]
fn the_makings_that_are_listed_fail(rt: HostRuntime) -> Result<(), Fail> {
    let failures = failures(rt.alloc(), &[(0, true, 1), (1, true, 2), (1, false, 1)])?;
    let mut factory = ScriptedFactory::new(failures);
    for (index, fails) in [(0, true), (0, false), (1, false), (1, true), (2, false)] {
        expect(&rt, &making_fails(&rt, &mut factory, db(index)), &fails);
    }
    Ok(())
}

/// Whether a run fails. The handler is reset.
fn run_fails(handler: &mut ScriptedHandler) -> bool
    requires initial { handler.old.initial ≡ OFFLINE }
    requires at { handler.old.at ≡ OFFLINE }
    ensures initial { handler.new.initial ≡ OFFLINE }
    ensures at { handler.new.at ≡ OFFLINE }
{
    let failed = handler.run(OFFLINE, ONLINE).is_err();
    handler.reset();
    failed
}

#[test]
fn the_run_that_is_listed_fails(rt: HostRuntime) -> Result<(), Fail> {
    let failures = failures(rt.alloc(), &[(0, false, 2), (0, true, 2), (1, false, 1)])?;
    let mut factory = ScriptedFactory::new(failures);
    let Ok(handler) = factory.make(DB0, OFFLINE) else {
        panic!(&rt; "no handler");
    };
    let mut handler = Kept::new(handler).into_handler();
    let first = run_fails(&mut handler);
    let second = run_fails(&mut handler);
    let third = run_fails(&mut handler);
    let retired = handler.retire();
    factory.take_back(retired);
    expect(&rt, &(first, second, third), &(false, true, false));
    expect(&rt, &retired.part, &DB0);
    Ok(())
}
