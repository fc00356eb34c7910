//! Participants: deliveries, jobs, and what becomes of handlers.
ghost use Rattle.std.specs.Prelude.{◌≡◌, true};
ghost use Rattle.hx_replicas.specs.Participants.{all_idle};

use crate::tests::fixtures::{N1, OFFLINE, ONLINE, S1, S2, db, expect};
use hx_cluster::{Failure, Message, Outcome};
use hx_handler::{Factory, MakeFault, Retired, ScriptedFactory, ScriptedHandler};
use hx_ids::{Epoch, MsgId, PartId, StateId};
use hx_model::{DROPPED, ERROR};
use hx_replicas::{DeliverFault, Participant};
use std::process::Abort;
use std::test::Fail;

/// A message of the first session, of a part whose initial state is OFFLINE.
fn message(id: u64, index: u32, from: StateId, to: StateId) -> Message {
    Message {
        id: MsgId(id),
        session: S1,
        part: db(index),
        from,
        to,
        initial: OFFLINE,
        epoch: Epoch(1),
        taken: false,
        written: false,
    }
}

/// Delivers a message that fits, with room for it.
fn deliver<F: Factory>(
    rt: &impl Abort,
    p: &mut Participant<F>,
    message: &Message,
) -> Result<(), DeliverFault> {
    if message.to == ERROR {
        panic!(rt; "to ERROR");
    }
    if message.initial == ERROR || message.initial == DROPPED {
        panic!(rt; "no initial state");
    }
    if message.from == ERROR && message.to != message.initial {
        panic!(rt; "from ERROR to another state than the initial one");
    }
    if let Some(initial) = p.initial_of(message.part) {
        if initial != message.initial {
            panic!(rt; "another initial state");
        }
    }
    if p.reserve(1).is_err() {
        panic!(rt; "no memory");
    }
    p.deliver(message)
}

/// Takes the job of an accepted message, runs it and takes it back: how it ended.
fn carry<F: Factory>(rt: &impl Abort, p: &mut Participant<F>, id: u64) -> Outcome {
    let Ok(found) = p.job_of(MsgId(id)) else {
        panic!(rt; "no memory");
    };
    let Some(job) = found else {
        panic!(rt; "not accepted");
    };
    let ran = job.run();
    let outcome = ran.outcome();
    p.finish(ran.done());
    outcome
}

/// Takes the only job of all that are accepted, runs it and takes it back: how it ended.
fn carry_only<F: Factory>(rt: &impl Abort, p: &mut Participant<F>) -> Outcome {
    let Ok(mut jobs) = p.jobs() else {
        panic!(rt; "no memory");
    };
    if jobs.len() != 1 {
        panic!(rt; "not one job");
    }
    let Some(job) = jobs.pop() else {
        panic!(rt; "no job");
    };
    jobs.destroy_empty();
    let ran = job.run();
    let outcome = ran.outcome();
    p.finish(ran.done());
    outcome
}

/// Ends a participant that is idle, and gives its factory.
fn close<F: Factory>(p: Participant<F>) -> F
    requires { all_idle p.plain ≡ true }
{
    p.close()
}

/// A new participant in the first session.
fn adopted<F: Factory>(mut p: Participant<F>) -> Participant<F>
    requires { all_idle p.plain ≡ true }
{
    p.adopt(Some(S1));
    p
}

/// A participant of the first session, whose factory tells failures.
fn participant(rt: &impl Abort, failures: Vec<Failure>) -> Participant<ScriptedFactory> {
    let alloc = *failures.allocator();
    let p = Participant::new(alloc, N1, ScriptedFactory::new(failures));
    assert!(rt; p.idle());
    adopted(p)
}

/// Each message is accepted, and its job ends so.
fn expect_outcomes<F: Factory>(
    rt: &impl Abort,
    p: &mut Participant<F>,
    steps: &[(Message, Outcome)],
) {
    for (message, outcome) in steps {
        expect(rt, &deliver(rt, p, message), &Ok(()));
        expect(rt, &carry(rt, p, message.id.0), outcome);
    }
}

#[test]
fn a_making_that_failed_is_tried_again_after_a_reset(rt: HostRuntime) -> Result<(), Fail> {
    let failures = vec![in rt.alloc();
        Failure {
            instance: N1,
            part: db(7),
            make: true,
            number: 1
        },
    ]?;
    let mut p = participant(&rt, failures);
    let steps = [
        (message(1, 7, OFFLINE, ONLINE), Outcome::Failed),
        (message(2, 7, ERROR, OFFLINE), Outcome::Ok),
        (message(3, 7, OFFLINE, ONLINE), Outcome::Ok),
        (message(4, 7, ONLINE, OFFLINE), Outcome::Ok),
        (message(5, 7, OFFLINE, DROPPED), Outcome::Ok),
    ];
    expect_outcomes(&rt, &mut p, &steps);
    expect(&rt, &p.slot(db(7), OFFLINE), &(OFFLINE, 5));
    expect(&rt, &p.used(), &1);
    assert!(rt; p.idle());
    let _ = close(p);
    Ok(())
}

/// Each delivery is answered so.
fn expect_answers<F: Factory>(
    rt: &impl Abort,
    p: &mut Participant<F>,
    deliveries: &[(Message, Result<(), DeliverFault>)],
) {
    for (message, answer) in deliveries {
        expect(rt, &deliver(rt, p, message), answer);
    }
}

#[test]
fn deliveries_are_refused(rt: HostRuntime) -> Result<(), Fail> {
    let mut p = participant(&rt, Vec::new(rt.alloc()));
    let other = Message {
        session: S2,
        ..message(1, 0, OFFLINE, ONLINE)
    };
    let deliveries = [
        (other, Err(DeliverFault::OtherSession { mine: Some(S1) })),
        (message(3, 0, OFFLINE, ONLINE), Ok(())),
        (
            message(4, 0, ONLINE, OFFLINE),
            Err(DeliverFault::Running { id: MsgId(3) }),
        ),
        (
            message(2, 1, ONLINE, OFFLINE),
            Err(DeliverFault::WrongFrom { has: OFFLINE }),
        ),
    ];
    expect_answers(&rt, &mut p, &deliveries);
    expect(&rt, &carry(&rt, &mut p, 3), &Outcome::Ok);
    let repeat = message(3, 0, ONLINE, OFFLINE);
    let fault = DeliverFault::Repeat { last: MsgId(3) };
    expect(&rt, &deliver(&rt, &mut p, &repeat), &Err(fault));
    expect(&rt, &p.session(), &Some(S1));
    expect(&rt, &p.instance(), &N1);
    assert!(rt; p.idle());
    let _ = close(p);
    Ok(())
}

/// A factory of which one making wants memory, by its number from 1.
#[derive(Drop)]
struct Wanting {
    factory: ScriptedFactory,
    calls: u64,
    wants: u64,
}

impl Factory for Wanting {
    type H = ScriptedHandler;

    ghost use Rattle.std.specs.Prelude.{Some};

    ghost made = { λ f. f.factory.made };

    ghost retired = { λ f. f.factory.retired };

    ghost faults = { λ f. f.factory.faults };

    ghost listed = { λ f. Some f.factory.failures };

    ghost tried = { λ f. f.factory.tried };

    fn make(&mut self, part: PartId, initial: StateId) -> Result<ScriptedHandler, MakeFault> {
        self.calls = self.calls.saturating_add(1);
        if self.calls == self.wants {
            return Err(MakeFault::OutOfMemory);
        }
        self.factory.make(part, initial)
    }

    fn take_back(&mut self, rest: Retired) {
        self.factory.take_back(rest);
    }
}

/// Delivers a message about each of three partitions.
fn deliver_three<F: Factory>(rt: &impl Abort, p: &mut Participant<F>) {
    for id in 1..4 {
        let message = message(u64::from(id), id, OFFLINE, ONLINE);
        expect(rt, &deliver(rt, p, &message), &Ok(()));
    }
}

/// The jobs of the three messages end well.
fn carry_three<F: Factory>(rt: &impl Abort, p: &mut Participant<F>) {
    expect(rt, &carry(rt, p, 1), &Outcome::Ok);
    expect(rt, &carry(rt, p, 2), &Outcome::Ok);
    expect(rt, &carry_only(rt, p), &Outcome::Ok);
}

#[test]
fn handlers_stay_when_a_later_making_wants_memory(rt: HostRuntime) {
    let factory = Wanting {
        factory: ScriptedFactory::new(Vec::new(rt.alloc())),
        calls: 0,
        wants: 2,
    };
    let p = Participant::new(rt.alloc(), N1, factory);
    assert!(rt; p.idle());
    let mut p = adopted(p);
    deliver_three(&rt, &mut p);
    if let Ok(_jobs) = p.jobs() {
        panic!(&rt; "no want of memory");
    }
    carry_three(&rt, &mut p);
    assert!(rt; p.idle());
    expect(&rt, &close(p).calls, &4);
}
