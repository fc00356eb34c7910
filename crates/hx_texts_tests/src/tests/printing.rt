use super::{expect_page, small_spec};
use hx_cluster::{
    Admin, Begun, Candidate, Did, Dispatched, Event, Full, Outcome, Placed, Proposal, Spec,
    StepFault,
};
use hx_ids::{
    ControllerId, Epoch, InstanceId, MsgId, PartId, PassNo, ResourceId, SessionId, StateId,
};
use hx_lists::Seq;
use hx_print::{
    Note, Roll, Word, print_accept, print_event, print_failed, print_full, print_history_full,
    print_moved, print_note, print_route, print_seen, print_sent, print_settle, print_settled,
    print_summary, print_waiting,
};
use hx_text::Page;
use std::alloc::{AllocError, Global};
use std::test::Fail;

const CONTROLLER: ControllerId = ControllerId(0);

const PART: PartId = PartId {
    resource: ResourceId(1),
    index: 3,
};

/// Session s1 is that of n1, and s2 that of n2.
fn small_roll(alloc: Global) -> Result<Roll, AllocError> {
    Ok(Roll {
        resources: Seq::from_slice(alloc, &[0, 1])?,
        live: Seq::from_slice(
            alloc,
            &[(SessionId(1), InstanceId(0)), (SessionId(2), InstanceId(1))],
        )?,
    })
}

/// A page of events.
fn printed(alloc: Global, events: &[Event], spec: &Spec) -> Result<Page, AllocError> {
    let roll = small_roll(alloc)?;
    let mut page = Page::new(alloc);
    for event in events {
        print_event(event, &roll, spec, &mut page)?;
    }
    Ok(page)
}

const LOG: &str = "line 7
join n1 s3
end n1 s1
tick 5
  end n2 s2
  end n1 s1
begin c1 e1 p1
fetch n1 - 0
write s1 m1 failed
";

/// The events of LOG.
fn events(alloc: Global) -> Result<[Event; 7], AllocError> {
    let instance = InstanceId(0);
    let ended = Seq::from_slice(alloc, &[SessionId(2), SessionId(1)])?;
    let begun = Begun {
        epoch: Epoch(1),
        pass: PassNo(1),
        change: 9,
    };
    Ok([
        Event::Line(7),
        Event::Admin(Admin::Join { instance }, Did::Joined(SessionId(3))),
        Event::Admin(Admin::End { instance }, Did::Done),
        Event::Admin(Admin::Tick { n: 5 }, Did::Ended(ended)),
        Event::Begin(CONTROLLER, begun),
        Event::Fetch {
            instance,
            session: None,
            count: 0,
        },
        Event::Write(SessionId(1), MsgId(1), Outcome::Failed),
    ])
}

fn log(alloc: Global, spec: &Spec) -> Result<Page, AllocError> {
    let events = events(alloc)?;
    printed(alloc, &events, spec)
}

#[test]
fn log_lines(rt: HostRuntime) -> Result<(), Fail> {
    let spec = small_spec(rt.alloc())?;
    let page = log(rt.alloc(), &spec)?;
    expect_page(&rt, &page, LOG);
    Ok(())
}

/// A dispatch with each kind of answer.
fn dispatch(alloc: Global) -> Result<Event, AllocError> {
    let proposal = Proposal {
        session: SessionId(1),
        part: PART,
        from: StateId(4),
        to: StateId(3),
    };
    let has = Some(StateId(3));
    let over_throttle = Placed::OverThrottle {
        rule: 0,
        load: 4,
        limit: 4,
    };
    let placed = [
        Placed::Sent(MsgId(1)),
        Placed::Ended,
        Placed::ResourceDropped,
        Placed::Busy { id: MsgId(3) },
        Placed::WrongFrom { has: None },
        Placed::WrongFrom { has },
        Placed::Illegal,
        Placed::OverBound { count: 1, bound: 1 },
        over_throttle,
    ];
    Ok(Event::Dispatch {
        c: CONTROLLER,
        epoch: Epoch(1),
        pass: PassNo(1),
        proposals: Seq::from_slice(alloc, &[proposal; 9])?,
        answer: Dispatched {
            change: 0,
            placed: Seq::from_slice(alloc, &placed)?,
        },
    })
}

const ANSWERS: &str = "send c1 e1 p1
  sent m1 s1 db#1/3 OFFLINE>SLAVE
  ended s1 db#1/3 OFFLINE>SLAVE
  dropped s1 db#1/3 OFFLINE>SLAVE
  busy m3 s1 db#1/3 OFFLINE>SLAVE
  from - s1 db#1/3 OFFLINE>SLAVE
  from SLAVE s1 db#1/3 OFFLINE>SLAVE
  illegal s1 db#1/3 OFFLINE>SLAVE
  bound 1 of 1 s1 db#1/3 OFFLINE>SLAVE
  throttle 0 4 of 4 s1 db#1/3 OFFLINE>SLAVE
";

fn answers(alloc: Global, spec: &Spec) -> Result<Page, AllocError> {
    let events = [dispatch(alloc)?];
    printed(alloc, &events, spec)
}

#[test]
fn answers_to_proposals(rt: HostRuntime) -> Result<(), Fail> {
    let spec = small_spec(rt.alloc())?;
    let page = answers(rt.alloc(), &spec)?;
    expect_page(&rt, &page, ANSWERS);
    Ok(())
}

fn print_notes(spec: &Spec, notes: &[Note], page: &mut Page) -> Result<(), AllocError> {
    for note in notes {
        print_note(12, note, spec, page)?;
    }
    Ok(())
}

const NOTES: &str = "! 12 already-live s1
! 12 not-error -
! 12 no-resource
! 12 not-leader c2
! 12 out-of-turn mail
! 12 other-session -
! 12 wrong-from SLAVE
";

#[test]
fn notes(rt: HostRuntime) -> Result<(), Fail> {
    let spec = small_spec(rt.alloc())?;
    let session = SessionId(1);
    let led_by = Some(ControllerId(1));
    let notes = [
        Note::Step(StepFault::AlreadyLive { session }),
        Note::Step(StepFault::NotError { state: None }),
        Note::NoResource,
        Note::NotLeader { led_by },
        Note::OutOfTurn(Word::Mail),
        Note::OtherSession { mine: None },
        Note::WrongFrom { has: StateId(3) },
    ];
    let mut page = Page::new(rt.alloc());
    print_notes(&spec, &notes, &mut page)?;
    expect_page(&rt, &page, NOTES);
    Ok(())
}

/// A candidate for MASTER that s1 keeps from it.
fn small_full(alloc: Global) -> Result<Full, AllocError> {
    let candidate = Candidate {
        session: SessionId(2),
        instance: InstanceId(1),
        part: PART,
        from: StateId(3),
        to: StateId(2),
        place: 0,
    };
    Ok(Full {
        candidate,
        count: 1,
        bound: 1,
        holders: Seq::from_slice(alloc, &[SessionId(1)])?,
    })
}

fn print_passes(page: &mut Page) -> Result<(), AllocError> {
    print_sent(CONTROLLER, 2, page)?;
    print_waiting(CONTROLLER, 1, page)?;
    print_moved(CONTROLLER, 14, 15, page)?;
    print_settled(CONTROLLER, page)?;
    print_settle(CONTROLLER, 3, page)
}

fn print_outcomes(full: &Full, spec: &Spec, page: &mut Page) -> Result<(), AllocError> {
    print_passes(page)?;
    print_accept(InstanceId(0), MsgId(4), spec, page)?;
    print_failed(InstanceId(0), "db", PART, spec, page)?;
    let shown = [(SessionId(1), InstanceId(0))];
    print_full(full, "db", &shown, spec, page)
}

fn print_holders(spec: &Spec, page: &mut Page) -> Result<(), AllocError> {
    let rows = [(InstanceId(0), StateId(2)), (InstanceId(1), StateId(3))];
    print_seen("db", PART, &rows, spec, page)?;
    print_seen("db", PART, &[], spec, page)
}

fn print_views(spec: &Spec, page: &mut Page) -> Result<(), AllocError> {
    print_holders(spec, page)?;
    print_route("db", PART, StateId(2), &[InstanceId(0)], spec, page)?;
    print_route("db", PART, StateId(2), &[], spec, page)?;
    print_summary(5, 4, 1, 3, 2, page)?;
    print_history_full(4_000_000, page)
}

const SHOWN: &str = "? c1 sent 2
? c1 waiting 1
? c1 moved 14 15
? c1 settled
? settle c1 3
? n1 accept m4
? failed n1 db#1/3
? full n2 db#1/3 SLAVE>MASTER 1 of 1 n1
= db#1/3 n1:MASTER n2:SLAVE
= db#1/3 -
= route db#1/3 MASTER n1
= route db#1/3 MASTER -
= summary sent 5 ok 4 failed 1 sessions 3 ended 2
history full 4000000
";

fn shown(alloc: Global, spec: &Spec) -> Result<Page, AllocError> {
    let full = small_full(alloc)?;
    let mut page = Page::new(alloc);
    print_outcomes(&full, spec, &mut page)?;
    print_views(spec, &mut page)?;
    Ok(page)
}

#[test]
fn outcomes_and_views(rt: HostRuntime) -> Result<(), Fail> {
    let spec = small_spec(rt.alloc())?;
    let page = shown(rt.alloc(), &spec)?;
    expect_page(&rt, &page, SHOWN);
    Ok(())
}
