ghost use Rattle.std.specs.Prelude.{◌≡◌, []};

use crate::tests::fixtures::expect;
use hx_ids::{InstanceId, SessionId};
use hx_sessions::{NotLive, Sessions};
use std::alloc::AllocError;
use std::process::Abort;
use std::test::Fail;

/// Opens two sessions, of which the second expires.
fn open_and_expire(rt: &impl Abort, sessions: &mut Sessions) -> Result<(), AllocError>
    requires live { sessions.old.live ≡ [] }
    requires next { sessions.old.next ≡ 1 }
{
    let first = sessions.open(InstanceId(0), 0)?;
    let second = sessions.open(InstanceId(1), 0)?;
    expect(rt, &sessions.beat(first, 5), &Ok(()));
    assert!(rt; sessions.after(second).is_some());
    expect(rt, &sessions.expire(34, 30)?.len(), &1);
    assert!(rt; sessions.first().is_some());
    Ok(())
}

#[test]
fn sessions_open_beat_and_expire(rt: HostRuntime) -> Result<(), Fail> {
    let mut sessions = Sessions::new(rt.alloc());
    open_and_expire(&rt, &mut sessions)?;
    Ok(())
}

#[test]
fn a_closed_session_has_no_beat(rt: HostRuntime) -> Result<(), Fail> {
    let mut sessions = Sessions::new(rt.alloc());
    let only = sessions.open(InstanceId(4), 1)?;
    expect(&rt, &only, &SessionId(1));
    assert!(rt; sessions.find(only).is_some());
    expect(&rt, &sessions.close(only), &Ok(()));
    expect(&rt, &sessions.beat(only, 3), &Err(NotLive));
    Ok(())
}
