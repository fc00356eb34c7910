//! Whether the live sessions that were shown are good ones.
ghost use Rattle.std.specs.Prelude.{◌≡◌, ◌==◌, true, None, IsTrue, nat_lt};
ghost use Rattle.std.specs.List.{list_all};
ghost use Rattle.hx_lists.specs.Lists.{count};
ghost use Rattle.hx_cluster.specs.Ends.{is_shown};
ghost use Rattle.hx_cluster.specs.Views.{is_good_session};
ghost use Rattle.hx_formed.specs.Sessions.{instances_rise, is_newer, sessions_rise, are_distinct};

use hx_ids::{InstanceId, SessionId};

pub fn is_in_range(instances: usize, instance: InstanceId) -> bool
    ensures { result ≡ nat_lt instance.0 instances }
{
    (instance.0 as usize) < instances
}

pub fn is_shown(live: &[(SessionId, InstanceId)], session: SessionId) -> bool
    ensures { result ≡ is_shown live.now session }
{
    live.iter().any(|e| e.0 == session)
}

fn sessions_numbered(live: &[(SessionId, InstanceId)], session: SessionId) -> usize
    ensures { result ≡ count (λ o. o.0.0 == session.0) live.now }
{
    live.iter().filter(|o| o.0 == session).count()
}

fn sessions_on(live: &[(SessionId, InstanceId)], instance: InstanceId) -> usize
    ensures { result ≡ count (λ o. o.1.0 == instance.0) live.now }
{
    live.iter().filter(|o| o.1 == instance).count()
}

fn is_good_session(
    instances: usize,
    live: &[(SessionId, InstanceId)],
    shown: (SessionId, InstanceId),
) -> bool
    ensures { result ≡ is_good_session instances live.now shown }
{
    is_in_range(instances, shown.1)
        && sessions_numbered(live, shown.0) == 1
        && sessions_on(live, shown.1) == 1
}

/// Whether the instances are in range and rise.
fn instances_rise(instances: usize, live: &[(SessionId, InstanceId)]) -> bool
    ensures { result ≡ instances_rise instances 0 live.now }
{
    let mut from = 0;
    for shown in live {
        let instance = shown.1.0 as usize;
        if instance < from || instances <= instance {
            return false;
        }
        from = instance + 1;
    }
    true
}

fn is_newer(last: Option<SessionId>, session: SessionId) -> bool
    ensures { result ≡ is_newer last session }
{
    match last {
        Some(last) => last.0 < session.0,
        None => true,
    }
}

/// Whether the sessions' numbers rise.
fn sessions_rise(live: &[(SessionId, InstanceId)]) -> bool
    ensures { result ≡ sessions_rise None live.now }
{
    let mut last = None;
    for shown in live {
        if !is_newer(last, shown.0) {
            return false;
        }
        last = Some(shown.0);
    }
    true
}

/// Whether no session stands twice, with a look at each pair.
fn stand_once(live: &[(SessionId, InstanceId)]) -> bool
    ensures { result ≡ are_distinct live.now }
{
    for (place, shown) in live.iter().enumerate() {
        if is_shown(&live[place + 1..], shown.0) {
            return false;
        }
    }
    true
}

/// Whether no session stands twice. Mostly those of later instances are newer too.
#[tactic(auto, using(crate::proofs::Live::risen_distinct))]
fn are_distinct(live: &[(SessionId, InstanceId)]) -> bool
    ensures { result ≡ are_distinct live.now }
{
    sessions_rise(live) || stand_once(live)
}

/// Whether each session is a good one, with a look at each pair.
fn are_all_good(instances: usize, live: &[(SessionId, InstanceId)]) -> bool
    ensures { result ≡ list_all (is_good_session instances live.now) live.now }
{
    live.iter().all(|e| is_good_session(instances, live, *e))
}

/// Whether each session is a good one. They are read by instance.
#[tactic(auto, using(crate::proofs::Live::risen_good, crate::proofs::Live::good_distinct))]
pub fn are_good_sessions(instances: usize, live: &[(SessionId, InstanceId)]) -> bool
    ensures good { result ≡ list_all (is_good_session instances live.now) live.now }
    ensures distinct { IsTrue result → are_distinct live.now ≡ true }
{
    if instances_rise(instances, live) {
        return are_distinct(live);
    }
    are_all_good(instances, live)
}
