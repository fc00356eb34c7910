//! The models that every description has. They stand at the places of their states' names.
ghost use Rattle.std.specs.Prelude.{◌≡◌, ◌+◌, ◌<◌, ◌≤◌, length, take, codes, IfOk, OnOk, OnErr};
ghost use Rattle.hx_ids.specs.Names.{interned};
ghost use Rattle.hx_model.specs.Builtin.{AreStates, AreNew, state_named, one_leads as one_leads_of};
ghost use Rattle.hx_model.specs.Builtin.{master_slave_names, master_slave_parts};
ghost use Rattle.hx_model.specs.Builtin.{online_offline_names, online_offline_parts};
ghost use Rattle.hx_model.specs.Builtin.{leader_standby_names, leader_standby_parts};

use super::{Bound, DROPPED, Model};
use hx_ids::{Names, StateId};
use std::alloc::{AllocError, Global};

/// MasterSlave: one replica of a partition is its master, and the others that are wanted are
/// slaves. The first two names are ERROR and DROPPED.
pub fn master_slave(alloc: Global, names: &mut Names) -> Result<Model, AllocError>
    requires states { AreStates names.old }
    requires few { length names.old < 250 }
    ensures parts { IfOk result (λ m. m ≡ master_slave_parts names.new) }
    ensures names { OnOk result (names.new ≡ master_slave_names names.old) }
    ensures err { OnErr result (names.new ≡ names.old) }
    ensures states { AreStates names.new }
    ensures few { length names.new ≤ length names.old + 3 }
{
    one_leads(alloc, names, "MASTER", "SLAVE")
}

/// LeaderStandby: one replica of a partition leads, and the others that are wanted stand by. The
/// first two names are ERROR and DROPPED.
pub fn leader_standby(alloc: Global, names: &mut Names) -> Result<Model, AllocError>
    requires states { AreStates names.old }
    requires few { length names.old < 250 }
    ensures parts { IfOk result (λ m. m ≡ leader_standby_parts names.new) }
    ensures names { OnOk result (names.new ≡ leader_standby_names names.old) }
    ensures err { OnErr result (names.new ≡ names.old) }
    ensures states { AreStates names.new }
    ensures few { length names.new ≤ length names.old + 3 }
{
    one_leads(alloc, names, "LEADER", "STANDBY")
}

/// OnlineOffline: as many replicas of a partition as are wanted are online. The first two names are
/// ERROR and DROPPED.
pub fn online_offline(alloc: Global, names: &mut Names) -> Result<Model, AllocError>
    requires states { AreStates names.old }
    requires few { length names.old < 250 }
    ensures parts { IfOk result (λ m. m ≡ online_offline_parts names.new) }
    ensures names { OnOk result (names.new ≡ online_offline_names names.old) }
    ensures err { OnErr result (names.new ≡ names.old) }
    ensures states { AreStates names.new }
    ensures few { length names.new ≤ length names.old + 2 }
{
    let before = names.len();
    let model = add_online_offline(alloc, names);
    if model.is_err() {
        names.truncate(before);
    }
    model
}

fn one_leads(
    alloc: Global,
    names: &mut Names,
    leader: &str,
    follower: &str,
) -> Result<Model, AllocError>
    requires new { AreNew leader.now follower.now }
    requires states { AreStates names.old }
    requires few { length names.old < 250 }
    ensures parts { IfOk result (λ m.
        m
        ≡ one_leads_of (state_named names.new leader.now) (state_named names.new follower.now)
        (state_named names.new (codes "OFFLINE"))) }
    ensures names { OnOk result (
        names.new
        ≡ interned (interned (interned names.old leader.now) follower.now) (codes "OFFLINE")) }
    ensures err { OnErr result (names.new ≡ names.old) }
    ensures states { AreStates names.new }
    ensures few { length names.new ≤ length names.old + 3 }
{
    let before = names.len();
    let model = add_one_leads(alloc, names, leader, follower);
    if model.is_err() {
        names.truncate(before);
    }
    model
}

/// Where memory is wanted, some of the names may have come.
fn add_one_leads(
    alloc: Global,
    names: &mut Names,
    leader: &str,
    follower: &str,
) -> Result<Model, AllocError>
    requires new { AreNew leader.now follower.now }
    requires states { AreStates names.old }
    requires few { length names.old < 250 }
    ensures parts { IfOk result (λ m.
        m
        ≡ one_leads_of (state_named names.new leader.now) (state_named names.new follower.now)
        (state_named names.new (codes "OFFLINE"))) }
    ensures names { OnOk result (
        names.new
        ≡ interned (interned (interned names.old leader.now) follower.now) (codes "OFFLINE")) }
    ensures kept { take (length names.old) names.new ≡ names.old }
    ensures states { AreStates names.new }
    ensures few { length names.new ≤ length names.old + 3 }
{
    let leader = state_of(names, leader)?;
    let follower = state_of(names, follower)?;
    let offline = state_of(names, "OFFLINE")?;
    let states = [
        (leader, Bound::Count(1)),
        (follower, Bound::Replicas),
        (offline, Bound::Free),
    ];
    let transitions = [
        (leader, follower),
        (follower, leader),
        (offline, follower),
        (follower, offline),
        (offline, DROPPED),
    ];
    Model::of(alloc, &states, offline, &transitions)
}

fn add_online_offline(alloc: Global, names: &mut Names) -> Result<Model, AllocError>
    requires states { AreStates names.old }
    requires few { length names.old < 250 }
    ensures parts { IfOk result (λ m. m ≡ online_offline_parts names.new) }
    ensures names { OnOk result (names.new ≡ online_offline_names names.old) }
    ensures kept { take (length names.old) names.new ≡ names.old }
    ensures states { AreStates names.new }
    ensures few { length names.new ≤ length names.old + 2 }
{
    let online = state_of(names, "ONLINE")?;
    let offline = state_of(names, "OFFLINE")?;
    let states = [(online, Bound::Replicas), (offline, Bound::Free)];
    let transitions = [(offline, online), (online, offline), (offline, DROPPED)];
    Model::of(alloc, &states, offline, &transitions)
}

/// The state of a name. A new name goes last.
fn state_of(names: &mut Names, name: &str) -> Result<StateId, AllocError>
    requires few { length names.old < 255 }
    ensures state { IfOk result (λ s. s ≡ state_named names.new name.now) }
    ensures names { OnOk result (names.new ≡ interned names.old name.now) }
    ensures err { OnErr result (names.new ≡ names.old) }
    ensures few { length names.new ≤ length names.old + 1 }
{
    Ok(StateId(names.intern(name)? as u8))
}
