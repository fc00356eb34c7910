//! The tests of an ideal state.
ghost use Rattle.std.specs.Prelude.{◌≡◌, ◌^◌, ◌<◌, ◌≤◌, ◌==◌, ◌-◌, length, min};
ghost use Rattle.std.specs.List.{list_any};
ghost use Rattle.std.specs.Option.{option_or};
ghost use Rattle.hx_ideal.specs.IdealState.{count_of};
ghost use Rattle.hx_ideal.specs.declared.IdealFault.TheVariants.{PartCount};
ghost use Rattle.hx_lists.specs.First.{first_answer};
ghost use Rattle.hx_ideal.specs.Faults.{fault_of, id_fault as id_fault_of};
ghost use Rattle.hx_ideal.specs.Faults.{entry_fault as entry_fault_of, list_fault as list_fault_of};
ghost use Rattle.hx_ideal.specs.Faults.{map_fault as map_fault_of, mode_fault as mode_fault_of};
ghost use Rattle.hx_ideal.specs.Faults.{part_count_fault as part_count_fault_of};

use super::{IdealFault, MOST_PARTS, MOST_REPLICAS, Mode};
use hx_ids::{InstanceId, StateId};
use hx_lists::Seq;

/// The first fault of all.
pub fn first_fault(
    replicas: u32,
    parts: u32,
    mode: &Mode,
    instances: u32,
    states: &[StateId],
) -> Option<IdealFault>
    ensures { result ≡ fault_of replicas parts mode.now instances states.now }
{
    if replicas == 0 {
        Some(IdealFault::ZeroReplicas)
    } else if replicas > MOST_REPLICAS {
        Some(IdealFault::TooManyReplicas)
    } else if parts == 0 {
        Some(IdealFault::ZeroParts)
    } else if parts > MOST_PARTS {
        Some(IdealFault::TooManyParts)
    } else {
        mode_fault(parts, mode, instances, states)
    }
}

/// A wrong number of lists or maps, then the first fault in them.
fn mode_fault(parts: u32, mode: &Mode, instances: u32, states: &[StateId]) -> Option<IdealFault>
    requires { parts ≤ 1024 }
    ensures { result
        ≡ option_or (part_count_fault_of parts (count_of mode.now))
        (mode_fault_of instances states.now mode.now) }
{
    match mode {
        Mode::Full => None,
        Mode::Semi(lists) => {
            if lists.len() != parts as usize {
                return Some(part_count(lists.len(), parts));
            }
            lists_fault(lists.as_slice(), instances)
        }
        Mode::Custom(maps) => {
            if maps.len() != parts as usize {
                return Some(part_count(maps.len(), parts));
            }
            maps_fault(maps.as_slice(), instances, states)
        }
    }
}

fn part_count(has: usize, wants: u32) -> IdealFault
    ensures { result ≡ PartCount (min has (2 ^ 32 - 1)) wants }
{
    IdealFault::PartCount {
        has: has.min(u32::MAX as usize) as u32,
        wants,
    }
}

fn lists_fault(lists: &[Seq<InstanceId>], instances: u32) -> Option<IdealFault>
    requires { length lists.now ≤ 1024 }
    ensures { result
        ≡ first_answer (λ before list. list_fault_of instances (length before) list) lists.now }
{
    for (part, list) in lists.iter().enumerate() {
        if let Some(fault) = list_fault(list.as_slice(), part as u32, instances) {
            return Some(fault);
        }
    }
    None
}

fn maps_fault(
    maps: &[Seq<(InstanceId, StateId)>],
    instances: u32,
    states: &[StateId],
) -> Option<IdealFault>
    requires { length maps.now ≤ 1024 }
    ensures { result
        ≡ first_answer (λ before entries. map_fault_of instances states.now (length before) entries)
        maps.now }
{
    for (part, map) in maps.iter().enumerate() {
        if let Some(fault) = map_fault(map.as_slice(), part as u32, instances, states) {
            return Some(fault);
        }
    }
    None
}

/// The fault of a list's first faulty entry.
pub fn list_fault(list: &[InstanceId], part: u32, instances: u32) -> Option<IdealFault>
    ensures { result ≡ list_fault_of instances part list.now }
{
    for (place, id) in list.iter().enumerate() {
        if let Some(fault) = id_fault(&list[..place], *id, part, instances) {
            return Some(fault);
        }
    }
    None
}

/// The fault of a map's first faulty entry.
pub fn map_fault(
    map: &[(InstanceId, StateId)],
    part: u32,
    instances: u32,
    states: &[StateId],
) -> Option<IdealFault>
    ensures { result ≡ map_fault_of instances states.now part map.now }
{
    for (place, entry) in map.iter().enumerate() {
        if let Some(fault) = entry_fault(&map[..place], *entry, part, instances, states) {
            return Some(fault);
        }
    }
    None
}

fn id_fault(before: &[InstanceId], id: InstanceId, part: u32, instances: u32) -> Option<IdealFault>
    requires { length before.now < 2 ^ 32 }
    ensures { result ≡ id_fault_of instances part before.now id }
{
    let place = before.len() as u32;
    if id.0 >= instances {
        Some(IdealFault::UnknownInstance { part, place })
    } else if is_listed(before, id) {
        Some(IdealFault::TwiceInList { part, place })
    } else {
        None
    }
}

fn entry_fault(
    before: &[(InstanceId, StateId)],
    entry: (InstanceId, StateId),
    part: u32,
    instances: u32,
    states: &[StateId],
) -> Option<IdealFault>
    requires { length before.now < 2 ^ 32 }
    ensures { result ≡ entry_fault_of instances states.now part before.now entry }
{
    let place = before.len() as u32;
    if entry.0.0 >= instances {
        Some(IdealFault::UnknownInstance { part, place })
    } else if !is_state(states, entry.1) {
        Some(IdealFault::UnknownState { part, place })
    } else if is_placed(before, entry.0) {
        Some(IdealFault::TwiceInList { part, place })
    } else {
        None
    }
}

fn is_listed(list: &[InstanceId], id: InstanceId) -> bool
    ensures { result ≡ list_any (λ i. i.0 == id.0) list.now }
{
    list.iter().any(|i| *i == id)
}

fn is_placed(map: &[(InstanceId, StateId)], id: InstanceId) -> bool
    ensures { result ≡ list_any (λ e. e.0.0 == id.0) map.now }
{
    map.iter().any(|e| e.0 == id)
}

fn is_state(states: &[StateId], state: StateId) -> bool
    ensures { result ≡ list_any (λ s. s.0 == state.0) states.now }
{
    states.iter().any(|s| *s == state)
}
