//! Ideal states: how many replicas and partitions a resource has, and where they are wanted.
#![tactic(auto)]

ghost use Rattle.std.specs.Prelude.{◌≡◌, ◌<◌, ◌≤◌, None, Some, IfOk, IfErr, OnOk, IsSome};
ghost use Rattle.hx_ideal.specs.IdealState.{lists_of, maps_of, with_list, with_map, count_of};
ghost use Rattle.hx_ideal.specs.IdealState.{HasCount};
ghost use Rattle.hx_ideal.specs.Faults.{fault_of, list_fault as list_fault_of};
ghost use Rattle.hx_ideal.specs.Faults.{map_fault as map_fault_of};

mod bare;
mod faults;
mod kinds;

pub use faults::{list_fault, map_fault};
use hx_ids::{InstanceId, StateId};
use hx_lists::Seq;
pub use kinds::ModeKind;
use std::alloc::AllocError;
use std::marker::Model;

/// The most replicas that a partition has.
pub const MOST_REPLICAS: u32 = 64;

/// The most partitions that a resource has.
pub const MOST_PARTS: u32 = 1024;

/// Who says where the replicas of a resource are wanted.
#[derive(Debug, PartialEq, Drop)]
pub enum Mode {
    /// FULL_AUTO: the controller, over all live instances.
    Full,
    /// SEMI_AUTO: a preference list for each partition.
    Semi(Seq<Seq<InstanceId>>),
    /// CUSTOMIZED: for each partition, a state on each instance that is named.
    Custom(Seq<Seq<(InstanceId, StateId)>>),
}

/// What is wrong with an ideal state. Partitions, and places in a list or map, count from 0.
#[derive(Clone, Copy, Debug, PartialEq, Eq)]
pub enum IdealFault {
    ZeroReplicas,
    /// More than 64.
    TooManyReplicas,
    ZeroParts,
    /// More than 1,024.
    TooManyParts,
    /// Another number of lists or maps than of partitions.
    PartCount { has: u32, wants: u32 },
    UnknownInstance { part: u32, place: u32 },
    UnknownState { part: u32, place: u32 },
    /// An instance that stands earlier in the same list or map.
    TwiceInList { part: u32, place: u32 },
}

/// A checked ideal state. Contracts see its replicas, its partitions and its mode.
#[derive(Debug)]
pub struct Ideal {
    replicas: u32,
    parts: u32,
    mode: Mode,
}

// A derived drop is written out, field by field, wherever one is dropped; this is a call.
impl Drop for Ideal {
    fn drop(self) {
        let Ideal {
            replicas: _,
            parts: _,
            mode: _,
        } = self;
    }
}

impl Model for Ideal {
    ghost use Rattle.hx_ideal.specs.IdealState.{IdealState, IsIdeal};

    ghost Value = { IdealState };

    ghost view = { λ a. record { replicas = a.replicas; parts = a.parts; mode = a.mode } };

    ghost invariant = { λ a. IsIdeal a.replicas a.parts a.mode };
}

impl Ideal {
    /// Tests an ideal state for a number of instances and for the states of its model. It takes no
    /// memory.
    pub fn check(
        replicas: u32,
        parts: u32,
        mode: Mode,
        instances: u32,
        states: &[StateId],
    ) -> Result<Ideal, IdealFault>
        ensures ok { IfOk result (λ ideal.
            (fault_of replicas parts mode instances states.now ≡ None)
            × (ideal ≡ record { replicas = replicas; parts = parts; mode = mode })) }
        ensures err { IfErr result (λ fault.
            fault_of replicas parts mode instances states.now ≡ Some fault) }
    {
        match faults::first_fault(replicas, parts, &mode, instances, states) {
            Some(fault) => Err(fault),
            None => Ok(Ideal {
                replicas,
                parts,
                mode,
            }),
        }
    }

    /// How many replicas each partition has. It takes no memory.
    pub fn replicas(&self) -> u32
        ensures value { result ≡ self.now.replicas }
        ensures range { (1 ≤ self.now.replicas) × (self.now.replicas ≤ 64) }
    {
        self.replicas
    }

    /// How many partitions there are. It takes no memory.
    pub fn parts(&self) -> u32
        ensures value { result ≡ self.now.parts }
        ensures range { (1 ≤ self.now.parts) × (self.now.parts ≤ 1024) }
    {
        self.parts
    }

    /// Where the replicas are wanted. It takes no memory.
    pub fn mode(&self) -> &Mode
        ensures value { result.now ≡ self.now.mode }
        ensures count { HasCount (count_of self.now.mode) self.now.parts }
    {
        &self.mode
    }

    /// Replaces the preference list of a partition. It is refused by the fault of the list's first
    /// faulty entry, as in `check`. It takes no memory.
    pub fn set_list(
        &mut self,
        part: u32,
        list: Vec<InstanceId>,
        instances: u32,
    ) -> Result<(), IdealFault>
        requires mode { IsSome (lists_of self.old.mode) }
        requires part { part < self.old.parts }
        ensures ok { OnOk result (
            (list_fault_of instances part list.items ≡ None)
            × (self.new ≡ with_list self.old part list.items)) }
        ensures err { IfErr result (λ fault.
            (list_fault_of instances part list.items ≡ Some fault) × (self.new ≡ self.old)) }
    {
        if let Some(fault) = faults::list_fault(list.as_slice(), part, instances) {
            return Err(fault);
        }
        if let Mode::Semi(lists) = &mut self.mode {
            lists.set(part as usize, Seq::from_vec(list));
        }
        Ok(())
    }

    /// Replaces the map of a partition. It is refused by the fault of the map's first faulty entry,
    /// as in `check`. It takes no memory.
    pub fn set_map(
        &mut self,
        part: u32,
        map: Vec<(InstanceId, StateId)>,
        instances: u32,
        states: &[StateId],
    ) -> Result<(), IdealFault>
        requires mode { IsSome (maps_of self.old.mode) }
        requires part { part < self.old.parts }
        ensures ok { OnOk result (
            (map_fault_of instances states.now part map.items ≡ None)
            × (self.new ≡ with_map self.old part map.items)) }
        ensures err { IfErr result (λ fault.
            (map_fault_of instances states.now part map.items ≡ Some fault)
            × (self.new ≡ self.old)) }
    {
        if let Some(fault) = faults::map_fault(map.as_slice(), part, instances, states) {
            return Err(fault);
        }
        if let Mode::Custom(maps) = &mut self.mode {
            maps.set(part as usize, Seq::from_vec(map));
        }
        Ok(())
    }
}

impl Clone for Ideal {
    ghost is_clone = { λ ideal copy. copy ≡ ideal };

    fn clone(&self) -> Result<Ideal, AllocError> {
        Ok(Ideal {
            replicas: self.replicas,
            parts: self.parts,
            mode: self.mode.clone()?,
        })
    }
}

impl Clone for Mode {
    ghost is_clone = { λ mode copy. copy ≡ mode };

    fn clone(&self) -> Result<Mode, AllocError> {
        match self {
            Mode::Full => Ok(Mode::Full),
            Mode::Semi(lists) => Ok(Mode::Semi(lists.clone()?)),
            Mode::Custom(maps) => Ok(Mode::Custom(maps.clone()?)),
        }
    }
}
