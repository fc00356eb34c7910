//! Numbers of ends and of loads, kept up as they come and go.
#![tactic(auto)]

ghost use Rattle.std.specs.Prelude.{◌≡◌, ℕ, ◌+◌, ◌-◌, ◌^◌, ◌<◌, Some, OnOk, OnErr, unwrap_or};
ghost use Rattle.std.specs.Prelude.{if◌then◌else◌};
ghost use Rattle.std.specs.HashMap.{get};
ghost use Rattle.hx_ids.specs.declared.PartId.{PartId};
ghost use Rattle.hx_ids.specs.declared.StateId.{StateId};
ghost use Rattle.hx_counts.specs.Tally.{is_end, is_load, ends_of, loads_of};

use hx_ids::{PartId, StateId};
use std::alloc::{AllocError, Global};
use std::collections::HashMap;
use std::hash::Hash;
use std::marker::Model;

/// How many replicas of a part have a state among their ends, and how many messages a throttle rule
/// counts under a key. Contracts see both as lists of keys with their numbers, in an order that
/// says nothing.
#[derive(Drop)]
pub struct Counts {
    ends: HashMap<(PartId, StateId), u32>,
    loads: HashMap<(usize, u32), u32>,
}

impl Model for Counts {
    ghost use Rattle.hx_counts.specs.Tally.{Numbers};

    ghost Value = { Numbers };

    ghost view = { λ a. record { ends = a.ends.entries; loads = a.loads.entries } };
}

impl Counts {
    /// No ends and no loads.
    pub fn new(alloc: Global) -> Counts
        ensures ends { (p : PartId) (s : StateId) → ends_of result p s ≡ 0 }
        ensures loads { (r : ℕ) (k : ℕ) → loads_of result r k ≡ 0 }
    {
        Counts {
            ends: HashMap::new(alloc),
            loads: HashMap::new(alloc),
        }
    }

    /// Counts an end. A number that is at its most is answered as want of memory.
    pub fn raise_end(&mut self, part: PartId, state: StateId) -> Result<(), AllocError>
        ensures ends { OnOk result
            ((p : PartId) (s : StateId)
            → ends_of self.new p s
            ≡ ends_of self.old p s + (if is_end p s (part, state) then 1 else 0)) }
        ensures loads { OnOk result (self.new.loads ≡ self.old.loads) }
        ensures err { OnErr result (self.new ≡ self.old) }
    {
        raise(&mut self.ends, (part, state))
    }

    /// Counts an end no longer, if it is counted. It takes no memory.
    pub fn lower_end(&mut self, part: PartId, state: StateId)
        ensures ends { (p : PartId) (s : StateId)
            → ends_of self.new p s
            ≡ ends_of self.old p s - (if is_end p s (part, state) then 1 else 0) }
        ensures loads { self.new.loads ≡ self.old.loads }
    {
        lower(&mut self.ends, (part, state));
    }

    /// How many ends there are of a part and state. It takes no memory.
    pub fn count(&self, part: PartId, state: StateId) -> u32
        ensures { result ≡ ends_of self.now part state }
    {
        number(&self.ends, &(part, state))
    }

    /// Counts a load of a rule, by its place, under a key: the instance, the resource, or 0 for the
    /// cluster. A number that is at its most is answered as want of memory.
    pub fn raise_load(&mut self, rule: usize, key: u32) -> Result<(), AllocError>
        ensures ends { OnOk result (self.new.ends ≡ self.old.ends) }
        ensures loads { OnOk result
            ((r : ℕ) (k : ℕ)
            → loads_of self.new r k
            ≡ loads_of self.old r k + (if is_load r k (rule, key) then 1 else 0)) }
        ensures err { OnErr result (self.new ≡ self.old) }
    {
        raise(&mut self.loads, (rule, key))
    }

    /// Counts a load no longer, if it is counted. It takes no memory.
    pub fn lower_load(&mut self, rule: usize, key: u32)
        ensures ends { self.new.ends ≡ self.old.ends }
        ensures loads { (r : ℕ) (k : ℕ)
            → loads_of self.new r k
            ≡ loads_of self.old r k - (if is_load r k (rule, key) then 1 else 0) }
    {
        lower(&mut self.loads, (rule, key));
    }

    /// How many loads there are of a rule and key. It takes no memory.
    pub fn load(&self, rule: usize, key: u32) -> u32
        ensures { result ≡ loads_of self.now rule key }
    {
        number(&self.loads, &(rule, key))
    }
}

// The number of a key: 0 where there is none.
#[inline(always)]
fn number<K: Eq + Hash>(numbers: &HashMap<K, u32>, key: &K) -> u32
    ensures { result ≡ unwrap_or (get K.eq numbers.now key.now) 0 }
{
    numbers.get(key).copied().unwrap_or(0)
}

// Raises the number of a key by one. One that is at its most is answered as want of memory.
fn raise<K: Eq + Hash + Drop>(numbers: &mut HashMap<K, u32>, key: K) -> Result<(), AllocError>
    ensures ok { OnOk result
        ((q : K)
        → get K.eq numbers.new q
        ≡ (if K.eq key q then Some (unwrap_or (get K.eq numbers.old key) 0 + 1)
        else get K.eq numbers.old q)) }
    ensures err { OnErr result (numbers.new.entries ≡ numbers.old.entries) }
{
    if let Some(number) = numbers.get_mut(&key) {
        if *number == u32::MAX {
            return Err(AllocError);
        }
        *number += 1;
        return Ok(());
    }
    numbers.insert(key, 1)?;
    Ok(())
}

// Lowers the number of a key by one, if it has one, and forgets it at 0. It takes no memory.
fn lower<K: Eq + Hash + Drop>(numbers: &mut HashMap<K, u32>, key: K)
    ensures less { (q : K)
        → unwrap_or (get K.eq numbers.new q) 0
        ≡ (if K.eq key q then unwrap_or (get K.eq numbers.old key) 0 - 1
        else unwrap_or (get K.eq numbers.old q) 0) }
{
    let Some(number) = numbers.get_mut(&key) else {
        return;
    };
    if *number > 1 {
        *number -= 1;
        return;
    }
    numbers.remove(&key);
}
