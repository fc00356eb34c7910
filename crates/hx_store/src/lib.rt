//! A store of versioned records by key, some of which belong to a session.
#![tactic(auto)]

ghost use Rattle.std.specs.Prelude.{◌≡◌, ℕ, ◌==◌, [], IfOk, OnOk, OnErr, None, Some};
ghost use Rattle.std.specs.Prelude.{option_map, map, IsSome, length, if◌then◌else◌};
ghost use Rattle.std.specs.List.{list_any};
ghost use Rattle.std.specs.Map.{keys_of};
ghost use Rattle.std.specs.List.Sorted.{IsStrictlySortedBy};
ghost use Rattle.std.specs.Ordering.{nat_cmp};
ghost use Rattle.hx_lists.specs.Lists.{insert_by};
ghost use Rattle.hx_store.specs.Records.{record_at, is_before, created, set_to, deleted};
ghost use Rattle.hx_store.specs.Records.{without_owner, owned_by, keys_within, next_owned};
ghost use Rattle.hx_store.specs.Records.{owned_from};
ghost use Rattle.hx_lists.specs.Answers.{RefusedAs, RefusedBy};
ghost use Rattle.hx_store.specs.Refusals.{create_refusal, change_refusal, CanChange};
ghost use Rattle.hx_store.specs.Operations.{done_all, first_refusal, RefusedAt, CanDoAll};
ghost use Rattle.hx_store.specs.Drafts.{change_at, over, left_at, IsDraftOf};

mod changes;
mod draft;
mod keys;
mod owners;
mod records;
mod shelf;
mod walk;

use changes::{claim_all, keys_in_order, settle, take_all};
use draft::{Draft, draft_of};
use hx_ids::SessionId;
use owners::Owners;
use records::first_record;
use shelf::Shelf;
use std::alloc::{AllocError, Global};
use std::collections::BTreeMap;
use std::marker::Model;
pub use walk::Owned;

/// A record: its version, which begins at 1 and rises with each change, the session that owns it,
/// if any, and its value.
#[derive(Drop)]
pub struct Record<V> {
    pub version: u64,
    pub owner: Option<SessionId>,
    pub value: V,
}

/// Why an operation is refused.
#[derive(Clone, Copy, Debug, PartialEq, Eq)]
pub enum StoreFault {
    /// The key has a record, of this version.
    Exists { version: u64 },
    /// The key has no record.
    NoRecord,
    /// The key's record has another version, this one.
    Version { has: u64 },
    OutOfMemory,
}

impl From<AllocError> for StoreFault {
    ghost use Rattle.std.specs.Prelude.{◌≡◌};
    ghost use Rattle.hx_store.specs.declared.StoreFault.TheVariants.{OutOfMemory};

    ghost from_gives = { λ _ e. e ≡ OutOfMemory };

    fn from(_e: AllocError) -> StoreFault {
        StoreFault::OutOfMemory
    }
}

/// One operation of several that are made together.
#[derive(Drop)]
pub enum Op<V> {
    Create {
        key: u64,
        owner: Option<SessionId>,
        value: V,
    },
    Set {
        key: u64,
        version: u64,
        value: V,
    },
    Delete {
        key: u64,
        version: u64,
    },
}

/// Why operations are refused together: the first that is refused after those before it, by its
/// place from 0, and why.
/// For want of memory the place says nothing.
#[derive(Clone, Copy, Debug, PartialEq, Eq)]
pub struct MultiFault {
    pub at: u32,
    pub fault: StoreFault,
}

impl From<AllocError> for MultiFault {
    ghost use Rattle.std.specs.Prelude.{◌≡◌};
    ghost use Rattle.hx_store.specs.declared.StoreFault.TheVariants.{OutOfMemory};

    ghost from_gives = { λ _ e. e.fault ≡ OutOfMemory };

    fn from(_e: AllocError) -> MultiFault {
        MultiFault {
            at: 0,
            fault: StoreFault::OutOfMemory,
        }
    }
}

/// Records by key. Contracts see them as the list of keys with their records, in order of key.
#[derive(Drop)]
pub struct Store<V> {
    alloc: Global,
    records: Shelf<V>,
    owners: Owners,
}

impl<V> Model for Store<V> {
    ghost use Rattle.std.specs.Prelude.{List, ℕ};
    ghost use Rattle.hx_store.specs.declared.Record.{Record};

    ghost Value = { List (ℕ × Record V) };

    ghost view = { λ a. a.records };

    ghost use Rattle.hx_store.specs.Owners.{IsStore};

    ghost invariant = { λ a. IsStore a.records a.owners };
}

impl<V: Drop> Store<V> {
    /// A store without records.
    pub fn new(alloc: Global) -> Store<V>
        ensures { result ≡ [] }
    {
        Store {
            alloc,
            records: Shelf::new(alloc),
            owners: Owners::new(alloc),
        }
    }

    /// Makes a record of version 1.
    pub fn create(&mut self, key: u64, owner: Option<SessionId>, value: V) -> Result<(), StoreFault>
        ensures refused { RefusedBy StoreFault.OutOfMemory (create_refusal self.old key) result }
        ensures ok { OnOk result (self.new ≡ created self.old key owner value) }
        ensures err { OnErr result (self.new ≡ self.old) }
    {
        if let Some(record) = self.records.get(key) {
            return Err(StoreFault::Exists {
                version: record.version,
            });
        }
        self.add(key, first_record(owner, value))?;
        Ok(())
    }

    /// Changes the value of a record of this version, and gives the old one. It takes no memory.
    pub fn set(&mut self, key: u64, version: u64, value: V) -> Result<V, StoreFault>
        requires { CanChange (record_at self.old key) }
        ensures refused { RefusedAs (change_refusal self.old key version) result }
        ensures value { IfOk result
            (λ v. option_map (λ r. r.value) (record_at self.old key) ≡ Some v) }
        ensures ok { OnOk result (self.new ≡ set_to self.old key value) }
        ensures err { OnErr result (self.new ≡ self.old) }
    {
        self.records.set(key, version, value)
    }

    /// Changes the value of a key's record, whatever its version, and gives the old one. Where there
    /// is no record nothing changes. It takes no memory. The keys of all records rise.
    pub fn replace(&mut self, key: u64, value: V) -> Option<V>
        requires { CanChange (record_at self.old key) }
        ensures value { result ≡ option_map (λ r. r.value) (record_at self.old key) }
        ensures new { self.new ≡ set_to self.old key value }
        ensures ordered { IsStrictlySortedBy nat_cmp (keys_of self.old) }
    {
        self.records.change(key, value)
    }

    /// Removes a record of this version, and gives its value. It takes no memory.
    pub fn delete(&mut self, key: u64, version: u64) -> Result<V, StoreFault>
        ensures refused { RefusedAs (change_refusal self.old key version) result }
        ensures value { IfOk result
            (λ v. option_map (λ r. r.value) (record_at self.old key) ≡ Some v) }
        ensures ok { OnOk result (self.new ≡ deleted self.old key) }
        ensures err { OnErr result (self.new ≡ self.old) }
    {
        match self.records.get(key) {
            None => return Err(StoreFault::NoRecord),
            Some(record) if record.version != version => {
                return Err(StoreFault::Version {
                    has: record.version,
                });
            }
            Some(_) => {}
        }
        match self.take(key) {
            Some(record) => Ok(record.value),
            None => unreachable!(),
        }
    }

    /// Removes a key's record, whatever its version, and gives its value, if there is one. It takes
    /// no memory.
    pub fn remove(&mut self, key: u64) -> Option<V>
        ensures value { result ≡ option_map (λ r. r.value) (record_at self.old key) }
        ensures rest { self.new ≡ deleted self.old key }
    {
        let record = self.take(key)?;
        Some(record.value)
    }

    /// The version and the value of a key's record. It takes no memory. The keys of all records
    /// rise.
    pub fn get(&self, key: u64) -> Option<(u64, &V)>
        ensures version { option_map (λ p. p.0) result
            ≡ option_map (λ r. r.version) (record_at self.now key) }
        ensures value { option_map (λ p. p.1.now) result
            ≡ option_map (λ r. r.value) (record_at self.now key) }
        ensures ordered { IsStrictlySortedBy nat_cmp (keys_of self.now) }
    {
        let record = self.records.get(key)?;
        Some((record.version, &record.value))
    }

    /// The keys that have a record, in order, from one on and below another. It goes over all
    /// records.
    pub fn range(&self, from: u64, to: u64) -> Result<Vec<u64>, AllocError>
        ensures { IfOk result (λ keys. keys.items ≡ keys_within self.now from to) }
    {
        self.records.keys_within(self.alloc, from, to)
    }

    /// The first key from one on whose record a session owns. It takes no memory. The keys of all
    /// records rise.
    pub fn next_owned(&self, owner: SessionId, from: u64) -> Option<u64>
        ensures next { result ≡ next_owned self.now owner from }
        ensures ordered { IsStrictlySortedBy nat_cmp (keys_of self.now) }
    {
        self.owners.first_from(owner, from)
    }

    /// The values of the records that a session owns, in order of key. It takes no memory, and goes
    /// over no others.
    pub fn owned(&self, owner: SessionId) -> Owned<'_, V>
        ensures { result ≡ map (λ e. e.1.value) (owned_from self.now owner 0) }
    {
        Owned {
            keys: self.owners.keys(owner),
            records: &self.records,
        }
    }

    /// The number of records.
    pub fn len(&self) -> usize
        ensures { result ≡ length self.now }
    {
        self.records.len()
    }

    /// Removes all records that a session owns, and gives their number. It takes no memory, and
    /// goes over no others.
    pub fn end_session(&mut self, owner: SessionId) -> u64
        ensures count { result ≡ owned_by self.old owner }
        ensures rest { self.new ≡ without_owner self.old owner }
    {
        let before = self.records.len();
        let keys = self.owners.forget_all(owner);
        take_all(&mut self.records, &keys);
        (before - self.records.len()) as u64
    }

    /// Does operations in order, or none where one is refused after those before it. More than
    /// 2^32 - 1 operations are answered as want of memory.
    pub fn multi(&mut self, ops: Vec<Op<V>>) -> Result<(), MultiFault>
        requires { CanDoAll self.old ops.items }
        ensures refused { RefusedAt (first_refusal 0 self.old ops.items) result }
        ensures ok { OnOk result (self.new ≡ done_all self.old ops.items) }
        ensures err { OnErr result (self.new ≡ self.old) }
    {
        let draft = draft_of(self.alloc, &self.records, ops)?;
        self.make(draft)?;
        Ok(())
    }

    // Makes all that a draft says.
    fn make(&mut self, draft: Draft<V>) -> Result<(), AllocError>
        requires { IsDraftOf self.old draft }
        ensures ok { OnOk result ((q : ℕ) → record_at self.new q ≡ left_at self.old draft q) }
        ensures ordered { IsStrictlySortedBy nat_cmp (keys_of self.new) }
        ensures err { OnErr result (self.new ≡ self.old) }
    {
        let Draft { fresh, changes } = draft;
        let added = self.add_all(fresh)?;
        if let Err(refused) = self.change_all(changes) {
            self.take_all(&added);
            return Err(refused);
        }
        Ok(())
    }

    // Puts records where there are none, all or none of them, and gives their keys.
    fn add_all(&mut self, fresh: BTreeMap<u64, Record<V>>) -> Result<Vec<u64>, AllocError>
        requires { (k : ℕ) → IsSome (record_at fresh.entries k) → record_at self.old k ≡ None }
        ensures ok { OnOk result
            ((q : ℕ)
            → record_at self.new q ≡ over (record_at self.old q) None (record_at fresh.entries q)) }
        ensures keys { IfOk result (λ keys. keys.items ≡ keys_of fresh.entries) }
        ensures ordered { IsStrictlySortedBy nat_cmp (keys_of self.new) }
        ensures was_ordered { IsStrictlySortedBy nat_cmp (keys_of self.old) }
        ensures err { OnErr result (self.new ≡ self.old) }
    {
        let keys = keys_in_order(self.alloc, &fresh)?;
        for (key, record) in fresh {
            if let Err(refused) = self.add(key, record) {
                self.take_all(&keys);
                return Err(refused);
            }
        }
        Ok(keys)
    }

    // Changes records that are there, all or none of them.
    fn change_all(&mut self, changes: BTreeMap<u64, Option<Record<V>>>) -> Result<(), AllocError>
        requires { (k : ℕ) → IsSome (change_at changes.entries k) → IsSome (record_at self.old k) }
        ensures ok { OnOk result
            ((k : ℕ)
            → record_at self.new k
            ≡ over (record_at self.old k) (change_at changes.entries k) None) }
        ensures ordered { IsStrictlySortedBy nat_cmp (keys_of self.new) }
        ensures err { OnErr result (self.new ≡ self.old) }
    {
        claim_all(&mut self.owners, &self.records, &changes)?;
        settle(&mut self.records, &mut self.owners, changes);
        Ok(())
    }

    // Takes the records of some keys out.
    fn take_all(&mut self, keys: &[u64])
        requires { IsStrictlySortedBy nat_cmp (keys_of self.old) }
        ensures rest { (q : ℕ)
            → record_at self.new q
            ≡ (if list_any (λ k. q == k) keys.now then None else record_at self.old q) }
        ensures ordered { IsStrictlySortedBy nat_cmp (keys_of self.new) }
    {
        for key in keys {
            self.take(*key);
        }
    }

    // Puts a record where there is none.
    fn add(&mut self, key: u64, added: Record<V>) -> Result<(), AllocError>
        requires { record_at self.old key ≡ None }
        ensures ok { OnOk result (self.new ≡ insert_by is_before (key, added) self.old) }
        ensures ordered { IsStrictlySortedBy nat_cmp (keys_of self.new) }
        ensures err { OnErr result (self.new ≡ self.old) }
    {
        let owner = added.owner;
        self.owners.claim(owner, key)?;
        if let Err(refused) = self.records.add(key, added) {
            self.owners.release(owner, key);
            return Err(refused);
        }
        Ok(())
    }

    // Takes a record out, if there is one.
    fn take(&mut self, key: u64) -> Option<Record<V>>
        ensures value { result ≡ record_at self.old key }
        ensures rest { self.new ≡ deleted self.old key }
        ensures ordered { IsStrictlySortedBy nat_cmp (keys_of self.new) }
    {
        let record = self.records.take(key)?;
        self.owners.release(record.owner, key);
        Some(record)
    }
}
