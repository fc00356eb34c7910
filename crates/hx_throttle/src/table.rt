//! How many messages each rule counts under each key, in a table.
ghost use Rattle.std.specs.Prelude.{◌≡◌, ℕ, ◌+◌, IfOk, OnOk, if◌then◌else◌};
ghost use Rattle.hx_counts.specs.Tally.{is_load, loads_of};
ghost use Rattle.hx_throttle.specs.Table.{place_in, load_at};

use hx_counts::Counts;
use std::alloc::{AllocError, Global};
use std::marker::Model;

/// How many rules have a row of cells.
const ROWS: usize = 16;

/// How many keys a row has.
const KEYS: usize = 256;

/// How many messages each rule, by its place, counts under each key. Contracts see the cells and
/// what is counted beside them.
#[derive(Drop)]
pub struct Loads {
    // The first rules have a cell for each small key, row by row.
    cells: Vec<u32>,
    others: Counts,
}

impl Model for Loads {
    ghost use Rattle.hx_throttle.specs.Table.{Table};

    ghost Value = { Table };

    ghost view = { λ a. record { cells = a.cells.items; others = a.others } };
}

/// The place of a load among so many cells, if it has one.
fn place_in(cells: usize, rule: usize, key: u32) -> Option<usize>
    ensures { result ≡ place_in cells rule key }
{
    if rule >= ROWS || key as usize >= KEYS {
        return None;
    }
    let place = rule * KEYS + key as usize;
    if place < cells { Some(place) } else { None }
}

/// A load more. One past the end of its type is want of memory. It is rare, so it is a call.
#[inline(never)]
fn raise_other(loads: &mut Counts, rule: usize, key: u32) -> Result<(), AllocError>
    ensures { OnOk result ((r : ℕ) (k : ℕ)
        → loads_of loads.new r k
        ≡ loads_of loads.old r k + (if is_load r k (rule, key) then 1 else 0)) }
{
    if loads.load(rule, key) == u32::MAX {
        return Err(AllocError);
    }
    loads.raise_load(rule, key)
}

/// How many loads there are of a rule under a key. It is rare, so it is a call.
#[inline(never)]
fn load_other(loads: &Counts, rule: usize, key: u32) -> u32
    ensures { result ≡ loads_of loads.now rule key }
{
    loads.load(rule, key)
}

impl Loads {
    /// No loads of so many rules.
    pub fn new(alloc: Global, rules: usize) -> Result<Loads, AllocError>
        ensures { IfOk result (λ loads. (r : ℕ) (k : ℕ) → load_at loads r k ≡ 0) }
    {
        Ok(Loads {
            cells: vec![in alloc; 0; rules.min(ROWS) * KEYS]?,
            others: Counts::new(alloc),
        })
    }

    /// How many loads there are of a rule under a key.
    pub fn load(&self, rule: usize, key: u32) -> u32
        ensures { result ≡ load_at self.now rule key }
    {
        match place_in(self.cells.len(), rule, key) {
            Some(place) => self.cells[place],
            None => load_other(&self.others, rule, key),
        }
    }

    /// Counts a load of a rule under a key. One past the end of its type is want of memory.
    #[inline(always)]
    pub fn raise(&mut self, rule: usize, key: u32) -> Result<(), AllocError>
        ensures { OnOk result ((r : ℕ) (k : ℕ)
            → load_at self.new r k
            ≡ load_at self.old r k + (if is_load r k (rule, key) then 1 else 0)) }
    {
        match place_in(self.cells.len(), rule, key) {
            Some(place) => {
                self.cells[place] = self.cells[place].checked_add(1).ok_or(AllocError)?;
                Ok(())
            }
            None => raise_other(&mut self.others, rule, key),
        }
    }
}
