//! The rows of a session, ready to be copied.
ghost use Rattle.std.specs.Prelude.{◌≡◌, ◌+◌, ◌*◌, ◌≤◌, ◌++◌, [], not, length, OnOk, OnErr, IfOk};
ghost use Rattle.std.specs.List.{position_or_len};
ghost use Rattle.std.specs.List.Sorted.{IsPartitionedBy};
ghost use Rattle.hx_cluster.specs.Ends.{part_before};
ghost use Rattle.hx_slots.specs.Index.{one_more, put_in, CanPut};

use hx_cluster::Row;
use hx_ids::PartId;
use hx_lists::Seq;
use std::alloc::{AllocError, Global};
use std::marker::Model;

/// The rows of a session, in order of part, and how many slots it has, with room for a row of each.
#[derive(Drop)]
pub(crate) struct SessionRows {
    slots: usize,
    rows: Vec<Row>,
}

impl Model for SessionRows {
    ghost use Rattle.std.specs.Prelude.{◌≤◌, length, vec_capacity};
    ghost use Rattle.hx_slots.specs.Index.{Ready};

    ghost Value = { Ready };

    ghost view = { λ a. record { slots = a.slots; rows = a.rows.items } };

    ghost invariant = { λ a. (length a.rows.items ≤ a.slots) × (a.slots ≤ vec_capacity a.rows) };
}

impl SessionRows {
    /// One slot, without a row.
    pub(crate) fn new(alloc: Global) -> Result<SessionRows, AllocError>
        ensures { IfOk result (λ kept. kept ≡ record { slots = 1; rows = [] }) }
    {
        let rows = Vec::with_capacity(alloc, 1)?;
        Ok(SessionRows { slots: 1, rows })
    }

    /// One more slot, without a row.
    pub(crate) fn add_slot(&mut self) -> Result<(), AllocError>
        ensures ok { OnOk result (self.new ≡ one_more self.old) }
        ensures err { OnErr result (self.new ≡ self.old) }
    {
        let Some(slots) = self.slots.checked_add(1) else {
            return Err(AllocError);
        };
        self.rows.reserve(slots - self.rows.len())?;
        self.slots = slots;
        Ok(())
    }

    /// Puts a row of a part in its place, or none, where the part had one or none. It takes no
    /// memory.
    pub(crate) fn put(&mut self, part: PartId, had: bool, row: Option<Row>)
        requires { CanPut part had self.old }
        ensures { self.new ≡ put_in part had row self.old }
    {
        let place = place_of(&self.rows, part);
        match row {
            Some(row) if had => self.rows[place] = row,
            Some(row) => self.rows.insert(place, row).unwrap(),
            None if had => {
                self.rows.remove(place);
            }
            None => {}
        }
    }

    /// Adds the rows to some.
    pub(crate) fn push_to(&self, rows: &mut Seq<Row>) -> Result<(), AllocError>
        ensures ok { OnOk result (rows.new ≡ rows.old ++ self.now.rows) }
        ensures err { OnErr result (rows.new ≡ rows.old) }
    {
        rows.extend_from_slice(&self.rows)
    }
}

// A number for a part. Parts stand in order of it.
fn order_of(part: PartId) -> u64
    ensures { result ≡ part.resource.0 * 4294967296 + part.index }
{
    u64::from(part.resource.0) * 4_294_967_296 + u64::from(part.index)
}

// Whether a part comes before another one.
fn is_before(part: PartId, other: PartId) -> bool
    ensures { result ≡ part_before part other }
{
    order_of(part) < order_of(other)
}

// The place of a part's row, or the one where it would stand, found by halving.
fn place_of(rows: &[Row], part: PartId) -> usize
    requires { IsPartitionedBy (λ r. part_before r.part part) rows.now }
    ensures bound { result ≤ length rows.now }
    ensures place { result ≡ position_or_len (λ r. not (part_before r.part part)) rows.now }
{
    rows.partition_point(|row| is_before(row.part, part))
}
