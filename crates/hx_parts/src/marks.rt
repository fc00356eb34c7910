//! Sets of parts: those of which two lists have other items, and lists that get new items of some
//! parts and keep those of the others.
ghost use Rattle.std.specs.Prelude.{◌≡◌, ◌||◌, ◌<◌, ◌≤◌, ℕ, false, true, IsTrue, IfOk, OnOk, [], ◌++◌};
ghost use Rattle.std.specs.Prelude.{slice_index_or};
ghost use Rattle.std.specs.List.{list_any};
ghost use Rattle.hx_ids.specs.declared.PartId.{PartId};
ghost use Rattle.hx_cluster.specs.Ends.{part_eq};
ghost use Rattle.hx_parts.specs.Marks.{AreHints, is_marked, marked_in, are_rising};

use crate::hints::set_hint;
use crate::seeking::next_marked;
use hx_cluster::Resource;
use hx_ids::{PartId, ResourceId};
use hx_lists::Seq;
use std::alloc::{AllocError, Global};
use std::marker::Model;

/// Room for so many parts is taken at first, which mostly is enough.
const SOME_PARTS: usize = 32;

/// A set of parts of resources. Contracts see a cell for each part, which is marked where the part
/// is in the set.
#[derive(Drop)]
pub struct Marks {
    cells: Seq<Seq<bool>>,
    // Whether a part may be in the set, by the last byte of its index.
    hints: [bool; 256],
}

impl Model for Marks {
    ghost use Rattle.std.specs.Prelude.{List, Bool};
    ghost use Rattle.hx_parts.specs.Marks.{AreHints};

    ghost Value = { List (List Bool) };

    ghost view = { λ a. a.cells };

    ghost invariant = { λ a. AreHints a.cells a.hints };
}

/// A number of 32 bits. A larger one is want of memory.
fn number(n: usize) -> Result<u32, AllocError>
    ensures { IfOk result (λ m. m ≡ n) }
{
    u32::try_from(n).map_err(|_| AllocError)
}

/// Adds the marked parts of a resource, in order.
fn push_marked(
    cells: &[bool],
    resource: ResourceId,
    parts: &mut Vec<PartId>,
) -> Result<(), AllocError>
    ensures { OnOk result (parts.new.items ≡ parts.old.items ++ marked_in resource 0 cells.now) }
{
    let mut place = next_marked(cells, 0);
    while place < cells.len() {
        let index = number(place)?;
        parts.push(PartId { resource, index })?;
        place = next_marked(cells, place + 1);
    }
    Ok(())
}

/// Whether there is a marked cell in a place.
fn is_marked_at(cells: &[bool], index: u32) -> bool
    ensures { result ≡ slice_index_or cells.now index false }
{
    match cells.get(index as usize) {
        Some(marked) => *marked,
        None => false,
    }
}

/// Marks the cell of a part, if there is one.
fn set_cell(cells: &mut Seq<Seq<bool>>, part: PartId) -> bool
    ensures set { IsTrue result
        → (p : PartId) → is_marked cells.new p ≡ (part_eq p part || is_marked cells.old p) }
    ensures kept { result ≡ false → cells.new ≡ cells.old }
{
    let Some(row) = cells.get_mut(part.resource.0 as usize) else {
        return false;
    };
    let Some(cell) = row.get_mut(part.index as usize) else {
        return false;
    };
    *cell = true;
    true
}

impl Marks {
    /// No parts, with room for those of some resources.
    pub fn none(alloc: Global, resources: &[Resource]) -> Result<Marks, AllocError>
        ensures { IfOk result (λ marks. (p : PartId) → is_marked marks p ≡ false) }
    {
        let mut cells = Vec::with_capacity(alloc, resources.len())?;
        for resource in resources {
            let row = vec![in alloc; false; resource.ideal.parts() as usize]?;
            cells.push(Seq::from_vec(row))?;
        }
        Ok(Marks {
            cells: Seq::from_vec(cells),
            hints: [false; 256],
        })
    }

    /// The cells of a resource's parts. It takes no memory.
    fn of_resource(&self, resource: ResourceId) -> &[bool]
        ensures { result.now ≡ slice_index_or self.now resource.0 [] }
    {
        match self.cells.get(resource.0 as usize) {
            Some(cells) => cells.as_slice(),
            None => &[],
        }
    }

    /// The hints.
    pub(crate) fn hints(&self) -> &[bool; 256]
        ensures { AreHints self.now result.now }
    {
        &self.hints
    }

    /// Whether a part is in the set. It takes no memory.
    pub fn has(&self, part: PartId) -> bool
        ensures { result ≡ is_marked self.now part }
    {
        is_marked_at(self.of_resource(part.resource), part.index)
    }

    /// Puts a part into the set, if there is room for it. It takes no memory.
    pub fn mark(&mut self, part: PartId) -> bool
        ensures { IsTrue result
            → (p : PartId) → is_marked self.new p ≡ (part_eq p part || is_marked self.old p) }
    {
        set_hint(&mut self.hints, part.index);
        set_cell(&mut self.cells, part)
    }

    /// The first part of a resource from an index on that is in the set, or the number of its parts.
    /// It takes no memory.
    pub fn next(&self, resource: ResourceId, from: u32, count: u32) -> u32
        requires { from ≤ count }
        ensures behind { from ≤ result }
        ensures within { result ≤ count }
        ensures skipped { (k : ℕ) → from ≤ k → k < result
            → is_marked self.now (record { resource = resource; index = k }) ≡ false }
        ensures found { result < count
            → is_marked self.now (record { resource = resource; index = result }) ≡ true }
    {
        let cells = self.of_resource(resource);
        let next = next_marked(cells, from as usize);
        if next < cells.len() && next < count as usize {
            next as u32
        } else {
            count
        }
    }

    /// The parts, in order.
    pub fn parts(&self, alloc: Global) -> Result<Vec<PartId>, AllocError>
        ensures rising { IfOk result (λ parts. are_rising parts.items ≡ true) }
        ensures same { IfOk result (λ parts. (p : PartId)
            → list_any (part_eq p) parts.items ≡ is_marked self.now p) }
    {
        let mut parts = Vec::with_capacity(alloc, SOME_PARTS)?;
        let cells = self.cells.as_slice();
        for place in 0..cells.len() {
            let resource = ResourceId(number(place)?);
            push_marked(cells[place].as_slice(), resource, &mut parts)?;
        }
        Ok(parts)
    }
}
