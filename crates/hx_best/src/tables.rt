//! Tables by instance.
ghost use Rattle.std.specs.Prelude.{◌≡◌, ◌==◌, if◌then◌else◌, Some, None, OnOk};
ghost use Rattle.hx_ids.specs.declared.InstanceId.{InstanceId};
ghost use Rattle.hx_best.specs.Lookups.{cell_of};

use hx_ids::InstanceId;
use std::alloc::AllocError;

/// The cell of an instance. Beyond the table's end there is nothing.
pub fn cell<T: Copy>(table: &[Option<T>], instance: InstanceId) -> Option<T>
    ensures { result ≡ cell_of table.now instance }
{
    match table.get(instance.0 as usize) {
        Some(cell) => *cell,
        None => None,
    }
}

/// Fills the cell of an instance. The table grows up to it.
pub fn fill<T: Copy>(
    table: &mut Vec<Option<T>>,
    instance: InstanceId,
    value: T,
) -> Result<(), AllocError>
    ensures { OnOk result ((i : InstanceId) → cell_of table.new.items i
        ≡ (if i.0 == instance.0 then Some value else cell_of table.old.items i)) }
{
    let place = instance.0 as usize;
    while table.len() <= place {
        table.push(None)?;
    }
    table[place] = Some(value);
    Ok(())
}
