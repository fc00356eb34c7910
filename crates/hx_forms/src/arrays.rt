//! Arrays, whose items are read in order.
ghost use Rattle.std.specs.Prelude.{◌≡◌, ℕ, ◌+◌, ◌≤◌, length, map, IfOk};
ghost use Rattle.serde_json.specs.View.{view};
ghost use Rattle.hx_forms.specs.Found.{array_in, array_up_to, read_all};
ghost use Rattle.hx_forms.specs.Reading.{Reads, at_ok};

use crate::faults::{DescKind, DescRefusal, fault};
use crate::forms::ItemForm;
use serde_json::Value;
use std::alloc::Global;

/// The items of an array.
pub fn array(alloc: Global, value: &Value) -> Result<&[Value], DescRefusal>
    ensures { Reads (at_ok (λ vs. map view vs.now) result) (array_in (view value.now)) }
{
    match value.as_array() {
        Some(items) => Ok(items.as_slice()),
        None => Err(fault(alloc, DescKind::WrongType)),
    }
}

/// The items of an array that has no more than some.
pub fn array_up_to(alloc: Global, most: usize, value: &Value) -> Result<&[Value], DescRefusal>
    ensures read { Reads (at_ok (λ vs. map view vs.now) result)
        (array_up_to most (view value.now)) }
    ensures few { IfOk result (λ vs. length vs.now ≤ most) }
{
    let items = array(alloc, value)?;
    if items.len() > most {
        return Err(fault(alloc, DescKind::TooMany));
    }
    Ok(items)
}

/// The items in order, each read behind those before it.
#[tactic(auto, using(crate::proofs::Refusals::refused_within))]
pub fn read_all<F: ItemForm>(
    alloc: Global,
    form: &F,
    mut items: F::Items,
    values: &[Value],
) -> Result<F::Items, DescRefusal>
    requires { F.kept form.now (length values.now) items }
    ensures read { Reads result (read_all (F.found form.now) items (map view values.now)) }
    ensures kept { IfOk result (F.kept form.now 0) }
{
    for (place, value) in values.iter().enumerate() {
        items = match form.read_next(alloc, items, value) {
            Ok(items) => items,
            Err(refusal) => return Err(refusal.in_item(alloc, place)),
        };
    }
    Ok(items)
}
