//! What stands once for each partition.
ghost use Rattle.std.specs.Prelude.{◌≡◌, [], length, map};
ghost use Rattle.serde_json.specs.View.{view};
ghost use Rattle.hx_forms.specs.Found.{read_all as all_in_order};
ghost use Rattle.hx_forms.specs.Reading.{Reads};
ghost use Rattle.hx_desc.specs.ResourceForm as Spec;

use hx_forms::{DescKind, DescRefusal, ItemForm, array, fault, read_all};
use hx_lists::Seq;
use serde_json::Value;
use std::alloc::Global;

/// The items of an array in order, as a list.
pub(crate) fn in_order<T: Drop, F: ItemForm<Items = Seq<T>>>(
    alloc: Global,
    form: &F,
    values: &[Value],
) -> Result<Seq<T>, DescRefusal>
    requires { F.kept form.now (length values.now) [] }
    ensures { Reads result (all_in_order (F.found form.now) [] (map view values.now)) }
{
    read_all(alloc, form, Seq::new(alloc), values)
}

/// A list or a map for each partition.
pub(crate) fn each_part<T: Drop, F: ItemForm<Items = Seq<T>>>(
    alloc: Global,
    parts: u32,
    form: &F,
    value: &Value,
) -> Result<Seq<T>, DescRefusal>
    requires { F.kept form.now parts [] }
    ensures { Reads result (Spec.each_part_in parts (F.found form.now) (view value.now)) }
{
    let values = array(alloc, value)?;
    if values.len() != parts as usize {
        return Err(fault(alloc, DescKind::PartCount));
    }
    in_order(alloc, form, values)
}

/// No lists or maps, where the mode has none.
pub(crate) fn nowhere<T: Drop>(alloc: Global, value: &Value) -> Result<Seq<T>, DescRefusal>
    ensures { Reads result (Spec.nowhere_in (view value.now)) }
{
    array(alloc, value)?;
    Err(fault(alloc, DescKind::WrongMode))
}
