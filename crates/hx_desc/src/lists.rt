//! Preference lists.
ghost use Rattle.std.specs.Prelude.{◌≡◌};
ghost use Rattle.serde_json.specs.View.{view};
ghost use Rattle.hx_forms.specs.Reading.{Reads};
ghost use Rattle.hx_desc.specs.ResourceForm as Spec;

use crate::each_part::in_order;
use hx_forms::{DescKind, DescRefusal, ItemForm, array, fault, place};
use hx_ids::{InstanceId, Names};
use hx_lists::Seq;
use serde_json::Value;
use std::alloc::Global;

/// An instance by its name.
pub(crate) fn instance(
    alloc: Global,
    instances: &Names,
    value: &Value,
) -> Result<InstanceId, DescRefusal>
    ensures { Reads result (Spec.instance_in instances.now (view value.now)) }
{
    let place = place(alloc, DescKind::UnknownInstance, instances, value)?;
    Ok(InstanceId(place))
}

/// Whether a list has an instance.
fn is_listed(list: &[InstanceId], instance: InstanceId) -> bool
    ensures { result ≡ Spec.is_listed list.now instance }
{
    list.contains(&instance)
}

/// An instance of a preference list.
#[derive(Clone, Copy)]
struct PreferenceForm<'a> {
    instances: &'a Names,
}

impl ItemForm for PreferenceForm<'_> {
    type Items = Seq<InstanceId>;

    ghost found = { λ form list d. Spec.preference_in form.instances.now list d };

    fn read_next(
        &self,
        alloc: Global,
        mut list: Seq<InstanceId>,
        value: &Value,
    ) -> Result<Seq<InstanceId>, DescRefusal> {
        let instance = instance(alloc, self.instances, value)?;
        if is_listed(list.as_slice(), instance) {
            return Err(fault(alloc, DescKind::TwiceInList));
        }
        list.push(instance)?;
        Ok(list)
    }
}

/// A preference list.
#[derive(Clone, Copy)]
pub(crate) struct ListForm<'a> {
    pub(crate) instances: &'a Names,
}

impl ItemForm for ListForm<'_> {
    type Items = Seq<Seq<InstanceId>>;

    ghost found = { λ form lists d. Spec.list_in form.instances.now lists d };

    fn read_next(
        &self,
        alloc: Global,
        mut lists: Seq<Seq<InstanceId>>,
        value: &Value,
    ) -> Result<Seq<Seq<InstanceId>>, DescRefusal> {
        let values = array(alloc, value)?;
        let form = PreferenceForm {
            instances: self.instances,
        };
        lists.push(in_order(alloc, &form, values)?)?;
        Ok(lists)
    }
}
