//! The states of a model.
ghost use Rattle.std.specs.Prelude.{◌≡◌, ◌<◌, ◌≤◌, ◌+◌, ◌^◌, length};
ghost use Rattle.serde_json.specs.View.{view};
ghost use Rattle.hx_ids.specs.Names.{place_after};
ghost use Rattle.hx_text.specs.Spellings.{number_of};
ghost use Rattle.hx_forms.specs.Reading.{Reads};
ghost use Rattle.hx_forms.specs.ModelForm as Spec;

use crate::arrays::{array_up_to, read_all};
use crate::faults::{DescKind, DescRefusal, fault};
use crate::forms::{Form, ItemForm, Name};
use crate::objects::Object;
use crate::tables::StateTable;
use crate::values::text;
use hx_ids::{Names, StateId};
use hx_lists::Seq;
use hx_model::{Bound, MOST_STATES};
use hx_text::{is_name, read_u64};
use serde_json::Value;
use std::alloc::Global;

/// A number of replicas.
fn counted(alloc: Global, text: &str) -> Result<Bound, DescRefusal>
    ensures { Reads result (Spec.counted (number_of text.now)) }
{
    let Some(n) = read_u64(text) else {
        return Err(fault(alloc, DescKind::BadBound));
    };
    if n > u32::MAX as u64 {
        return Err(fault(alloc, DescKind::BadBound));
    }
    Ok(Bound::Count(n as u32))
}

/// How many replicas of a part may be in a state.
fn bound(alloc: Global, text: &str) -> Result<Bound, DescRefusal>
    ensures { Reads result (Spec.bound_of text.now) }
{
    if text == "R" {
        return Ok(Bound::Replicas);
    }
    if text == "N" {
        return Ok(Bound::Live);
    }
    if text == "-1" {
        return Ok(Bound::Free);
    }
    if text == "0" {
        return Err(fault(alloc, DescKind::ZeroBound));
    }
    counted(alloc, text)
}

/// The text of a bound.
#[derive(Clone, Copy)]
struct BoundForm;

impl Form for BoundForm {
    type Output = Bound;

    ghost found = { λ _ d. Spec.bound_in d };

    fn read(self, alloc: Global, value: &Value) -> Result<Bound, DescRefusal> {
        bound(alloc, text(alloc, value)?)
    }
}

/// Whether it is the name of the state of failed replicas, which every model has.
pub(crate) fn is_error(name: &str) -> bool
    ensures { result ≡ Spec.is_error name.now }
{
    name == "ERROR"
}

/// Whether it is the name of the state of replicas that are gone, which every model has.
pub(crate) fn is_dropped(name: &str) -> bool
    ensures { result ≡ Spec.is_dropped name.now }
{
    name == "DROPPED"
}

/// The place of a name, or the one that it gets as the last.
pub fn place_after(names: &Names, name: &str) -> u32
    ensures { result ≡ place_after names.now name.now }
{
    match names.find(name) {
        Some(place) => place,
        None => names.len(),
    }
}

/// A state of the model, with its bound, by its name.
pub(crate) fn state_of(table: &StateTable, name: &str) -> Option<(StateId, Bound)>
    ensures { result ≡ Spec.state_of table.now name.now }
{
    let place = place_after(&table.names, name);
    let mut states = table.states.as_slice().iter().copied();
    states.find(|state| state.0.0 as u32 == place)
}

/// The name of a state that the model doesn't have so far.
#[derive(Clone, Copy)]
struct StateName<'a> {
    table: &'a StateTable,
}

impl Form for StateName<'_> {
    type Output = Name;

    ghost found = { λ form d. Spec.state_name_in form.table.now d };

    fn read(self, alloc: Global, value: &Value) -> Result<Name, DescRefusal> {
        let name = text(alloc, value)?;
        if !is_name(name) {
            return Err(fault(alloc, DescKind::BadName));
        }
        if state_of(self.table, name).is_some() {
            return Err(fault(alloc, DescKind::Twice));
        }
        if is_error(name) || is_dropped(name) {
            return Err(fault(alloc, DescKind::ReservedState));
        }
        Ok(Name::from_str(alloc, name)?)
    }
}

/// A state with its bound. Its number is that of its name.
#[derive(Clone, Copy)]
struct StateForm;

impl ItemForm for StateForm {
    type Items = StateTable;

    ghost found = { λ _ table d. Spec.state_in table d };

    ghost kept = { λ _ more table. length table.names + more ≤ 256 };

    fn read_next(
        &self,
        alloc: Global,
        mut table: StateTable,
        value: &Value,
    ) -> Result<StateTable, DescRefusal> {
        let object = Object::read(alloc, &["name", "bound"], value)?;
        let name = object.required("name", StateName { table: &table })?;
        let bound = object.required("bound", BoundForm)?;
        let place = table.names.intern(name.as_str())?;
        table.states.push((StateId(place as u8), bound))?;
        Ok(table)
    }
}

/// All states of a model, whose names come behind those that there are.
#[derive(Drop)]
pub(crate) struct StatesForm {
    pub(crate) names: Names,
    ghost room: { length names + 16 ≤ 256 },
}

impl Form for StatesForm {
    type Output = StateTable;

    ghost found = { λ form d. Spec.states_in form.names d };

    ghost known = { λ form table. length table.names ≤ length form.names + 16 };

    fn read(self, alloc: Global, value: &Value) -> Result<StateTable, DescRefusal> {
        let values = array_up_to(alloc, MOST_STATES, value)?;
        let table = StateTable {
            names: self.names,
            states: Seq::new(alloc),
        };
        read_all(alloc, &StateForm, table, values)
    }
}
