//! The transitions of a model.
ghost use Rattle.std.specs.Prelude.{◌≡◌, option_map};
ghost use Rattle.std.specs.List.{list_any};
ghost use Rattle.serde_json.specs.View.{view};
ghost use Rattle.hx_model.specs.Model.{is_between};
ghost use Rattle.hx_forms.specs.Reading.{Reads};
ghost use Rattle.hx_forms.specs.ModelForm as Spec;

use crate::arrays::{array, read_all};
use crate::faults::{DescKind, DescRefusal, fault};
use crate::forms::{Form, ItemForm};
use crate::states::{is_dropped, is_error, state_of};
use crate::tables::StateTable;
use crate::values::text;
use hx_ids::StateId;
use hx_lists::Seq;
use hx_model::DROPPED;
use hx_text::is_name;
use serde_json::Value;
use std::alloc::Global;

/// The names of a transition's ends, with an arrow between.
fn ends(text: &str) -> Option<(&str, &str)>
    ensures { option_map (λ e. (e.0.now, e.1.now)) result ≡ Spec.ends_of text.now }
{
    match text.split_once('>') {
        Some((from, to)) if is_name(from) && is_name(to) => Some((from, to)),
        _ => None,
    }
}

/// A state that a transition leads from.
fn source(table: &StateTable, name: &str) -> Option<StateId>
    ensures { result ≡ Spec.source_of table.now name.now }
{
    let (state, _) = state_of(table, name)?;
    Some(state)
}

/// A state that a transition leads to.
fn target(table: &StateTable, name: &str) -> Option<StateId>
    ensures { result ≡ Spec.target_of table.now name.now }
{
    if is_dropped(name) {
        return Some(DROPPED);
    }
    source(table, name)
}

/// Whether a transition is listed.
fn lists(transitions: &[(StateId, StateId)], from: StateId, to: StateId) -> bool
    ensures { result ≡ list_any (is_between from to) transitions.now }
{
    transitions.iter().any(|t| t.0 == from && t.1 == to)
}

/// A transition between states of the model, or to DROPPED.
#[derive(Clone, Copy)]
struct TransitionForm<'a> {
    table: &'a StateTable,
}

impl ItemForm for TransitionForm<'_> {
    type Items = Seq<(StateId, StateId)>;

    ghost found = { λ form transitions d. Spec.transition_in form.table.now transitions d };

    fn read_next(
        &self,
        alloc: Global,
        mut transitions: Seq<(StateId, StateId)>,
        value: &Value,
    ) -> Result<Seq<(StateId, StateId)>, DescRefusal> {
        let text = text(alloc, value)?;
        let Some((from, to)) = ends(text) else {
            return Err(fault(alloc, DescKind::BadTransition));
        };
        if is_error(from) || is_error(to) || is_dropped(from) {
            return Err(fault(alloc, DescKind::ReservedState));
        }
        let Some(from) = source(self.table, from) else {
            return Err(fault(alloc, DescKind::UnknownState));
        };
        let Some(to) = target(self.table, to) else {
            return Err(fault(alloc, DescKind::UnknownState));
        };
        if from == to {
            return Err(fault(alloc, DescKind::SelfLoop));
        }
        if lists(transitions.as_slice(), from, to) {
            return Err(fault(alloc, DescKind::TwiceTransition));
        }
        transitions.push((from, to))?;
        Ok(transitions)
    }
}

/// All transitions of a model.
#[derive(Clone, Copy)]
pub(crate) struct TransitionsForm<'a> {
    pub(crate) table: &'a StateTable,
}

impl Form for TransitionsForm<'_> {
    type Output = Seq<(StateId, StateId)>;

    ghost found = { λ form d. Spec.transitions_in form.table.now d };

    fn read(self, alloc: Global, value: &Value) -> Result<Seq<(StateId, StateId)>, DescRefusal> {
        let values = array(alloc, value)?;
        let form = TransitionForm { table: self.table };
        read_all(alloc, &form, Seq::new(alloc), values)
    }
}
