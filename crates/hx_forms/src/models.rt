//! State models.
ghost use Rattle.std.specs.Prelude.{◌≡◌, ◌*◌, ◌+◌, ◌≤◌, length, codes, IfOk};
ghost use Rattle.serde_json.specs.View.{view};
ghost use Rattle.hx_forms.specs.Found.{optional};
ghost use Rattle.hx_forms.specs.Members.{members_of};
ghost use Rattle.hx_forms.specs.Reading.{Reads};
ghost use Rattle.hx_forms.specs.Tables.{AreFew};
ghost use Rattle.hx_forms.specs.ModelForm as Spec;

use crate::arrays::{array_up_to, read_all};
use crate::faults::{DescKind, DescRefusal, fault};
use crate::forms::{Form, ItemForm, NewName};
use crate::objects::Object;
use crate::states::{StatesForm, state_of};
use crate::tables::{ModelTable, StateTable};
use crate::transitions::TransitionsForm;
use crate::values::text;
use hx_ids::{Names, StateId};
use hx_lists::Seq;
use hx_model::{
    Bound, Model, ModelFault, ModelParts, leader_standby, master_slave, online_offline,
};
use serde_json::Value;
use std::alloc::{AllocError, Global};

/// The most models that a description has beside the built-in ones.
const MOST_MODELS: usize = 5;

/// The models that every description has.
pub fn built_in(alloc: Global) -> Result<ModelTable, AllocError>
    ensures { IfOk result (λ table. table ≡ Spec.built_in) }
{
    let mut states = Names::new(alloc);
    states.intern("ERROR")?;
    states.intern("DROPPED")?;
    let mut models = Seq::new(alloc);
    models.push(master_slave(alloc, &mut states)?)?;
    models.push(online_offline(alloc, &mut states)?)?;
    models.push(leader_standby(alloc, &mut states)?)?;
    let mut names = Names::new(alloc);
    names.intern("MasterSlave")?;
    names.intern("OnlineOffline")?;
    names.intern("LeaderStandby")?;
    Ok(ModelTable {
        states,
        names,
        models,
    })
}

/// The initial state, in which any number of replicas may be.
#[derive(Clone, Copy)]
struct InitialForm<'a> {
    table: &'a StateTable,
}

impl Form for InitialForm<'_> {
    type Output = StateId;

    ghost found = { λ form d. Spec.initial_in form.table.now d };

    fn read(self, alloc: Global, value: &Value) -> Result<StateId, DescRefusal> {
        let name = text(alloc, value)?;
        let Some((state, bound)) = state_of(self.table, name) else {
            return Err(fault(alloc, DescKind::UnknownState));
        };
        if bound != Bound::Free {
            return Err(fault(alloc, DescKind::InitialBounded));
        }
        Ok(state)
    }
}

/// What a description calls a fault of a model.
fn kind_of(fault: ModelFault) -> DescKind
    ensures { result ≡ Spec.kind_of fault }
{
    match fault {
        ModelFault::TooManyStates => DescKind::TooMany,
        ModelFault::Reserved { .. } => DescKind::ReservedState,
        ModelFault::TwiceState { .. } => DescKind::Twice,
        ModelFault::ZeroBound { .. } => DescKind::ZeroBound,
        ModelFault::NoInitial => DescKind::UnknownState,
        ModelFault::InitialBounded => DescKind::InitialBounded,
        ModelFault::UnknownState { .. } => DescKind::UnknownState,
        ModelFault::SelfLoop { .. } => DescKind::SelfLoop,
        ModelFault::TwiceTransition { .. } => DescKind::TwiceTransition,
        ModelFault::NoDrop => DescKind::NoDrop,
        ModelFault::CantReach { .. } => DescKind::CantReach,
        ModelFault::CantLeave { .. } => DescKind::CantLeave,
    }
}

/// A model that has no fault.
fn checked(alloc: Global, parts: ModelParts) -> Result<Model, DescRefusal>
    ensures { Reads result (Spec.checked parts) }
{
    match Model::check(parts) {
        Ok(model) => Ok(model),
        Err(found) => Err(fault(alloc, kind_of(found))),
    }
}

/// Where a replica begins, and how it goes on.
fn steps(
    object: &Object,
    table: &StateTable,
) -> Result<(StateId, Seq<(StateId, StateId)>), DescRefusal>
    ensures { Reads result (Spec.steps_in table.now (members_of object.now)) }
{
    let initial = object.required("initial", InitialForm { table })?;
    let transitions = object.required("transitions", TransitionsForm { table })?;
    Ok((initial, transitions))
}

/// The members of a model.
const MODEL_KEYS: [&str; 4] = ["name", "states", "initial", "transitions"];

/// A model.
#[derive(Clone, Copy)]
struct ModelForm;

impl ItemForm for ModelForm {
    type Items = ModelTable;

    ghost found = { λ _ table d. Spec.model_in table d };

    ghost kept = { λ _ more table. (length table.states + 16 * more ≤ 256)
        × (length table.names + more ≤ 256) × (length table.names ≡ length table.models) };

    fn read_next(
        &self,
        alloc: Global,
        table: ModelTable,
        value: &Value,
    ) -> Result<ModelTable, DescRefusal> {
        let ModelTable {
            states,
            mut names,
            mut models,
        } = table;
        let object = Object::read(alloc, &MODEL_KEYS, value)?;
        let name = object.required("name", NewName { names: &names })?;
        let listed = object.required("states", StatesForm { names: states })?;
        let (initial, transitions) = steps(&object, &listed)?;
        let parts = ModelParts {
            states: listed.states,
            initial,
            transitions,
        };
        models.push(checked(alloc, parts)?)?;
        names.intern(name.as_str())?;
        Ok(ModelTable {
            states: listed.names,
            names,
            models,
        })
    }
}

/// The models of a description, behind the built-in ones.
#[derive(Clone, Copy)]
struct ModelsForm;

impl Form for ModelsForm {
    type Output = ModelTable;

    ghost found = { λ _ d. Spec.models_in d };

    ghost known = { λ _ table. AreFew table };

    fn read(self, alloc: Global, value: &Value) -> Result<ModelTable, DescRefusal> {
        let values = array_up_to(alloc, MOST_MODELS, value)?;
        read_all(alloc, &ModelForm, built_in(alloc)?, values)
    }
}

/// The models of a description, with the built-in ones.
pub fn read_models(alloc: Global, object: &Object) -> Result<ModelTable, DescRefusal>
    ensures read { Reads result
        (optional (codes "models") Spec.built_in Spec.models_in (members_of object.now)) }
    ensures few { IfOk result AreFew }
{
    object.optional("models", built_in(alloc)?, ModelsForm)
}
