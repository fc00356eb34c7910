//! Throttle rules.
ghost use Rattle.std.specs.Prelude.{◌≡◌, ◌≤◌, List, [], ◌∷◌, ◌++◌, length, Option, codes};
ghost use Rattle.serde_json.specs.View.{view};
ghost use Rattle.hx_ids.specs.declared.StateId.{StateId};
ghost use Rattle.hx_cluster.specs.declared.description.Rule.{Rule};
ghost use Rattle.hx_forms.specs.Found.{optional};
ghost use Rattle.hx_forms.specs.Members.{members_of};
ghost use Rattle.hx_forms.specs.Reading.{Reads, at_ok};
ghost use Rattle.hx_desc.specs.RuleForm as Spec;
ghost use Rattle.hx_desc.specs.Steps.{transition_in};

use crate::limits::{LIMIT, MOST_RULES};
use hx_cluster::{Rule, Scope};
use hx_forms::{
    DescKind, DescRefusal, Form, ItemForm, Object, array_up_to, fault, place, read_all, text,
};
use hx_ids::{Names, StateId};
use hx_lists::Seq;
use hx_model::{DROPPED, ERROR};
use serde_json::Value;
use std::alloc::Global;

/// Over what a rule counts.
#[derive(Clone, Copy)]
struct ScopeForm;

impl Form for ScopeForm {
    type Output = Scope;

    ghost found = { λ _ d. Spec.scope_in d };

    fn read(self, alloc: Global, value: &Value) -> Result<Scope, DescRefusal> {
        let text = text(alloc, value)?;
        match text {
            "cluster" => Ok(Scope::Cluster),
            "instance" => Ok(Scope::Instance),
            "resource" => Ok(Scope::Resource),
            _ => Err(fault(alloc, DescKind::BadScope)),
        }
    }
}

/// An end of a transition: any state but one.
#[derive(Clone, Copy)]
struct EndForm<'a> {
    states: &'a Names,
    never: StateId,
    ghost few: { length states.now ≤ 256 },
}

impl Form for EndForm<'_> {
    type Output = Option<StateId>;

    ghost found = { λ form d. Spec.end_in form.states.now form.never d };

    fn read(self, alloc: Global, value: &Value) -> Result<Option<StateId>, DescRefusal> {
        let place = place(alloc, DescKind::UnknownState, self.states, value)?;
        let state = StateId(place as u8);
        if state == self.never {
            return Err(fault(alloc, DescKind::UnknownState));
        }
        Ok(Some(state))
    }
}

/// The transition that a rule counts, or all of them.
fn transition(
    alloc: Global,
    from: Option<StateId>,
    to: Option<StateId>,
) -> Result<Option<(StateId, StateId)>, DescRefusal>
    ensures { Reads result (Spec.transition_of from to) }
{
    match (from, to) {
        (Some(from), Some(to)) => Ok(Some((from, to))),
        (None, None) => Ok(None),
        (None, Some(_)) | (Some(_), None) => Err(fault(alloc, DescKind::HalfTransition)),
    }
}

/// The transition that a rule counts, by its ends, for whatever whole is made of it.
fn read_transition(
    alloc: Global,
    object: &Object,
    states: &Names,
) -> Result<Option<(StateId, StateId)>, DescRefusal>
    requires { length states.now ≤ 256 }
    ensures { (whole : Option (StateId × StateId) → List Rule) →
        Reads (at_ok whole result) (transition_in states.now whole (members_of object.now)) }
{
    let from = EndForm {
        states,
        never: DROPPED,
    };
    let from = object.optional("from", None, from)?;
    let to = EndForm {
        states,
        never: ERROR,
    };
    let to = object.optional("to", None, to)?;
    let transition = transition(alloc, from, to)?;
    Ok(transition)
}

/// The members of a rule.
const RULE_KEYS: [&str; 4] = ["scope", "limit", "from", "to"];

/// One rule, over the names of all states. It goes behind any others.
fn rule(alloc: Global, states: &Names, value: &Value) -> Result<Rule, DescRefusal>
    requires { length states.now ≤ 256 }
    ensures { (before : List Rule) → Reads (at_ok (λ rule. before ++ rule ∷ []) result)
        (Spec.rule_in states.now before (view value.now)) }
{
    let object = Object::read(alloc, &RULE_KEYS, value)?;
    let scope = object.required("scope", ScopeForm)?;
    let limit = object.required("limit", LIMIT)?;
    let transition = read_transition(alloc, &object, states)?;
    Ok(Rule {
        scope,
        transition,
        limit,
    })
}

/// A rule, or all of them, over the names of all states.
#[derive(Clone, Copy)]
struct RuleForm<'a> {
    states: &'a Names,
    ghost few: { length states.now ≤ 256 },
}

impl ItemForm for RuleForm<'_> {
    type Items = Seq<Rule>;

    ghost found = { λ form rules d. Spec.rule_in form.states.now rules d };

    fn read_next(
        &self,
        alloc: Global,
        mut rules: Seq<Rule>,
        value: &Value,
    ) -> Result<Seq<Rule>, DescRefusal> {
        let rule = rule(alloc, self.states, value)?;
        rules.push(rule)?;
        Ok(rules)
    }
}

impl Form for RuleForm<'_> {
    type Output = Seq<Rule>;

    ghost found = { λ form d. Spec.rules_in form.states.now d };

    fn read(self, alloc: Global, value: &Value) -> Result<Seq<Rule>, DescRefusal> {
        let values = array_up_to(alloc, MOST_RULES, value)?;
        read_all(alloc, &self, Seq::new(alloc), values)
    }
}

/// The throttle rules of a description, over the names of all states.
pub(crate) fn rules(
    alloc: Global,
    object: &Object,
    states: &Names,
) -> Result<Seq<Rule>, DescRefusal>
    requires { length states.now ≤ 256 }
    ensures { Reads result
        (optional (codes "throttles") [] (Spec.rules_in states.now) (members_of object.now)) }
{
    object.optional("throttles", Seq::new(alloc), RuleForm { states })
}
