//! What was found of a view, so that it need not be found again.
ghost use Rattle.std.specs.Prelude.{◌≡◌, true, None, Some, map, IsTrue, IfOk, OnOk, OnErr};
ghost use Rattle.hx_model.specs.Model.{states_of};
ghost use Rattle.hx_cluster.specs.Views.{is_well_formed};
ghost use Rattle.hx_formed.specs.Formed.{setting_of, IsFound};

use crate::is_well_formed;
use hx_cluster::View;
use hx_ids::StateId;
use hx_lists::Seq;
use hx_model::Model;
use std::alloc::{AllocError, Global};
use std::marker;

/// With which states of models, and with how many instances, a view was found well formed; or that
/// nothing was found. Contracts see those, or none. The states are kept when a finding is forgotten, since
/// the next view is mostly of the same ones.
#[derive(Drop)]
pub struct Formed {
    states: Seq<Seq<StateId>>,
    instances: usize,
    holds: bool,
}

impl marker::Model for Formed {
    ghost use Rattle.std.specs.Prelude.{Option, Some, None, if◌then◌else◌};
    ghost use Rattle.hx_formed.specs.Formed.{Setting};

    ghost Value = { Option Setting };

    ghost view = { λ a. if a.holds
        then Some (record { states = a.states; instances = a.instances })
        else None };
}

fn same_states(states: &[StateId], others: &[StateId]) -> bool
    ensures { IsTrue result → states.now ≡ others.now }
{
    if states.len() != others.len() {
        return false;
    }
    for (place, state) in states.iter().enumerate() {
        if *state != others[place] {
            return false;
        }
    }
    true
}

/// Whether models have these states.
fn have_states(models: &[Model], states: &[Seq<StateId>]) -> bool
    ensures { IsTrue result → states.now ≡ map states_of models.now }
{
    if models.len() != states.len() {
        return false;
    }
    for (place, model) in models.iter().enumerate() {
        if !same_states(states[place].as_slice(), model.states()) {
            return false;
        }
    }
    true
}

fn states_of(alloc: Global, models: &[Model]) -> Result<Seq<Seq<StateId>>, AllocError>
    ensures { IfOk result (λ states. states ≡ map states_of models.now) }
{
    let mut states = Seq::new(alloc);
    for model in models {
        states.push(Seq::from_slice(alloc, model.states())?)?;
    }
    Ok(states)
}

impl Formed {
    /// Nothing was found. It takes no memory.
    pub fn new(alloc: Global) -> Formed
        ensures { result ≡ None }
    {
        Formed {
            states: Seq::new(alloc),
            instances: 0,
            holds: false,
        }
    }

    /// Forgets what was found, for another view. It takes no memory.
    pub fn forget(&mut self)
        ensures { self.new ≡ None }
    {
        self.holds = false;
    }

    fn is_for(&self, models: &[Model], instances: usize) -> bool
        ensures { IsTrue result → self.now ≡ Some (setting_of models.now instances) }
    {
        self.holds && self.instances == instances && have_states(models, self.states.as_slice())
    }

    /// Whether the view is well formed, with the models and the number of instances of a
    /// description. Where that was found before, it takes no look at the view.
    pub fn tells(
        &self,
        alloc: Global,
        models: &[Model],
        instances: usize,
        view: &View,
    ) -> Result<bool, AllocError>
        requires { IsFound self.now view.now }
        ensures { IfOk result (λ is. is ≡ is_well_formed models.now instances view.now) }
    {
        if self.is_for(models, instances) {
            return Ok(true);
        }
        is_well_formed(alloc, models, instances, view)
    }

    /// Keeps that a view is well formed.
    #[tactic(auto, using(crate::proofs::Alike::found))]
    pub fn keep(
        &mut self,
        models: &[Model],
        instances: usize,
        view: &View,
    ) -> Result<(), AllocError>
        requires { is_well_formed models.now instances view.now ≡ true }
        ensures kept { OnOk result (self.new ≡ Some (setting_of models.now instances)) }
        ensures found { OnOk result (IsFound self.new view.now) }
        ensures err { OnErr result (self.new ≡ self.old) }
    {
        if !have_states(models, self.states.as_slice()) {
            self.states = states_of(self.states.allocator(), models)?;
        }
        self.instances = instances;
        self.holds = true;
        Ok(())
    }
}
