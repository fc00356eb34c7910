//! What is kept while models are read.

use hx_ids::{Names, StateId};
use hx_lists::Seq;
use hx_model::{Bound, Model};

/// The states of a model, and all names of states so far.
#[derive(Drop)]
pub struct StateTable {
    pub names: Names,
    pub states: Seq<(StateId, Bound)>,
}

/// Models, their names, and the names of states that they bring.
#[derive(Drop)]
pub struct ModelTable {
    pub states: Names,
    pub names: Names,
    pub models: Seq<Model>,
}
