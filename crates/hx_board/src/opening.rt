//! How a board opens.
ghost use Rattle.std.specs.Prelude.{◌≡◌, ◌≤◌, true, nat_lt, IfOk, OnOk};
ghost use Rattle.hx_cluster.specs.Valid.{IsValid};
ghost use Rattle.hx_safe.specs.Ordered.{rises};
ghost use Rattle.hx_board.specs.Board.{most, new_board};

use crate::board::Board;
use hx_cluster::Spec;
use hx_history::{Entries, History};
use hx_ids::Names;
use hx_lists::Seq;
use hx_records::Records;
use std::alloc::{AllocError, Global};

fn names_of(alloc: Global, names: &Names) -> Result<Names, AllocError>
    ensures { IfOk result (λ copy. copy ≡ names.now) }
{
    let mut copy = Names::new(alloc);
    let count = names.len();
    for place in 0..count {
        copy.intern(names.name(place))?;
    }
    Ok(copy)
}

/// Copies the names of a description over another's.
fn copy_names(alloc: Global, spec: &Spec, copy: &mut Spec) -> Result<(), AllocError>
    ensures { OnOk result (
        copy.new
        ≡ record copy.old {
          instances = spec.now.instances;
          states = spec.now.states;
          resource_names = spec.now.resource_names;
          model_names = spec.now.model_names;
        }) }
{
    copy.instances = names_of(alloc, &spec.instances)?;
    copy.states = names_of(alloc, &spec.states)?;
    copy.resource_names = names_of(alloc, &spec.resource_names)?;
    copy.model_names = names_of(alloc, &spec.model_names)?;
    Ok(())
}

/// Copies the models, the rules, the resources and the failures of a description over another's.
fn copy_lists(spec: &Spec, copy: &mut Spec) -> Result<(), AllocError>
    ensures { OnOk result (
        copy.new
        ≡ record copy.old {
          models = spec.now.models;
          rules = spec.now.rules;
          resources = spec.now.resources;
          failures = spec.now.failures;
        }) }
{
    copy.models = spec.models.clone()?;
    copy.rules = spec.rules.clone()?;
    copy.resources = spec.resources.clone()?;
    copy.failures = spec.failures.clone()?;
    Ok(())
}

/// The same description again.
fn spec_of(alloc: Global, spec: &Spec) -> Result<Spec, AllocError>
    ensures { IfOk result (λ copy. copy ≡ spec.now) }
{
    let mut copy = Spec {
        instances: Names::new(alloc),
        states: Names::new(alloc),
        resource_names: Names::new(alloc),
        model_names: Names::new(alloc),
        models: Seq::new(alloc),
        controllers: spec.controllers,
        timeout: spec.timeout,
        rules: Seq::new(alloc),
        resources: Seq::new(alloc),
        failures: Seq::new(alloc),
    };
    copy_names(alloc, spec, &mut copy)?;
    copy_lists(spec, &mut copy)?;
    Ok(copy)
}

impl Board {
    /// A board on which nothing happened, for a script whose lines have these numbers.
    pub fn new(alloc: Global, spec: &Spec, lines: Vec<u32>, limit: u64) -> Result<Board, AllocError>
        requires valid { IsValid spec.now }
        requires lines { rises nat_lt lines.items ≡ true }
        requires limit { limit ≤ most }
        ensures { IfOk result (λ board. board ≡ new_board spec.now lines.items limit) }
    {
        let records = Records::at_opening(alloc, spec)?;
        let spec = spec_of(alloc, spec)?;
        Ok(Board {
            spec,
            records,
            history: History {
                entries: Entries::new(alloc),
            },
            lines,
            taken: 0,
            weight: 0,
            charges: 0,
            limit,
            owed: 0,
        })
    }
}
