//! Handlers and factories that fail as a list says.
ghost use Rattle.std.specs.Prelude.{◌≡◌, ℕ, ◌+◌, ◌<◌, []};
ghost use Rattle.indexmap.specs.IndexMap.{spare};
ghost use Rattle.hx_lists.specs.Counts.{count_up};
ghost use Rattle.hx_handler.specs.Makings.{tried_of, tried_up};
ghost use Rattle.hx_handler.specs.Failures.{is_failure, has_failure};

use crate::{Factory, Handler, HandlerFault, MakeFault, Retired};
use hx_cluster::Failure;
use hx_ids::{PartId, StateId};
use hx_model::ERROR;
use indexmap::IndexMap;
use std::marker::Model;

/// A handler whose runs fail as its list says.
pub struct ScriptedHandler {
    part: PartId,
    initial: StateId,
    at: StateId,
    faults: u64,
    runs: u64,
    failures: Vec<Failure>,
}

impl Model for ScriptedHandler {
    ghost use Rattle.hx_handler.specs.Scripted.{HandlerState};

    ghost Value = { HandlerState };

    ghost view = { λ a. record {
      part = a.part;
      initial = a.initial;
      at = a.at;
      faults = a.faults;
      runs = a.runs;
      failures = a.failures.items;
    } };
}

impl Handler for ScriptedHandler {
    ghost use Rattle.std.specs.Prelude.{Some};

    ghost part = { λ h. h.part };

    ghost initial = { λ h. h.initial };

    ghost at = { λ h. h.at };

    ghost faults = { λ h. h.faults };

    ghost runs = { λ h. h.runs };

    ghost listed = { λ h. Some h.failures };

    fn run(&mut self, from: StateId, to: StateId) -> Result<(), HandlerFault> {
        let before = self.runs;
        self.runs = raised(before);
        if before < u64::MAX && fails(&self.failures, self.part, false, before + 1) {
            self.at = ERROR;
            self.faults = raised(self.faults);
            return Err(HandlerFault);
        }
        self.at = to;
        Ok(())
    }

    fn reset(&mut self) {
        self.at = self.initial;
    }

    fn retire(self) -> Retired {
        let ScriptedHandler {
            part,
            initial: _,
            at: _,
            faults: _,
            runs: _,
            failures: _,
        } = self;
        Retired { part }
    }
}

/// A factory whose makings fail as its list says, and the runs of its handlers too. It takes no
/// notice of the list's instances: it is that of one instance.
#[derive(Drop)]
pub struct ScriptedFactory {
    made: u64,
    retired: u64,
    faults: u64,
    failures: Vec<Failure>,
    // How many makings of each part were tried.
    tried: IndexMap<PartId, u64>,
}

impl Model for ScriptedFactory {
    ghost use Rattle.hx_handler.specs.Scripted.{FactoryState};

    ghost Value = { FactoryState };

    ghost view = { λ a. record {
      made = a.made;
      retired = a.retired;
      faults = a.faults;
      failures = a.failures.items;
      tried = a.tried.entries;
    } };
}

impl ScriptedFactory {
    /// A factory that has made nothing.
    pub fn new(failures: Vec<Failure>) -> ScriptedFactory
        ensures { result ≡ record {
          made = 0;
          retired = 0;
          faults = 0;
          failures = failures.items;
          tried = [];
        } }
    {
        let tried = IndexMap::new(*failures.allocator());
        ScriptedFactory {
            made: 0,
            retired: 0,
            faults: 0,
            failures,
            tried,
        }
    }
}

impl Factory for ScriptedFactory {
    type H = ScriptedHandler;

    ghost use Rattle.std.specs.Prelude.{Some};

    ghost made = { λ f. f.made };

    ghost retired = { λ f. f.retired };

    ghost faults = { λ f. f.faults };

    ghost listed = { λ f. Some f.failures };

    ghost tried = { λ f. f.tried };

    fn make(&mut self, part: PartId, initial: StateId) -> Result<ScriptedHandler, MakeFault> {
        let alloc = *self.failures.allocator();
        let Ok(failures) = Vec::from_slice(alloc, self.failures.as_slice()) else {
            return Err(MakeFault::OutOfMemory);
        };
        if self.tried.reserve(1).is_err() {
            return Err(MakeFault::OutOfMemory);
        }
        let before = count_making(&mut self.tried, part);
        let is_told = before < u64::MAX && fails(&self.failures, part, true, before + 1);
        if is_told || self.made == u64::MAX {
            self.faults = raised(self.faults);
            return Err(MakeFault::Faulted);
        }
        self.made += 1;
        Ok(ScriptedHandler {
            part,
            initial,
            at: initial,
            faults: 0,
            runs: 0,
            failures,
        })
    }

    fn take_back(&mut self, _rest: Retired) {
        prove!(self.retired < self.made);
        self.retired += 1;
    }
}

// A count after one more.
fn raised(n: u64) -> u64
    ensures { result ≡ count_up n }
{
    n.saturating_add(1)
}

// Whether a failure is that of a part's making, or run, with a number.
fn is_at(failure: &Failure, part: PartId, make: bool, number: u64) -> bool
    ensures { result ≡ is_failure part make number failure.now }
{
    failure.part == part && failure.make == make && u64::from(failure.number) == number
}

// Whether a list has the failure of a part's making, or run, with a number.
fn fails(failures: &[Failure], part: PartId, make: bool, number: u64) -> bool
    ensures { result ≡ has_failure failures.now part make number }
{
    failures.iter().any(|f| is_at(f, part, make, number))
}

// Counts a making, and answers how many there were before. It takes no memory.
fn count_making(tried: &mut IndexMap<PartId, u64>, part: PartId) -> u64
    requires { 0 < spare tried.old }
    ensures before { result ≡ tried_of tried.old.entries part }
    ensures after { tried.new.entries ≡ tried_up tried.old.entries part }
{
    let Some(before) = tried.get(&part).copied() else {
        tried.insert(part, 1).unwrap();
        return 0;
    };
    tried.insert(part, raised(before)).unwrap();
    before
}
