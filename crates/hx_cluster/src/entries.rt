//! The entries of a report.
ghost use Rattle.std.specs.Prelude.{◌≡◌, ◌++◌, ◌∷◌, [], List, map, OnOk};
ghost use Rattle.hx_cluster.specs.declared.planning.Target.{Target as Listed};
ghost use Rattle.hx_cluster.specs.Bests.{at_best};

use crate::planning::{Entry, Finding, Target};
use hx_lists::{Seq, Unread};
use std::alloc::{AllocError, Global};
use std::marker::Model;

/// The entries of a report, as contracts see them. Mostly those at the front are at their best:
/// of these nothing is kept, since nothing that runs reads them.
#[derive(Drop)]
pub struct Entries {
    best: Unread<Seq<Target>>,
    rest: Seq<Entry>,
}

impl Model for Entries {
    ghost use Rattle.std.specs.Prelude.{◌++◌, List, map};
    ghost use Rattle.hx_cluster.specs.declared.planning.Entry.{Entry};
    ghost use Rattle.hx_cluster.specs.Bests.{at_best};

    ghost Value = { List Entry };

    ghost view = { λ a. map at_best a.best.value ++ a.rest };
}

/// One target more at the end.
fn longer(best: &Unread<Seq<Target>>, target: &Target) -> Unread<Seq<Target>>
    ensures { result.value ≡ best.now.value ++ target.now ∷ [] }
{
    let both = (best, target);
    Unread::any(&both)
}

impl Entries {
    /// No entries. It takes no memory.
    pub fn new(alloc: Global) -> Entries
        ensures { result ≡ [] }
    {
        Entries::at_best(alloc, &())
    }

    /// Those of targets that are all at their best, which a proof picks. They may be made of what
    /// `of` refers to. It takes no memory.
    pub fn at_best<A>(alloc: Global, of: &A) -> Entries
        ghost targets: { List Listed }
        ensures { result ≡ map at_best targets }
    {
        Entries {
            best: Unread::any(of),
            rest: Seq::new(alloc),
        }
    }

    /// Adds an entry at the end.
    pub fn push(&mut self, target: Target, finding: Finding) -> Result<(), AllocError>
        ensures { OnOk result (self.new
            ≡ self.old ++ record { target = target; finding = finding } ∷ []) }
    {
        match finding {
            Finding::AtBest if self.rest.is_empty() => {
                self.best = longer(&self.best, &target);
                Ok(())
            }
            _ => self.rest.push(Entry { target, finding }),
        }
    }

    /// The entries behind those at the front that are at their best. It takes no memory.
    pub fn rest(&self) -> &[Entry]
        ensures { (targets : List Listed) × (self.now ≡ map at_best targets ++ result.now) }
    {
        self.rest.as_slice()
    }
}
