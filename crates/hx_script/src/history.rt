//! Histories, printed: as a whole, and entry by entry.
ghost use Rattle.std.specs.Prelude.{◌≡◌, List, [], ◌∷◌, ◌++◌, fold, OnOk, OnErr, IfOk};
ghost use Rattle.hx_cluster.specs.Steps.{opening};
ghost use Rattle.hx_cluster.specs.Events.{replay, IsLegal};
ghost use Rattle.hx_cluster.specs.declared.description.Spec.{Spec};
ghost use Rattle.hx_cluster.specs.declared.state.Cluster.{Cluster};
ghost use Rattle.hx_cluster.specs.declared.happenings.Event.{Event};
ghost use Rattle.hx_text.specs.Texts.{Prints};
ghost use Rattle.hx_print.specs.Texts.{log_text, entry_text};
ghost use Rattle.hx_print.specs.Rolls.{roll_after, rolled_text};
ghost use Rattle.hx_script.specs.History.{HasPrinted};

use hx_cluster::{Event, Spec};
use hx_history::{Entries, History};
use hx_print::Roll;
use hx_text::Page;
use std::alloc::{AllocError, Global};
use std::marker::Model;

/// Prints the log of a history.
pub fn print_history(
    alloc: Global,
    history: &History,
    spec: &Spec,
    out: &mut Page,
) -> Result<(), AllocError>
    requires { IsLegal (opening spec.now) history.now.entries.items }
    ensures { Prints (log_text spec.now (opening spec.now) history.now.entries.items)
        out.old result out.new }
{
    let mut roll = Roll::at_opening(alloc, spec)?;
    print_all(&mut roll, &history.entries, spec, out)
}

/// Prints entries that come next, in order.
fn print_all(
    roll: &mut Roll,
    entries: &Entries,
    spec: &Spec,
    out: &mut Page,
) -> Result<(), AllocError>
    ensures { Prints (rolled_text spec.now roll.old entries.now.items) out.old result out.new }
{
    for told in entries {
        roll.print_next(told.event(), spec, out)?;
    }
    Ok(())
}

/// Goes on to the roll after some entries.
fn follow_all(roll: &mut Roll, entries: &Entries) -> Result<(), AllocError>
    ensures { OnOk result (roll.new ≡ fold roll_after roll.old entries.now.items) }
{
    for told in entries {
        roll.follow(told.event())?;
    }
    Ok(())
}

/// Prints the entries of a history as they come. Contracts see it as the roll that the next one
/// needs, which the entries printed so far tell.
#[derive(Drop)]
pub struct Printer {
    roll: Roll,
}

impl Model for Printer {
    ghost use Rattle.hx_print.specs.declared.roll.Roll.{Roll};

    ghost Value = { Roll };

    ghost view = { λ a. a.roll };
}

impl Printer {
    /// A printer that has printed the entries of a history.
    pub fn new(alloc: Global, spec: &Spec, history: &History) -> Result<Printer, AllocError>
        requires { IsLegal (opening spec.now) history.now.entries.items }
        ensures { IfOk result (λ printer.
            HasPrinted spec.now history.now.entries.items printer) }
    {
        let mut roll = Roll::at_opening(alloc, spec)?;
        follow_all(&mut roll, &history.entries)?;
        Ok(Printer { roll })
    }

    /// Prints the entry that comes next. For want of memory the printer stays.
    pub fn entry(&mut self, entry: &Event, spec: &Spec, out: &mut Page) -> Result<(), AllocError>
        ghost printed: { List Event }
        requires so_far { HasPrinted spec.now printed self.old }
        requires legal { IsLegal (opening spec.now) (printed ++ entry.now ∷ []) }
        ensures text { Prints (entry_text spec.now (replay (opening spec.now) printed) entry.now)
            out.old result out.new }
        // This text is what the log gains.
        ensures gained { log_text spec.now (opening spec.now) (printed ++ entry.now ∷ [])
            ≡ log_text spec.now (opening spec.now) printed
            ++ entry_text spec.now (replay (opening spec.now) printed) entry.now }
        ensures ok { OnOk result (HasPrinted spec.now (printed ++ entry.now ∷ []) self.new) }
        ensures err { OnErr result (self.new ≡ self.old) }
    {
        self.roll.print_next(entry, spec, out)
    }
}

/// A law: a log with one more event is the log before it, and then what the event adds.
pub fn logs_grow_by_entries()
    ensures { (spec : Spec) (c : Cluster) (printed : List Event) (entry : Event) →
        log_text spec c (printed ++ entry ∷ [])
        ≡ log_text spec c printed ++ entry_text spec (replay c printed) entry }
{}
