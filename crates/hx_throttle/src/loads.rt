//! What each rule counts, and the rule that holds a transition back.
ghost use Rattle.std.specs.Prelude.{◌≡◌, ℕ, ◌+◌, [], ◌∷◌, ◌++◌, List, Some, slice_get, option_map, IfOk, OnOk, if◌then◌else◌};
ghost use Rattle.hx_cluster.specs.declared.description.Rule.{Rule};
ghost use Rattle.hx_cluster.specs.declared.state.Message.{Message};
ghost use Rattle.hx_cluster.specs.declared.planning.View.{View};
ghost use Rattle.hx_cluster.specs.declared.planning.Candidate.{Candidate};
ghost use Rattle.hx_cluster.specs.Ends.{load_over};
ghost use Rattle.hx_throttle.specs.Table.{load_at};
ghost use Rattle.hx_throttle.specs.Loads.{AreLoads, counts_under, held_as, keyed_of, transition_of};
ghost use Rattle.hx_throttle.specs.Throttle.{loading, held_by};

use crate::shown::{Keyed, Shown};
use crate::table::Loads;
use hx_cluster::{Candidate, Held, Message, Proposal, Rule};
use std::alloc::{AllocError, Global};

/// A number of 32 bits. A larger one is want of memory.
fn number(n: usize) -> Result<u32, AllocError>
    ensures { IfOk result (λ m. m ≡ n) }
{
    u32::try_from(n).map_err(|_| AllocError)
}

/// Counts a transition under each rule that matches it.
#[inline(always)]
pub fn count(loads: &mut Loads, rules: &[Rule], keyed: Keyed) -> Result<(), AllocError>
    ensures { OnOk result ((n : ℕ) (r : Rule) (key : ℕ)
        → slice_get rules.now n ≡ Some r
        → load_at loads.new n key
        ≡ load_at loads.old n key
        + (if counts_under r key keyed then 1 else 0)) }
{
    for (place, rule) in rules.iter().enumerate() {
        if rule.matches(keyed.from, keyed.to) {
            loads.raise(place, keyed.key(rule.scope))?;
        }
    }
    Ok(())
}

/// The loads of the messages that a view shows.
pub fn shown_loads(
    alloc: Global,
    rules: &[Rule],
    shown: &Shown,
    mail: &[Message],
) -> Result<Loads, AllocError>
    ensures { IfOk result (AreLoads rules.now (load_over shown.now mail.now)) }
{
    let mut loads = Loads::new(alloc, rules.len())?;
    for message in mail {
        count_shown(&mut loads, rules, shown, message)?;
    }
    Ok(loads)
}

/// Counts a message, if its session is shown.
#[inline(always)]
fn count_shown(
    loads: &mut Loads,
    rules: &[Rule],
    shown: &Shown,
    message: &Message,
) -> Result<(), AllocError>
    ensures { OnOk result ((mail : List Message)
        → AreLoads rules.now (load_over shown.now mail) loads.old
        → AreLoads rules.now (load_over shown.now (mail ++ message.now ∷ [])) loads.new) }
{
    let keyed = shown.keyed(&Proposal {
        session: message.session,
        part: message.part,
        from: message.from,
        to: message.to,
    });
    if keyed.instance.is_some() {
        count(loads, rules, keyed)?;
    }
    Ok(())
}

/// A rule that holds a transition back, with its load under the transition's key.
#[derive(Clone, Copy)]
pub struct Holding {
    pub rule: usize,
    pub load: u32,
    pub limit: u32,
}

/// The first rule that holds a candidate's transition back.
#[inline(always)]
pub fn first_holding(loads: &Loads, rules: &[Rule], keyed: Keyed) -> Option<Holding>
    ensures { (view : View) (sent : List Candidate) (candidate : Candidate)
        → keyed ≡ keyed_of view.live (transition_of candidate)
        → AreLoads rules.now (loading view sent) loads.now
        → option_map (held_as candidate) result ≡ held_by rules.now 0 view sent candidate }
{
    for (place, rule) in rules.iter().enumerate() {
        if rule.matches(keyed.from, keyed.to) {
            let load = loads.load(place, keyed.key(rule.scope));
            if rule.limit <= load {
                return Some(Holding {
                    rule: place,
                    load,
                    limit: rule.limit,
                });
            }
        }
    }
    None
}

/// A candidate that a rule holds back. A rule whose place doesn't fit its type is want of memory.
pub fn held_back(candidate: &Candidate, holding: Holding) -> Result<Held, AllocError>
    ensures { IfOk result (λ held. held ≡ held_as candidate.now holding) }
{
    Ok(Held {
        candidate: *candidate,
        rule: number(holding.rule)?,
        load: holding.load,
        limit: holding.limit,
    })
}
