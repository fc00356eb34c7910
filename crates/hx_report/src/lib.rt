//! Why each replica is where it is.
#![tactic(auto)]

mod fates;
mod places;

ghost use Rattle.std.specs.Prelude.{◌≡◌, not, IfOk};
ghost use Rattle.hx_cluster.specs.Steps.{is_error};
ghost use Rattle.hx_report.specs.Findings.{report, is_failed, finding_of};

pub use fates::Fates;
use hx_cluster::{Entries, Finding, Report, Selection, Target, Throttled, View};
use hx_model::ERROR;
use hx_parts::ViewIndex;
use std::alloc::{AllocError, Global};

/// Whether a replica is in ERROR.
fn is_error(target: &Target) -> bool
    ensures { result ≡ is_error target.now.state }
{
    target.state == Some(ERROR)
}

/// What a pass finds of each target, in their order, by what it was shown and what it selected and
/// throttled.
pub fn report(
    alloc: Global,
    targets: &[Target],
    view: &View,
    selection: &Selection,
    throttled: &Throttled,
) -> Result<Report, AllocError>
    ensures { IfOk result (λ all.
        all ≡ report targets.now view.now selection.now throttled.now) }
{
    let index = ViewIndex::new(alloc, view)?;
    let fates = Fates::new(alloc, selection, throttled)?;
    report_on(alloc, targets, &index, &fates)
}

/// The same by the index of a view.
pub fn report_on(
    alloc: Global,
    targets: &[Target],
    index: &ViewIndex,
    fates: &Fates,
) -> Result<Report, AllocError>
    ensures { IfOk result (λ all. all ≡ report targets.now index.now fates.now.0 fates.now.1) }
{
    let mut entries = Entries::new(alloc);
    for target in targets {
        entries.push(*target, finding_of(index, fates, target)?)?;
    }
    Ok(Report { entries })
}

/// The first finding that fits a target.
fn finding_of(index: &ViewIndex, fates: &Fates, target: &Target) -> Result<Finding, AllocError>
    ensures { IfOk result (λ finding.
        finding ≡ finding_of index.now fates.now.0 fates.now.1 target.now) }
{
    if is_failed(index, target) {
        return Ok(Finding::Failed);
    }
    match index.message_of(target.session, target.part) {
        Some(message) => Ok(Finding::Pending(message.id)),
        None => fates.of(target),
    }
}

/// Whether a replica is in ERROR and nobody asked for a reset.
fn is_failed(index: &ViewIndex, target: &Target) -> bool
    ensures { result ≡ is_failed index.now target.now }
{
    is_error(target) && !index.is_asked(target.session, target.part)
}
