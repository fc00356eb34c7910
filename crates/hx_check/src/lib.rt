//! The judge of logs: whether a log is that of a lawful history.
#![tactic(auto)]

mod answers;
mod checking;
mod judge;
pub mod laws;
mod marks;
mod replayed;
mod turns;

pub use checking::check;

/// Why a line of a log isn't lawful: the first of these that fits.
#[derive(Clone, Copy)]
pub enum Cause {
    /// It is no line of a log.
    Grammar,
    /// The cluster wouldn't answer so.
    Step,
    /// It isn't the next call of its controller's turn.
    Order,
    /// The proposals aren't those of the plan.
    Plan,
    /// No fetch showed the message.
    Fetch,
}

/// What a log is found to be.
#[derive(Clone, Copy)]
pub enum Verdict {
    Lawful { entries: u64 },
    /// The first line at fault.
    Unlawful { line: u32, cause: Cause },
}
