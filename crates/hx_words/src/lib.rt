//! The words of the command line: what they ask for, or that they are refused.
#![tactic(auto)]

ghost use Rattle.std.specs.Prelude.{◌≡◌};

mod limits;
mod options;
mod reading;
mod texts;

pub use reading::read_words;
use std::alloc::AllocError;
pub use texts::{usage, version};

/// What the program does.
#[derive(Clone, Copy, Debug, PartialEq, Eq)]
pub enum RunMode {
    /// A script is run in one thread, line by line.
    Sim,
    /// An input is generated and run, and its summary printed.
    Gen,
    /// A log is judged.
    Check,
}

/// A mode with the numbers that the modes need.
#[derive(Clone, Copy, Debug, PartialEq, Eq)]
pub struct Task {
    pub mode: RunMode,
    /// Threads that run transitions.
    pub lanes: u32,
    /// Rounds that each actor runs.
    pub rounds: u32,
    /// What a made input begins with.
    pub seed: u64,
    /// Partitions of a made input.
    pub size: u32,
}

/// What the words of a command line ask for.
#[derive(Clone, Copy, Debug, PartialEq, Eq)]
pub enum Words {
    Run(Task),
    /// How the program is used.
    Help,
    /// The program's name and version.
    Version,
}

/// Why words ask for nothing.
#[derive(Clone, Copy, Debug, PartialEq, Eq)]
pub enum WordsFault {
    Refused,
    OutOfMemory,
}

impl From<AllocError> for WordsFault {
    ghost use Rattle.hx_words.specs.declared.WordsFault.TheVariants.{OutOfMemory};

    ghost from_gives = { λ _ e. e ≡ OutOfMemory };

    fn from(_e: AllocError) -> WordsFault {
        WordsFault::OutOfMemory
    }
}
