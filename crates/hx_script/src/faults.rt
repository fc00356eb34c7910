//! Why something is no script.
ghost use Rattle.std.specs.Prelude.{◌≡◌};

use std::alloc::{AllocError, AllocFailed};

/// What is wrong with a line, in the order in which it is tested.
#[derive(Clone, Copy, Debug, PartialEq, Eq)]
pub enum ScriptKind {
    NotUtf8,
    LineTooLong,
    /// The first word is none that begins a line.
    UnknownWord,
    WordCount,
    UnknownInstance,
    UnknownController,
    UnknownResource,
    UnknownModel,
    UnknownState,
    BadName,
    BadNumber,
    BadMessage,
    BadMode,
    BadPair,
    /// The third word of `read` names none of the reads.
    BadKind,
}

/// The first fault of a script. Lines are numbered from 1.
#[derive(Clone, Copy, Debug, PartialEq, Eq)]
pub struct ScriptFault {
    pub line: u32,
    pub kind: ScriptKind,
}

/// Why no script is read.
#[derive(Clone, Copy, Debug, PartialEq, Eq)]
pub enum ScriptRefusal {
    Fault(ScriptFault),
    OutOfMemory,
}

impl From<AllocError> for ScriptRefusal {
    ghost use Rattle.hx_script.specs.declared.faults.ScriptRefusal.TheVariants.{OutOfMemory};

    ghost from_gives = { λ _ e. e ≡ OutOfMemory };

    fn from(_e: AllocError) -> ScriptRefusal {
        ScriptRefusal::OutOfMemory
    }
}

impl<T: Drop> From<AllocFailed<T>> for ScriptRefusal {
    ghost use Rattle.hx_script.specs.declared.faults.ScriptRefusal.TheVariants.{OutOfMemory};

    ghost from_gives = { λ _ e. e ≡ OutOfMemory };

    fn from(_e: AllocFailed<T>) -> ScriptRefusal {
        ScriptRefusal::OutOfMemory
    }
}
