//! What may be wrong with a description, and where.
ghost use Rattle.std.specs.Prelude.{◌≡◌, [], ◌++◌, codes, decimal, IfOk, OnErr};
ghost use Rattle.hx_forms.specs.declared.faults.DescRefusal.TheVariants.{Fault, OutOfMemory};
ghost use Rattle.hx_forms.specs.Reading.{IsWithin};

use std::alloc::{AllocError, AllocFailed, Global};
use std::marker::Model;

/// What is wrong with a value of a description.
#[derive(Clone, Copy, Debug, PartialEq, Eq)]
pub enum DescKind {
    /// No line parts the description from what follows it.
    NoSeparator,
    /// The bytes are no JSON.
    BadJson,
    /// A required member isn't there.
    Missing,
    /// Not a text, a whole number below 2^64, an array or an object, as stated.
    WrongType,
    /// An object has a member that it can't have.
    UnknownKey,
    TooMany,
    TooFew,
    OutOfRange,
    /// A name that is declared isn't spelt as one.
    BadName,
    /// A name that is declared stands before.
    Twice,
    BadBound,
    ZeroBound,
    /// ERROR or DROPPED where no model may name it.
    ReservedState,
    /// Not two names with one `>` between.
    BadTransition,
    UnknownState,
    UnknownModel,
    UnknownInstance,
    UnknownResource,
    SelfLoop,
    TwiceTransition,
    InitialBounded,
    NoDrop,
    CantReach,
    CantLeave,
    BadScope,
    BadMode,
    /// One end of a transition without the other.
    HalfTransition,
    /// Lists or maps that the mode doesn't have.
    WrongMode,
    /// Another number of lists or maps than of partitions.
    PartCount,
    TwiceInList,
    NoPart,
    /// A failure of both a run and a making, or of neither.
    RunOrMake,
}

/// Where a value stands: `$`, then `.member` for a member and `[n]` for an item, counted from 0.
/// Contracts see it as its bytes.
#[derive(Debug, Drop)]
pub struct Path {
    text: String,
}

impl Model for Path {
    ghost use Rattle.std.specs.Prelude.{List, ℕ};
    ghost use Rattle.std.specs.String.{string_bytes};

    ghost Value = { List ℕ };

    ghost view = { λ a. string_bytes a.text };
}

impl Path {
    /// The path of the value itself.
    fn new(alloc: Global) -> Path
        ensures { result ≡ [] }
    {
        Path {
            text: String::new(alloc),
        }
    }

    /// The path from further out, of which the value is a member.
    fn in_member(&self, alloc: Global, name: &str) -> Result<Path, AllocError>
        ensures { IfOk result (λ path. path ≡ codes "." ++ name.now ++ self.now) }
    {
        let inner = self.as_str();
        Ok(Path {
            text: format!(in alloc; ".{name}{inner}")?,
        })
    }

    /// The path from further out, of which the value is an item.
    fn in_item(&self, alloc: Global, place: usize) -> Result<Path, AllocError>
        ensures { IfOk result (λ path. path ≡ codes "[" ++ decimal place ++ codes "]" ++ self.now) }
    {
        let inner = self.as_str();
        Ok(Path {
            text: format!(in alloc; "[{place}]{inner}")?,
        })
    }

    /// The path from the whole description, which the value is.
    fn in_description(&self, alloc: Global) -> Result<Path, AllocError>
        ensures { IfOk result (λ path. path ≡ codes "$" ++ self.now) }
    {
        let inner = self.as_str();
        Ok(Path {
            text: format!(in alloc; "${inner}")?,
        })
    }

    /// The text.
    pub fn as_str(&self) -> &str
        ensures { result.now ≡ self.now }
    {
        self.text.as_str()
    }
}

/// The first fault of a description.
#[derive(Debug, Drop)]
pub struct DescFault {
    pub kind: DescKind,
    pub path: Path,
}

/// Why a description isn't read.
#[derive(Debug, Drop)]
pub enum DescRefusal {
    Fault(DescFault),
    OutOfMemory,
}

impl From<AllocError> for DescRefusal {
    ghost use Rattle.hx_forms.specs.declared.faults.DescRefusal.TheVariants.{OutOfMemory};

    ghost from_gives = { λ _ e. e ≡ OutOfMemory };

    fn from(_e: AllocError) -> DescRefusal {
        DescRefusal::OutOfMemory
    }
}

impl<T: Drop> From<AllocFailed<T>> for DescRefusal {
    ghost use Rattle.hx_forms.specs.declared.faults.DescRefusal.TheVariants.{OutOfMemory};

    ghost from_gives = { λ _ e. e ≡ OutOfMemory };

    fn from(_e: AllocFailed<T>) -> DescRefusal {
        DescRefusal::OutOfMemory
    }
}

/// A fault of a value itself.
pub fn fault(alloc: Global, kind: DescKind) -> DescRefusal
    ensures { result ≡ Fault (record { kind = kind; path = [] }) }
{
    DescRefusal::Fault(DescFault {
        kind,
        path: Path::new(alloc),
    })
}

/// A fault at a path, or want of memory where there is none.
fn fault_at(kind: DescKind, path: Result<Path, AllocError>) -> DescRefusal
    ensures ok { IfOk path (λ path. result ≡ Fault (record { kind = kind; path = path })) }
    ensures err { OnErr path (result ≡ OutOfMemory) }
{
    match path {
        Ok(path) => DescRefusal::Fault(DescFault { kind, path }),
        Err(_) => DescRefusal::OutOfMemory,
    }
}

impl DescRefusal {
    /// The refusal of the value of which this one's is a member.
    pub fn in_member(self, alloc: Global, name: &str) -> DescRefusal
        ensures { IsWithin (codes "." ++ name.now) self result }
    {
        let DescRefusal::Fault(fault) = self else {
            return DescRefusal::OutOfMemory;
        };
        fault_at(fault.kind, fault.path.in_member(alloc, name))
    }

    /// The refusal of a whole description, which this one's value is.
    pub fn in_description(self, alloc: Global) -> DescRefusal
        ensures { IsWithin (codes "$") self result }
    {
        let DescRefusal::Fault(fault) = self else {
            return DescRefusal::OutOfMemory;
        };
        fault_at(fault.kind, fault.path.in_description(alloc))
    }

    /// The refusal of the array of which this one's value is an item.
    pub fn in_item(self, alloc: Global, place: usize) -> DescRefusal
        ensures { IsWithin (codes "[" ++ decimal place ++ codes "]") self result }
    {
        let DescRefusal::Fault(fault) = self else {
            return DescRefusal::OutOfMemory;
        };
        fault_at(fault.kind, fault.path.in_item(alloc, place))
    }
}
