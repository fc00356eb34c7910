//! Why a call is refused.
ghost use Rattle.std.specs.Prelude.{◌≡◌};

use hx_cluster::StepFault;
use hx_ids::{ControllerId, Epoch, PassNo};
use std::alloc::AllocError;

/// The history has no room: it weighs as much as `weight` says.
#[derive(Clone, Copy)]
pub struct HistoryFull {
    pub weight: u64,
}

/// Why a call that nothing else refuses isn't made.
#[derive(Clone, Copy)]
pub enum RoomFault {
    HistoryFull { weight: u64 },
    OutOfMemory,
}

/// Why a step isn't made. The step's own fault is never want of memory.
#[derive(Clone, Copy)]
pub enum BoardFault {
    Step(StepFault),
    HistoryFull { weight: u64 },
    OutOfMemory,
}

/// Why a pass doesn't begin.
#[derive(Clone, Copy)]
pub enum BeginFault {
    NotLeader { led_by: Option<ControllerId> },
    HistoryFull { weight: u64 },
    OutOfMemory,
}

/// Why a read shows nothing.
#[derive(Clone, Copy)]
pub enum ReadRefusal {
    /// The pass is over: the controller is in this one.
    OldPass { now: PassNo },
    HistoryFull { weight: u64 },
    OutOfMemory,
}

/// Why a dispatch is refused whole.
#[derive(Clone, Copy)]
pub enum DispatchRefusal {
    /// Another epoch stands.
    Fenced { now: Epoch },
    OldPass { now: PassNo },
    HistoryFull { weight: u64 },
    OutOfMemory,
}

/// Why a post is refused.
#[derive(Clone, Copy)]
pub enum PostRefusal {
    Fenced { now: Epoch },
    HistoryFull { weight: u64 },
    OutOfMemory,
}

impl From<AllocError> for RoomFault {
    ghost use Rattle.hx_board.specs.declared.faults.RoomFault.TheVariants.{OutOfMemory};

    ghost from_gives = { λ _ e. e ≡ OutOfMemory };

    fn from(_e: AllocError) -> RoomFault {
        RoomFault::OutOfMemory
    }
}

impl From<AllocError> for BoardFault {
    ghost use Rattle.hx_board.specs.declared.faults.BoardFault.TheVariants.{OutOfMemory};

    ghost from_gives = { λ _ e. e ≡ OutOfMemory };

    fn from(_e: AllocError) -> BoardFault {
        BoardFault::OutOfMemory
    }
}

impl From<AllocError> for BeginFault {
    ghost use Rattle.hx_board.specs.declared.faults.BeginFault.TheVariants.{OutOfMemory};

    ghost from_gives = { λ _ e. e ≡ OutOfMemory };

    fn from(_e: AllocError) -> BeginFault {
        BeginFault::OutOfMemory
    }
}

impl From<AllocError> for ReadRefusal {
    ghost use Rattle.hx_board.specs.declared.faults.ReadRefusal.TheVariants.{OutOfMemory};

    ghost from_gives = { λ _ e. e ≡ OutOfMemory };

    fn from(_e: AllocError) -> ReadRefusal {
        ReadRefusal::OutOfMemory
    }
}

impl From<AllocError> for DispatchRefusal {
    ghost use Rattle.hx_board.specs.declared.faults.DispatchRefusal.TheVariants.{OutOfMemory};

    ghost from_gives = { λ _ e. e ≡ OutOfMemory };

    fn from(_e: AllocError) -> DispatchRefusal {
        DispatchRefusal::OutOfMemory
    }
}

impl From<AllocError> for PostRefusal {
    ghost use Rattle.hx_board.specs.declared.faults.PostRefusal.TheVariants.{OutOfMemory};

    ghost from_gives = { λ _ e. e ≡ OutOfMemory };

    fn from(_e: AllocError) -> PostRefusal {
        PostRefusal::OutOfMemory
    }
}
