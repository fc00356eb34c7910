//! The faults of a step, from those of the board's calls.
ghost use Rattle.std.specs.Prelude.{◌≡◌};

use crate::ControlFault;
use hx_board::{BeginFault, DispatchRefusal, PostRefusal, ReadRefusal};
use std::alloc::AllocError;

impl From<AllocError> for ControlFault {
    ghost use Rattle.hx_control.specs.declared.ControlFault.TheVariants.{OutOfMemory};

    ghost from_gives = { λ _ e. e ≡ OutOfMemory };

    fn from(_e: AllocError) -> ControlFault {
        ControlFault::OutOfMemory
    }
}

impl From<BeginFault> for ControlFault {
    ghost use Rattle.hx_control.specs.Faults.{of_begin};

    ghost from_gives = { λ refusal e. e ≡ of_begin refusal };

    fn from(refusal: BeginFault) -> ControlFault {
        match refusal {
            BeginFault::NotLeader { led_by } => ControlFault::NotLeader { led_by },
            BeginFault::HistoryFull { weight } => ControlFault::HistoryFull { weight },
            BeginFault::OutOfMemory => ControlFault::OutOfMemory,
        }
    }
}

impl From<ReadRefusal> for ControlFault {
    ghost use Rattle.hx_control.specs.Faults.{of_read};

    ghost from_gives = { λ refusal e. e ≡ of_read refusal };

    fn from(refusal: ReadRefusal) -> ControlFault {
        match refusal {
            ReadRefusal::OldPass { now } => ControlFault::OldPass { now },
            ReadRefusal::HistoryFull { weight } => ControlFault::HistoryFull { weight },
            ReadRefusal::OutOfMemory => ControlFault::OutOfMemory,
        }
    }
}

impl From<DispatchRefusal> for ControlFault {
    ghost use Rattle.hx_control.specs.Faults.{of_dispatch};

    ghost from_gives = { λ refusal e. e ≡ of_dispatch refusal };

    fn from(refusal: DispatchRefusal) -> ControlFault {
        match refusal {
            DispatchRefusal::Fenced { now } => ControlFault::Fenced { now },
            DispatchRefusal::OldPass { now } => ControlFault::OldPass { now },
            DispatchRefusal::HistoryFull { weight } => ControlFault::HistoryFull { weight },
            DispatchRefusal::OutOfMemory => ControlFault::OutOfMemory,
        }
    }
}

impl From<PostRefusal> for ControlFault {
    ghost use Rattle.hx_control.specs.Faults.{of_post};

    ghost from_gives = { λ refusal e. e ≡ of_post refusal };

    fn from(refusal: PostRefusal) -> ControlFault {
        match refusal {
            PostRefusal::Fenced { now } => ControlFault::Fenced { now },
            PostRefusal::HistoryFull { weight } => ControlFault::HistoryFull { weight },
            PostRefusal::OutOfMemory => ControlFault::OutOfMemory,
        }
    }
}
