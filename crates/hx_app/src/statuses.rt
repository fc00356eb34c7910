//! The statuses of runs, and the limits of what is read.

/// How a run ended.
#[derive(Clone, Copy, Debug, PartialEq, Eq)]
pub struct Status(pub u8);

impl Status {
    /// The work was done.
    pub const DONE: Status = Status(0);

    /// The words of the command line were refused.
    pub const WORDS_REFUSED: Status = Status(2);

    /// The description isn't run.
    pub const DESCRIPTION_REFUSED: Status = Status(3);

    /// The script isn't run.
    pub const SCRIPT_REFUSED: Status = Status(4);

    /// The source failed.
    pub const READ_FAULT: Status = Status(5);

    /// The sink failed.
    pub const WRITE_FAULT: Status = Status(6);

    /// Memory was wanted.
    pub const NO_MEMORY: Status = Status(7);

    /// The history has no room.
    pub const HISTORY_FULL: Status = Status(8);

    /// The log isn't lawful.
    pub const UNLAWFUL: Status = Status(9);

    /// The input is too long.
    pub const TOO_LONG: Status = Status(10);
}

/// The most bytes that are read.
pub const MOST_BYTES: usize = 16_777_216;

/// The most bytes that a line of a script or of a log has.
pub const MOST_LINE: usize = 16_384;
