//! The ranges and defaults of the options that are numbers.

/// The numbers that an option takes, and the one that it has where it is left out.
#[derive(Clone, Copy)]
pub(crate) struct Limits {
    pub(crate) least: u64,
    pub(crate) most: u64,
    pub(crate) default: u64,
}

pub(crate) const LANES: Limits = Limits {
    least: 1,
    most: 16,
    default: 4,
};

pub(crate) const ROUNDS: Limits = Limits {
    least: 0,
    most: 1000,
    default: 10,
};

pub(crate) const SEED: Limits = Limits {
    least: 0,
    most: u64::MAX,
    default: 1,
};

pub(crate) const SIZE: Limits = Limits {
    least: 1,
    most: 256,
    default: 64,
};
