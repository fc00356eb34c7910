//! The limits of a description, and what stands where it says nothing.
use hx_forms::{Number, SmallNumber};
use hx_ideal::{MOST_PARTS, MOST_REPLICAS};

/// The one version that there is.
pub(crate) const VERSION: Number = Number { low: 1, high: 1 };

/// How many controllers there may be.
pub(crate) const CONTROLLERS: SmallNumber = SmallNumber { low: 1, high: 16 };

/// After how many ticks a session may end.
pub(crate) const TIMEOUT: Number = Number {
    low: 1,
    high: u64::MAX,
};

/// How many controllers there are where a description says nothing.
pub(crate) const DEFAULT_CONTROLLERS: u32 = 1;

/// The timeout where a description says nothing.
pub(crate) const DEFAULT_TIMEOUT: u64 = 30;

/// The most instances that a description has.
pub(crate) const MOST_INSTANCES: usize = 64;

/// The most rules that a description has.
pub(crate) const MOST_RULES: usize = 16;

/// How many transitions a rule may allow.
pub(crate) const LIMIT: SmallNumber = SmallNumber {
    low: 1,
    high: 65_535,
};

/// The most resources that a description has.
pub(crate) const MOST_RESOURCES: usize = 256;

/// How many replicas a partition may have.
pub(crate) const REPLICAS: SmallNumber = SmallNumber {
    low: 1,
    high: MOST_REPLICAS,
};

/// How many partitions a resource may have.
pub(crate) const PARTITIONS: SmallNumber = SmallNumber {
    low: 1,
    high: MOST_PARTS,
};

/// The most failures that a description has.
pub(crate) const MOST_FAILURES: usize = 1024;

/// Which run or which making may fail.
pub(crate) const TURNS: SmallNumber = SmallNumber {
    low: 1,
    high: 1_000_000,
};
