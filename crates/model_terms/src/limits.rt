//! The ranges of numbers that instances of several kinds hold.

/// The greatest cost rate per unit.
pub const MOST_RATE: u64 = 1_000_000;

/// The most periods of a horizon of uncertain demand.
pub const MOST_PERIODS: u32 = 104;

/// The greatest numerator and denominator of a discount.
pub const MOST_DISCOUNT: u32 = 1_000;

/// The greatest demand of a law.
pub const MOST_DEMAND: usize = 10_000;

/// The greatest sum of a law's weights.
pub const MOST_TOTAL: u32 = 1_000_000_000;

/// The least position.
pub const LEAST_POSITION: i64 = -1_000_000;

/// The greatest position.
pub const MOST_POSITION: i64 = 1_000_000;

/// The greatest cap.
pub const MOST_CAP: u64 = 1_000_000;

/// The longest name of a node.
pub const MOST_NAME: usize = 32;
