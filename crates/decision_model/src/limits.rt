//! The ranges of an instance's numbers. What one kind alone limits stands here too, under its kind.

pub use model_terms::limits::{
    LEAST_POSITION, MOST_CAP, MOST_DEMAND, MOST_DISCOUNT, MOST_NAME, MOST_PERIODS, MOST_POSITION,
    MOST_RATE, MOST_TOTAL,
};
pub use network_model::limits::{
    MOST_HOUSE_CAP, MOST_HOUSE_INDEX, MOST_INITIAL, MOST_LOAD, MOST_LOT, MOST_NETWORK_LEAD,
    MOST_NETWORK_PERIODS, MOST_NODES, MOST_PAUSES, MOST_SOURCES, MOST_TRACE,
};

/// The greatest setup cost over a horizon of uncertain demand.
pub const MOST_SETUP: u64 = 1_000_000_000;

/// The longest lead time, in periods.
pub const MOST_LEAD: u32 = 8;

/// The most positions of the grid of an average or a serial instance.
pub const MOST_POSITIONS: u64 = 2_000;

/// The most cells of a period, an echelon and a position.
pub const MOST_CELLS: u64 = 1_000_000;

/// A width number is at most 2 to this power.
pub const MOST_BITS: u32 = 120;

// ---- lot sizing

/// The most periods of lot sizing.
pub const MOST_LOT_PERIODS: usize = 2_000;

/// The greatest demand of a period of lot sizing.
pub const MOST_LOT_DEMAND: u64 = 1_000_000;

/// The greatest setup cost of lot sizing.
pub const MOST_LOT_SETUP: u64 = 1_000_000_000_000;

// ---- the finite kind

/// The greatest order of a period that may be set.
pub const MOST_ORDER: u64 = 1_000_000;

/// The most positions of the grid of a finite instance.
pub const MOST_FINITE_POSITIONS: u64 = 20_000;

// ---- the average kind on a wide range

/// The most positions of the grid of an average instance whose cost is bounded.
pub const MOST_WIDE_POSITIONS: u64 = 20_000;

/// In how many parts of one bounds of the average cost count.
pub const PARTS: u128 = 1_000_000;

// ---- the serial kind

/// The most echelons of a serial system.
pub const MOST_ECHELONS: usize = 8;
