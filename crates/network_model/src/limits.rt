//! The ranges of a network's numbers.

/// The most periods of a network.
pub const MOST_NETWORK_PERIODS: u32 = 10_000;

/// The most nodes of a network.
pub const MOST_NODES: usize = 64;

/// The greatest stock of a node before the first period.
pub const MOST_INITIAL: u64 = 1_000_000;

/// The greatest lot.
pub const MOST_LOT: u64 = 1_000_000;

/// The greatest number of a rule of the caller's own.
pub const MOST_HOUSE_INDEX: u32 = 63;

/// The greatest cap on the orders of a rule of the caller's own.
pub const MOST_HOUSE_CAP: u64 = 1_000_000;

/// The most sources of a node.
pub const MOST_SOURCES: usize = 8;

/// The most periods that an order or a unit is under way.
pub const MOST_NETWORK_LEAD: u32 = 64;

/// The greatest demand of a period that is listed.
pub const MOST_TRACE: u32 = 10_000;

/// The most pauses of a network.
pub const MOST_PAUSES: usize = 1_000;

/// The most that a node may hold, see and order in all periods.
pub const MOST_LOAD: u64 = 1_000_000_000_000;
