// The limits of the device, as `listing.Limits` has them.

// The fewest ports, and the most.
pub const FEWEST_PORTS: u8 = 2;

pub const MOST_PORTS: u8 = 20;

// The lengths of the shortest pattern and of the longest. An array for a pattern has as many places as the longest.
pub const SHORTEST: usize = FEWEST_PORTS as usize;

pub const LONGEST: usize = MOST_PORTS as usize;

// The most legs of a plan, and the places for them in an array.
pub const MOST_LEGS: u8 = 16;

pub const LEG_PLACES: usize = MOST_LEGS as usize;

// The most errors that a campaign counts.
pub const MOST_ERRORS: u32 = 65535;

// The largest number of 64 bits.
pub const LARGEST: u64 = 18446744073709551615;

// The magnitude of the lowest signed number of 64 bits, 2^63; those ahead are below it.
pub const SIGNED_LIMIT: u64 = 9223372036854775808;
