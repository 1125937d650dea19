// Limits that this project's profile of BPF sets.

/// The most units of a program. A unit is eight bytes.
pub const UNITS: usize = 512;

pub const PROGRAM_BYTES: usize = 4096;

/// The stack, in bytes, that each run of a program gets.
pub const STACK_BYTES: usize = 512;

/// A mask (a set of counters) has one bit for each of them.
pub const COUNTERS: usize = 32;

/// The most fuelling points of a site.
pub const POINTS: usize = 32;
