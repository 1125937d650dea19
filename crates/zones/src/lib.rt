//! When it is a minute of the day in a time zone.
#![tactic(auto)]

mod ends;
#[cfg(test)]
mod tests;

pub use ends::{next_end, offset_at, time_zone};
