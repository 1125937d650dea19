//! How one day of a station follows another: openings as text, whether one fits a configuration, the close of a day,
//! and the audit of days.
#![tactic(auto)]

pub mod beginning;
pub mod chain;
mod chain_fault;
mod closed;
pub mod closing;
mod day;
mod file;
pub mod fitting;
mod hashed;
mod line;
mod parsing;
mod ranges;
pub mod reading;
mod step;
mod unkept_text;
pub mod writing;

pub use beginning::Unfit;
pub use chain_fault::{Cause, DaysFault, NoNextOpening, Unbegun, Unclosed, Unfollowed};
pub use closed::Closed;
pub use day::{Chained, DayIn, DaysIn, NoDay};
pub use file::{OpeningFile, OpeningFlaw, Uncarried};
pub use fitting::Misfit;
pub use hashed::{HashedOut, HashedText};
