//! Pages of HTML in tables and pictures: what a day's history adds up to, and what a site is like while it is served,
//! also as metrics for Prometheus, and whether all is well.
#![tactic(auto)]

mod bars;
mod builder;
pub mod checking;
mod drawn;
mod escaped;
mod labels;
mod names;
pub mod page;
mod parts;
mod pictures;
mod prices;
pub mod samples;
pub mod sections;
mod station;
mod style;
mod tables;
mod texts;
mod words;

pub use escaped::{Escaped, Printable, PrintableChar};
pub use page::Page;
pub use station::{
    DoorCounts, DurationSummary, Health, JournalFileStats, RoleCounts, StationSnapshot,
};
