//! What another rule would have answered at the decisions of a slot.
#![tactic(auto)]

pub mod comparison;
pub mod days;
mod decisions;
pub mod laws;
mod lines;
mod rows;
pub mod summary;
pub mod writing;

pub use comparison::{Comparison, Reading};
pub use days::{DayMisfit, DaysComparison};
pub use decisions::{Asking, Kind};
pub use lines::Format;
pub use rows::{DayRows, Row, RowChange};
pub use summary::RowsOf;
pub use writing::RowsFault;
