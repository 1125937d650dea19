//! The rows of a day for other programs: its sales, its decisions and all its entries, as CSV or as lines of JSON.
#![tactic(auto)]

mod acts;
mod cells;
mod csv_rows;
mod fault;
mod json_rows;
pub mod laws;
mod replies;
mod row_writer;
mod rows;
mod runs;
pub mod writing;

pub use cells::{Format, Rows};
pub use fault::RowsFault;
