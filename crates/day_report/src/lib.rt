//! What the history of a site shows: its sales, the decisions of its rules, its refusals, its price changes, the loads
//! of programs, and the states of its points.
#![tactic(auto)]

pub mod adding;
pub mod counting;
pub mod laws;
mod loading;
pub mod opening;
mod pushing;
pub mod rulings;
pub mod sales;
pub mod steps;
pub mod sums;

pub use adding::{CarriedIn, DayWatch, Totals, Unpaid};
pub use counting::{Outcome, Verdicts};
pub use decision_journal::{FIRST_REFUSAL, REFUSALS};
pub use loading::Load;
pub use opening::CarriedRule;
pub use rulings::{Decision, PriceChange, RequestKind, Rulings};
pub use sales::{Sale, Sales, SalesPart, Sum, off_by};
pub use steps::{Axis, Bands, Mark, Marks};
pub use sums::{OffSales, Sums};
