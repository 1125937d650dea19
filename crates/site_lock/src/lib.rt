//! A site under one lock. Each caller has a pass, with a receipt of each answer. At the close the receipts are compared
//! with the site's history.
#![tactic(auto)]

mod builder;
pub mod check;
mod close;
mod desk;
mod enter_fault;
mod first_step;
mod forecourt;
mod gate;
mod halted;
mod journal;
mod locked_site;
mod look;
mod pass;
pub mod programs;

pub use builder::ForecourtBuilder;
pub use close::{CloseFault, CloseRefusal, Closed};
pub use desk::PassDesk;
pub use enter_fault::EnterFault;
pub use forecourt::Forecourt;
pub use gate::{Gate, Straight};
pub use halted::Halted;
pub use journal::{Journal, LineJournal, NoJournal};
pub use line_session::desk_session::session;
pub use line_session::serving::worker;
pub use line_session::{Clock, Desk, Doors, Ended, SessionFault};
pub use look::{Excerpt, Look};
pub use pass::{Pass, Receipt, SiteLedger};
