//! The site: its configuration, its state, its history, and the audit of a history.
#![tactic(auto)]

pub mod auditing;
mod auditor;
mod comparing;
mod config;
mod context;
mod decision;
mod differing;
mod draft;
mod events;
mod flaw;
mod head;
pub mod laws;
mod observer;
pub mod opening;
mod perform;
mod question;
mod replies;
mod same;
mod seeing;
mod sight;
mod site;
pub mod slots;
mod station;
mod version;
mod watched;
mod why;

pub use auditing::AuditFault;
pub use auditor::{audit_journal, replay};
pub use config::Config;
pub use differing::Difference;
pub use draft::{Begin, Commit, Draft, DraftMemory, Ready};
pub use events::{Answered, CallFault, Event, What};
pub use flaw::EntryFlaw;
pub use head::Head;
pub use observer::{Both, Change, Observer, Unwatched};
pub use opening::{Opening, OpeningFault};
pub use sight::SightRoom;
pub use site::Site;
pub use slots::{SlotFault, Slots};
pub use version::Version;
pub use watched::{Replayed, Watched};
pub use why::Why;
