//! Serves a site over sockets to tills, dispensers and the owner.
#![tactic(auto)]

mod accepting;
mod beginning;
mod crew;
mod doors;
mod draining;
mod group_sync;
mod guard;
mod judging;
mod kept;
mod limiter;
mod listener;
mod notices;
pub mod pace;
mod paced;
mod paused;
mod running;
mod serving;
mod shared_door;
mod shift;
mod silence;
mod starting;
mod stop;
mod stream;
mod tasks;
mod waiting;
mod watcher;
mod workers;

pub use crew::{Crew, OpenDoor};
pub use doors::SocketDoors;
pub use group_sync::{
    AtOnce, Claim, CountedOut, Durable, GroupSync, HeldOut, MemoryDisk, Release, SyncBeforeAnswer,
};
pub use guard::GuardedReader;
pub use limiter::Limiter;
pub use line_session::SessionFault;
pub use listener::Listener;
pub use notices::{Notices, SessionFailure};
pub use paced::PacedIn;
pub use paused::PausedIn;
pub use serving::{ServeFault, Served, Serving, ServingHooks, Unclosed};
pub use shared_door::SharedDoor;
pub use silence::IdleLimitedReader;
pub use site_lock::{CloseRefusal, Forecourt, Journal, LineJournal, Look, NoJournal, SiteLedger};
pub use starting::{RoleThreads, ThreadCounts};
pub use stop::Stop;
pub use stream::Stream;
pub use waiting::{WaitingReader, WaitingWriter};
pub use watcher::{NoWatcher, Watcher};
