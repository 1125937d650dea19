//! Group sync: an answer is sent only once the journal is synced up to and including the line of the answer's entry.
//! One sync serves all answers that wait when it begins.

mod durable;
mod group;
mod held_doors;
mod memory_disk;
mod outputs;
mod progress;
mod release;
mod sync_before_answer;
mod sync_waiters;

pub use durable::Durable;
pub use group::GroupSync;
pub use held_doors::HeldDoors;
pub use memory_disk::MemoryDisk;
pub use outputs::{CountedOut, HeldOut};
pub use progress::Claim;
pub use release::{AtOnce, Release, WriteMonitor};
pub use sync_before_answer::SyncBeforeAnswer;
