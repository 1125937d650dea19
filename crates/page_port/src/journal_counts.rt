//! Counts of the bytes and the syncs of the file in which a served site's journal is kept.
ghost use Rattle.std.specs.Prelude.{◌≡◌, is_some};

use crate::timings::Timings;
use pages::JournalFileStats;
use std::sync::atomic::{AtomicBool, AtomicU64, Ordering};
use std::time::Duration;

/// Counts the bytes and the syncs of a journal's file, and records whether the journal failed: a write or a sync
/// failed, or others changed the file.
#[derive(Drop)]
pub struct JournalCounts {
    bytes: AtomicU64,
    has_failed: AtomicBool,
    /// `None` if answers don't wait for syncs.
    syncs: Option<Timings>,
}

impl JournalCounts {
    pub fn new(bytes: u64, is_synced: bool) -> JournalCounts
        ensures { is_some result.syncs ≡ is_synced }
    {
        JournalCounts {
            bytes: AtomicU64::new(bytes),
            has_failed: AtomicBool::new(false),
            syncs: if is_synced {
                Some(Timings::new())
            } else {
                None
            },
        }
    }

    pub fn appended(&self, bytes: usize) {
        self.bytes.fetch_add(bytes as u64, Ordering::SeqCst);
    }

    pub fn synced(&self, taken: Duration) {
        if let Some(syncs) = &self.syncs {
            syncs.add(taken);
        }
    }

    /// Records that the journal failed. Returns whether it had failed before.
    pub fn fail(&self) -> bool {
        self.has_failed.swap(true, Ordering::SeqCst)
    }

    pub fn has_failed(&self) -> bool {
        self.has_failed.load(Ordering::SeqCst)
    }

    /// The length of the file in bytes, as far as it is counted.
    pub fn bytes(&self) -> u64 {
        self.bytes.load(Ordering::SeqCst)
    }

    pub(crate) fn file(&self) -> JournalFileStats
        // proved: It counts syncs exactly where answers wait for them
        ensures { is_some result.syncs ≡ is_some self.now.syncs }
    {
        JournalFileStats {
            bytes: self.bytes(),
            syncs: match &self.syncs {
                Some(syncs) => Some(syncs.times()),
                None => None,
            },
        }
    }
}
