//! A file in memory, whose syncs can be made to fail.
ghost use Rattle.std.specs.Prelude.{◌≡◌, IsTrue, OnOk, OnErr, is_err};

use super::durable::Durable;
use super::progress::Claim;
use std::sync::atomic::{AtomicU64, Ordering};
use till_request::DeviceFault;

/// A file in memory whose first `good` syncs succeed, and all later ones fail. It stores no bytes, only counts.
#[derive(Drop)]
pub struct MemoryDisk {
    good: u64,
    calls: AtomicU64,
    synced: AtomicU64,
}

impl MemoryDisk {
    /// Makes a file whose first `good` syncs succeed.
    pub fn new(good: u64) -> MemoryDisk
        ensures { result.good ≡ good }
    {
        MemoryDisk {
            good,
            calls: AtomicU64::new(0),
            synced: AtomicU64::new(0),
        }
    }

    /// Returns how often `sync` was called.
    pub fn calls(&self) -> u64 {
        self.calls.load(Ordering::SeqCst)
    }

    /// Returns the `bytes_written` of the last successful sync: how many bytes it had to sync at least. The result is 0
    /// if no sync succeeded.
    pub fn synced(&self) -> u64 {
        self.synced.load(Ordering::SeqCst)
    }
}

impl Durable for MemoryDisk {
    ghost reported = { λ _. Unit {0} };

    ghost has_synced = { λ _. Unit {0} };

    ghost failed = { Unit {0} };

    ghost has_synced_none = { tt };

    ghost has_synced_fewer = { λ _ _ _ _. tt };

    fn report_written(&self, _bytes_written: u64) {}

    fn sync(&self, bytes_written: u64, _claim: Claim) -> Result<(), DeviceFault>
        ensures ok { OnOk result (Unit {0}) }
        ensures err { OnErr result (Unit {0}) }
        ensures none { self.now.good ≡ 0 → IsTrue (is_err result) }
    {
        if self.calls.fetch_add(1, Ordering::SeqCst) >= self.good {
            return Err(DeviceFault);
        }
        self.synced.store(bytes_written, Ordering::SeqCst);
        Ok(())
    }
}
