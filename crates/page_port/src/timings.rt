//! Counts of how often something was done, such as a sync of the journal's file, and of how long it took in all.
use pages::DurationSummary;
use std::sync::atomic::{AtomicU64, Ordering};
use std::time::Duration;

#[derive(Drop)]
pub struct Timings {
    count: AtomicU64,
    nanoseconds: AtomicU64,
}

impl Timings {
    pub fn new() -> Timings {
        Timings {
            count: AtomicU64::new(0),
            nanoseconds: AtomicU64::new(0),
        }
    }

    pub fn add(&self, taken: Duration) {
        let nanoseconds = u64::try_from(taken.as_nanos()).unwrap_or(u64::MAX);
        self.nanoseconds.fetch_add(nanoseconds, Ordering::SeqCst);
        self.count.fetch_add(1, Ordering::SeqCst);
    }

    pub fn times(&self) -> DurationSummary {
        DurationSummary {
            count: self.count.load(Ordering::SeqCst),
            nanoseconds: self.nanoseconds.load(Ordering::SeqCst),
        }
    }
}
