//! When a day that is served ends: at a time of the day, or when it is full.
use crate::day_times::DayTimes;
use site_core::Site;
use std::sync::atomic::{AtomicU64, Ordering};
use std::time::{Clock, SystemTime, UNIX_EPOCH};
use till_request::Act;

/// A day ends by itself with so many entries, of 1,048,576 that it can have.
const FULL_ENTRIES: u64 = 1_040_000;

/// A day ends by itself with so many loads, of 4,096 versions that it can have.
const FULL_LOADS: u64 = 4_000;

/// Returns the seconds since the start of 1970, or 0 if the clock can't tell.
pub fn second<H: Clock>(host: &H) -> u64 {
    match SystemTime::now(host) {
        Ok(time) => match time.duration_since(UNIX_EPOCH) {
            Ok(since) => since.as_secs(),
            Err(_) => 0,
        },
        Err(_) => 0,
    }
}

/// When a day ends that begins with this site at `now`: at its time, the first one since the day's first moment, or at
/// once if it is full. `None` is never by itself.
pub fn end_of(site: &Site, times: &DayTimes, now: u64) -> Option<u64> {
    if is_full(site.history().len() as u64, loads_in(site)) {
        return Some(now);
    }
    let first = site
        .history()
        .iter()
        .map(|entry| entry.moment)
        .find(|moment| *moment > 0);
    times.end_behind(first.unwrap_or(now))
}

fn loads_in(site: &Site) -> u64 {
    site.history()
        .iter()
        .filter(|entry| matches!(entry.act, Act::Load { .. }))
        .count() as u64
}

fn is_full(entries: u64, loads: u64) -> bool {
    entries >= FULL_ENTRIES || loads >= FULL_LOADS
}

/// Whether this is a journal's line of a load.
fn is_load(line: &[u8]) -> bool {
    match line.split(|byte| *byte == b' ').nth(3) {
        Some(verb) => verb == b"load".as_slice() || verb == b"load2".as_slice(),
        None => false,
    }
}

/// Counts the entries and the loads of a day while their lines are written.
#[derive(Drop)]
pub struct DayCounts {
    entries: AtomicU64,
    loads: AtomicU64,
}

impl DayCounts {
    pub fn of(site: &Site) -> DayCounts {
        DayCounts {
            entries: AtomicU64::new(site.history().len() as u64),
            loads: AtomicU64::new(loads_in(site)),
        }
    }

    fn are_full(&self) -> bool {
        is_full(
            self.entries.load(Ordering::SeqCst),
            self.loads.load(Ordering::SeqCst),
        )
    }

    /// Counts what was written of the journal. Returns whether the day became full by it.
    pub fn count(&self, written: &[u8]) -> bool {
        let was_full = self.are_full();
        let entries = written.iter().filter(|byte| **byte == b'\n').count();
        let lines = written.split(|byte| *byte == b'\n');
        let loads = lines.filter(|line| is_load(line)).count();
        self.entries.fetch_add(entries as u64, Ordering::SeqCst);
        self.loads.fetch_add(loads as u64, Ordering::SeqCst);
        !was_full && self.are_full()
    }
}
