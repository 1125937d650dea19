//! The watch over the file in which a served site keeps its journal.
use crate::day_end::second;
use crate::journal_file::JournalRecord;
use std::sync::{Condvar, Mutex, Wait};
use std::time::{Clock, Duration};

const INTERVAL_SECONDS: u64 = 1;

/// Compares the file of a journal with what was written to it, once a second while the site is served, so that a file
/// which goes away is noticed even if no event comes; and asks the site to stop once its day is over.
#[derive(Drop)]
pub struct JournalWatch<'a, 'b> {
    record: &'b JournalRecord<'a>,
    /// The moment at which the day ends by itself, if it does.
    ends: Option<u64>,
    is_over: Mutex<bool>,
    ended: Condvar,
}

impl<'a, 'b> JournalWatch<'a, 'b> {
    pub fn new(record: &'b JournalRecord<'a>, ends: Option<u64>) -> JournalWatch<'a, 'b> {
        JournalWatch {
            record,
            ends,
            is_over: Mutex::new(false),
            ended: Condvar::new(),
        }
    }

    fn end_if_due<H: Clock>(&self, host: &H) {
        if let Some(end) = self.ends {
            if second(host) >= end {
                self.record.end_day();
            }
        }
    }

    /// Checks the file at once, and then once a second until `end` is called.
    pub fn run<H: Wait + Clock>(&self, host: &H) {
        let interval = Duration::from_secs(INTERVAL_SECONDS);
        for _ in host.forever() {
            self.record.check();
            self.end_if_due(host);
            let is_over = self.is_over.lock(host);
            let (is_over, _) = self
                .ended
                .wait_timeout_while(host, is_over, interval, |is_over| !*is_over);
            if *is_over {
                return;
            }
        }
    }

    /// Asks `run` to return, even if `run` begins only later.
    pub fn end<H: Wait>(&self, host: &H) {
        *self.is_over.lock(host) = true;
        self.ended.notify_all();
    }
}
