//! Looking at a site while it is served.
use site_lock::{Forecourt, Journal, SiteLedger};
use std::sync::Wait;
use std::thread::Threads;
use std::time::Clock;

pub trait Watcher {
    /// Looks at the site until `leave` is called.
    fn watch<L: SiteLedger + Send + Sync, J: Journal + Send, R: Threads + Wait + Clock + Sync>(
        &self,
        rt: &R,
        forecourt: &Forecourt<L, J>,
    );

    /// Asks `watch` to return soon, even if it begins only later. This is called once the last worker has ended.
    fn leave(&self);
}

#[derive(Clone, Copy)]
pub struct NoWatcher;

impl Watcher for NoWatcher {
    fn watch<L: SiteLedger + Send + Sync, J: Journal + Send, R: Threads + Wait + Clock + Sync>(
        &self,
        _rt: &R,
        _forecourt: &Forecourt<L, J>,
    ) {}

    fn leave(&self) {}
}
