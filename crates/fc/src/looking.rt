//! Shows a site on its page port (where a browser can look at the site), if it has one, while the site is served.
use page_port::{ConnectionCounts, PagePort};
use site_server::{Forecourt, Journal, SiteLedger, Watcher};
use std::sync::Wait;
use std::thread::Threads;
use std::time::Clock;

/// The watcher of a served site: it shows the site on its page port (where a browser can look at the site). Without a
/// page port it does nothing.
#[derive(Drop)]
pub struct PageWatcher<'a>(pub Option<PagePort<'a>>);

impl PageWatcher<'_> {
    /// Returns the counts of the site's workers and of their connections, or `None` if there is no page port.
    pub fn connections(&self) -> Option<&ConnectionCounts> {
        match &self.0 {
            Some(port) => Some(port.connections()),
            None => None,
        }
    }
}

impl Watcher for PageWatcher<'_> {
    fn watch<L: SiteLedger + Send + Sync, J: Journal + Send, R: Threads + Wait + Clock + Sync>(
        &self,
        rt: &R,
        forecourt: &Forecourt<L, J>,
    ) {
        if let Some(port) = &self.0 {
            port.watch(rt, forecourt);
        }
    }

    fn leave(&self) {
        if let Some(port) = &self.0 {
            port.leave();
        }
    }
}
