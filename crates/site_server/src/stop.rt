//! Asking the workers of a site to stop.
ghost use Rattle.std.specs.Prelude.{IsSome, IsTrue};

use std::sync::atomic::{AtomicBool, Ordering};

/// Asks the workers of a site to stop, each behind the line that it is at. Their connections are kept for the workers
/// that follow.
#[derive(Drop)]
pub struct Stop {
    is_asked: AtomicBool,
}

impl Stop {
    pub fn new() -> Stop {
        Stop {
            is_asked: AtomicBool::new(false),
        }
    }

    /// A worker that waits stops within 20 milliseconds.
    pub fn ask(&self) {
        self.is_asked.store(true, Ordering::SeqCst);
    }

    pub fn is_asked(&self) -> bool {
        self.is_asked.load(Ordering::SeqCst)
    }

    /// Lets workers serve again. Those that were asked must have stopped.
    pub fn withdraw(&self) {
        self.is_asked.store(false, Ordering::SeqCst);
    }
}

/// Whether there is a stop, and it is asked for.
pub(crate) fn is_stopped(stop: Option<&Stop>) -> bool
    ensures { IsTrue result → IsSome stop.entry }
{
    match stop {
        Some(stop) => stop.is_asked(),
        None => false,
    }
}
