//! A door that several workers share.
ghost use Rattle.std.specs.Prelude.{◌≡◌, ◌-◌, ◌/◌, ◌<◌, ◌^◌, is_some, min};
ghost use Rattle.std.specs.Duration.{as_nanos};

use crate::kept::KeptConnection;
use crate::listener::Listener;
use crate::pace::{Bucket, Turn};
use crate::stop::{Stop, is_stopped};
use std::alloc::{AllocError, Global};
use std::sync::{Arc, Mutex, Wait};
use std::thread;
use std::time::{Clock, Duration};

#[derive(Drop)]
pub struct SharedDoor {
    pub listener: Listener,
    /// How many lines a second of all connections together are read at most; 0 is no bound.
    pub lines_per_second: u32,
    bucket: Mutex<Bucket>,
    pub(crate) stop: Option<Arc<Stop>>,
    /// What a stop left open, at most one connection for each worker.
    kept: Mutex<Vec<KeptConnection>>,
}

/// The longest sleep of a worker that can be asked to stop, in microseconds.
const STEP: u64 = 20_000;

fn microseconds(time: Duration) -> u64
    ensures { result ≡ min (as_nanos time / 1000) (2 ^ 64 - 1) }
{
    u64::try_from(time.as_micros()).unwrap_or(u64::MAX)
}

impl SharedDoor {
    pub fn new(
        alloc: Global,
        listener: Listener,
        lines_per_second: u32,
        stop: Option<Arc<Stop>>,
    ) -> SharedDoor
        ensures listener { result.listener ≡ listener }
        ensures bound { result.lines_per_second ≡ lines_per_second }
        ensures stop { result.stop ≡ stop }
    {
        SharedDoor {
            listener,
            lines_per_second,
            bucket: Mutex::new(Bucket::full(lines_per_second)),
            stop,
            kept: Mutex::new(Vec::new(alloc)),
        }
    }

    pub(crate) fn stop(&self) -> Option<&Stop>
        ensures { is_some result ≡ is_some self.now.stop }
    {
        match &self.stop {
            Some(stop) => Some(stop),
            None => None,
        }
    }

    /// Whether its workers are asked to stop.
    pub(crate) fn is_stopped(&self) -> bool {
        is_stopped(self.stop())
    }

    pub(crate) fn keep<R: Wait>(
        &self,
        rt: &R,
        connection: KeptConnection,
    ) -> Result<(), AllocError> {
        match self.kept.lock(rt).push(connection) {
            Ok(()) => Ok(()),
            Err(_) => Err(AllocError),
        }
    }

    pub(crate) fn take_kept<R: Wait>(&self, rt: &R) -> Option<KeptConnection> {
        self.kept.lock(rt).pop()
    }

    /// Sleeps for so many microseconds. A stop ends it.
    pub(crate) fn sleep<R: Wait + Clock>(&self, rt: &R, time: u64) {
        let mut left = time;
        for _ in rt.forever() {
            if left == 0 || self.is_stopped() {
                return;
            }
            let part = left.min(STEP);
            thread::sleep(rt, Duration::from_micros(part));
            left -= part;
        }
    }

    /// Asks to read a line at `now`, in microseconds on the machine's clock.
    fn take_turn<R: Wait>(&self, rt: &R, now: u64) -> Turn
        requires { 0 < self.now.lines_per_second }
    {
        self.bucket.lock(rt).take_turn(self.lines_per_second, now)
    }

    /// Waits until a line may be read; if the clock can't be read, doesn't wait. A stop ends the wait: the line that a
    /// worker is at is read.
    pub(crate) fn wait_for_turn<R: Wait + Clock>(&self, rt: &R) {
        if self.lines_per_second == 0 {
            return;
        }
        for _ in rt.forever() {
            let Ok(time) = rt.monotonic() else {
                return;
            };
            if self.is_stopped() {
                return;
            }
            match self.take_turn(rt, microseconds(time)) {
                Turn::Now => return,
                Turn::Later(pause) => self.sleep(rt, pause),
            }
        }
    }
}
