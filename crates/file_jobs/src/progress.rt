//! The progress line of a long job, on standard error, if that is a terminal.
ghost use Rattle.std.specs.Prelude.{◌≡◌};

use crate::files::stream;
use memchr::memchr_iter;
use std::cell::Cell;
use std::io::{IsTerminal, Read};
use std::time::Instant;
use till_request::devices::StreamIn;
use till_request::{DeviceFault, LineIn};

/// How many lines are read between two renewals of the progress line.
const STEP: u64 = 8192;

/// The terminal's codes that move to the start of the line and erase it.
const RENEW: &str = "\r\x1b[K";

/// The progress line of a job. It appears after `STEP` lines are read, and is erased when this value is dropped.
pub struct Progress<'a> {
    rt: &'a HostRuntime,
    is_shown: bool,
    size: Option<u64>,
    begun: Option<Instant>,
    bytes: Cell<u64>,
    lines: Cell<u64>,
    /// Whether the line is on the terminal now.
    is_there: Cell<bool>,
}

impl<'a> Progress<'a> {
    pub fn new(rt: &'a HostRuntime, is_wanted: bool, size: Option<u64>) -> Self {
        let is_shown = is_wanted && rt.stderr().is_terminal();
        Progress {
            rt,
            is_shown,
            size,
            begun: if is_shown {
                Instant::now(rt).ok()
            } else {
                None
            },
            bytes: Cell::new(0),
            lines: Cell::new(0),
            is_there: Cell::new(false),
        }
    }

    /// Counts what a read returned. Empty `bytes` are the end of the input.
    pub fn see(&self, bytes: &[u8]) {
        if !self.is_shown {
            return;
        }
        if bytes.is_empty() {
            self.print_end();
        }
        self.bytes
            .set(self.bytes.get().wrapping_add(bytes.len() as u64));
        for _ in memchr_iter(b'\n', bytes) {
            self.count_line();
        }
    }

    fn count_line(&self) {
        let lines = self.lines.get().wrapping_add(1);
        self.lines.set(lines);
        if lines % STEP == 0 {
            self.print_progress(lines);
        }
    }

    fn print_progress(&self, lines: u64) {
        self.is_there.set(true);
        let _ = eprint!(self.rt; "{RENEW}fc: {lines} lines read");
        if let (Some(percent), Some(left)) = (self.percent(), self.seconds_left()) {
            let _ = eprint!(self.rt; ", {percent} %, {left} s left");
        }
    }

    fn print_end(&self) {
        let lines = self.lines.get();
        if lines >= STEP {
            self.is_there.set(true);
            let _ = eprint!(self.rt; "{RENEW}fc: {lines} lines read, the last of them");
        }
    }

    /// Erases the progress line. It can appear again when more of the input is read.
    pub fn clear(&self) {
        if self.is_there.replace(false) {
            let _ = eprint!(self.rt; "{RENEW}");
        }
    }

    fn percent(&self) -> Option<u64> {
        self.bytes.get().saturating_mul(100).checked_div(self.size?)
    }

    /// Returns how long the rest of the input takes at the average speed so far.
    fn seconds_left(&self) -> Option<u64> {
        let elapsed = self.begun?.elapsed(self.rt).ok()?.as_secs();
        let left = self.size?.saturating_sub(self.bytes.get());
        elapsed.saturating_mul(left).checked_div(self.bytes.get())
    }
}

impl Drop for Progress<'_> {
    fn drop(self) {
        self.clear();
        let Progress {
            rt: _,
            is_shown: _,
            size: _,
            begun: _,
            bytes: _,
            lines: _,
            is_there: _,
        } = self;
    }
}

/// A device that shows a progress line as it is read.
#[derive(Drop)]
pub struct Watched<'a, I: LineIn> {
    pub input: I,
    pub progress: Progress<'a>,
}

pub fn watch<'a, R: Read + Drop>(
    rt: &'a HostRuntime,
    source: R,
    size: Option<u64>,
) -> Watched<'a, StreamIn<R>>
    ensures { result.input.reader ≡ source }
{
    Watched {
        input: stream(source),
        progress: Progress::new(rt, true, size),
    }
}

impl<I: LineIn + Drop> LineIn for Watched<'_, I> {
    ghost remaining = { λ s. I.remaining s.input };

    ghost reads = { λ s. I.reads s.input };

    ghost failures = { λ s. I.failures s.input };

    ghost asked = { λ s. I.asked s.input };

    fn read(&mut self, buffer: &mut [u8]) -> Result<usize, DeviceFault> {
        let count = self.input.read(buffer)?;
        self.progress.see(&buffer[..count]);
        Ok(count)
    }
}
