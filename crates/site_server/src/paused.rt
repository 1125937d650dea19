//! The input of a connection that a stop may interrupt.
ghost use Rattle.std.specs.Prelude.{◌≡◌, ◌≤◌, ◌-◌, [], None, Ok, IfOk, IsTrue, OnErr, OnOk, ◌+◌, false, true, is_err, is_some, length, vec_capacity};
ghost use Rattle.std.specs.Io.KnownBytes.{Consumes, Keeps, ReadConsumes, prepend_known};
ghost use Rattle.till_request.specs.Count.{RoseBy, one_if};
ghost use Rattle.till_request.specs.Line.{IsLine, LacksRoom, ReadsIntoLine};
ghost use Rattle.site_server.specs.Kept.{begun_line};

use crate::stop::{Stop, is_stopped};
use std::alloc::{AllocError, Global};
use till_request::devices::Ahead;
use till_request::{DeviceFault, LineIn};

/// How many reads were made, how many of them failed, and how many bytes they asked for, each modulo 2^64.
#[derive(Clone, Copy)]
struct ReadCounts {
    reads: u64,
    failures: u64,
    asked: u64,
}

impl ReadCounts {
    fn after(self, reads: u64, asked: u64, has_failed: bool) -> ReadCounts
        ensures reads { RoseBy reads self.reads result.reads }
        ensures failures { RoseBy (one_if has_failed) self.failures result.failures }
        ensures asked { RoseBy asked self.asked result.asked }
    {
        ReadCounts {
            reads: self.reads.wrapping_add(reads),
            failures: self.failures.wrapping_add(u64::from(has_failed)),
            asked: self.asked.wrapping_add(asked),
        }
    }
}

/// Reads ahead from a connection until a stop is asked for. At a line's beginning the input then ends, and within a line
/// a read fails. What was read and not given out in whole lines isn't lost: it's `begun`, and then what `input` has
/// ahead.
#[derive(Drop)]
pub struct PausedIn<'a, I: LineIn> {
    pub(crate) input: Ahead<I>,
    stop: Option<&'a Stop>,
    /// The line so far, if more of it has to be waited for.
    pub(crate) begun: Vec<u8>,
    /// Whether memory ran out for `begun`.
    is_lost: bool,
    pub(crate) is_paused: bool,
    counts: ReadCounts,
}

impl<'a, I: LineIn + Drop> PausedIn<'a, I> {
    pub(crate) fn new(alloc: Global, input: Ahead<I>, stop: Option<&'a Stop>) -> PausedIn<'a, I>
        ensures input { result.input ≡ input }
        ensures begun { result.begun.items ≡ [] }
        ensures stop { result.stop ≡ stop.entry }
        ensures kept { result.is_lost ≡ false }
        ensures paused { result.is_paused ≡ false }
    {
        PausedIn {
            input,
            stop,
            begun: Vec::new(alloc),
            is_lost: false,
            is_paused: false,
            counts: ReadCounts {
                reads: 0,
                failures: 0,
                asked: 0,
            },
        }
    }

    /// Keeps a copy of the line so far, if more of it has to be waited for.
    fn note(&mut self, line: &[u8])
        ensures begun { IsTrue (is_some self.old.stop) → self.new.is_lost ≡ false
            → self.new.begun.items ≡ begun_line self.old.input.block line.now }
        ensures input { self.new.input ≡ self.old.input }
        ensures stop { self.new.stop ≡ self.old.stop }
        ensures paused { self.new.is_paused ≡ self.old.is_paused }
        ensures counts { self.new.counts ≡ self.old.counts }
    {
        self.begun.clear();
        self.is_lost = false;
        if self.stop.is_some() && self.input.ahead().is_empty() {
            self.is_lost = self.begun.extend_from_slice(line).is_err();
        }
    }

    /// What a failed read is: the end of the input if the stop is asked for and no line has begun.
    fn pause(&mut self) -> Result<usize, DeviceFault>
        ensures end { IfOk result
            (λ n. (n ≡ 0) × (self.new.begun.items ≡ []) × (self.new.is_paused ≡ true)) }
        ensures whole { self.new.is_paused ≡ true → self.new.is_lost ≡ false }
        ensures begun { self.new.begun ≡ self.old.begun }
        ensures lost { self.new.is_lost ≡ self.old.is_lost }
        ensures input { self.new.input ≡ self.old.input }
        ensures stop { self.new.stop ≡ self.old.stop }
        ensures counts { self.new.counts ≡ self.old.counts }
    {
        self.is_paused = !self.is_lost && is_stopped(self.stop);
        if self.is_paused && self.begun.is_empty() {
            Ok(0)
        } else {
            Err(DeviceFault)
        }
    }

    fn read_unless_paused(&mut self, buffer: &mut [u8]) -> Result<usize, DeviceFault>
        ensures bound { IfOk result (λ n. n ≤ length buffer.new) }
        ensures same { length buffer.new ≡ length buffer.old }
        ensures given { self.new.is_paused ≡ false → ReadConsumes
            (prepend_known self.old.input.block (I.remaining self.old.input.input))
            (prepend_known self.new.input.block (I.remaining self.new.input.input)) result buffer.new }
        ensures paused { self.new.is_paused ≡ true → Keeps
            (prepend_known self.old.input.block (I.remaining self.old.input.input))
            (prepend_known self.new.input.block (I.remaining self.new.input.input)) }
        ensures begun { self.new.begun ≡ self.old.begun }
        ensures counts { self.new.counts ≡ self.old.counts }
    {
        if self.is_paused {
            return Ok(0);
        }
        match self.input.read(buffer) {
            Ok(count) => Ok(count),
            Err(DeviceFault) => self.pause(),
        }
    }
}

impl<I: LineIn + Drop> LineIn for PausedIn<'_, I> {
    // A stop can come at any time, so what later reads return isn't known.
    ghost remaining = { λ _. None };

    ghost reads = { λ s. s.counts.reads };

    ghost failures = { λ s. s.counts.failures };

    ghost asked = { λ s. s.counts.asked };

    fn read(&mut self, buffer: &mut [u8]) -> Result<usize, DeviceFault>
        ensures bound { IfOk result (λ n. n ≤ length buffer.new) }
        ensures bytes { ReadConsumes None None result buffer.new }
        ensures counted { RoseBy 1 self.old.counts.reads self.new.counts.reads }
        ensures failed { RoseBy (one_if (is_err result)) self.old.counts.failures self.new.counts.failures }
        ensures asked_for { RoseBy (length buffer.new) self.old.counts.asked self.new.counts.asked }
        // proved given, paused: Until a stop all is given on, in order
        ensures given { self.new.is_paused ≡ false → ReadConsumes
            (prepend_known self.old.input.block (I.remaining self.old.input.input))
            (prepend_known self.new.input.block (I.remaining self.new.input.input)) result buffer.new }
        ensures paused { self.new.is_paused ≡ true → Keeps
            (prepend_known self.old.input.block (I.remaining self.old.input.input))
            (prepend_known self.new.input.block (I.remaining self.new.input.input)) }
        ensures begun { self.new.begun ≡ self.old.begun }
    {
        let read = self.read_unless_paused(buffer);
        self.counts = self.counts.after(1, buffer.len() as u64, read.is_err());
        read
    }

    fn read_buffered(&mut self, line: &mut Vec<u8>, left: &mut u32) -> Result<(), AllocError>
        requires { IsLine line.old.items }
        ensures taken { OnOk result (ReadsIntoLine None None line.old.items line.new.items) }
        ensures unchanged { OnErr result (Consumes None None []) }
        ensures left { left.new ≤ left.old }
        ensures unused { OnErr result (left.new ≡ left.old) }
        ensures each { OnOk result (length line.new.items + left.new ≡ length line.old.items + left.old) }
        ensures room { vec_capacity line.old ≤ vec_capacity line.new }
        ensures memory { OnErr result
            (LacksRoom None line.old.items (vec_capacity line.old) left.old left.new) }
        ensures counted { RoseBy (left.old - left.new) self.old.counts.reads self.new.counts.reads }
        ensures asked_for { RoseBy (left.old - left.new) self.old.counts.asked self.new.counts.asked }
        ensures failed { RoseBy 0 self.old.counts.failures self.new.counts.failures }
        // proved moved, begun: The line so far is kept, or ahead
        ensures moved { OnOk result (ReadsIntoLine
            (prepend_known self.old.input.block (I.remaining self.old.input.input))
            (prepend_known self.new.input.block (I.remaining self.new.input.input)) line.old.items line.new.items) }
        ensures begun { OnOk result (IsTrue (is_some self.old.stop) → self.new.is_lost ≡ false
            → self.new.begun.items ≡ begun_line self.new.input.block line.new.items) }
    {
        if line.is_empty() && is_stopped(self.stop) {
            self.note(line);
            self.is_paused = true;
            return Ok(());
        }
        let before = *left;
        self.input.read_buffered(line, left)?;
        let count = u64::from(before - *left);
        self.counts = self.counts.after(count, count, false);
        self.note(line);
        Ok(())
    }
}
