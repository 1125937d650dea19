//! The input of a connection whose door has a bound of lines a second.
ghost use Rattle.std.specs.Prelude.{◌≡◌, ◌≤◌, ◌<◌, ◌==◌, IfOk, count_by, is_err, length, take};
ghost use Rattle.std.specs.Io.KnownBytes.{ReadConsumes};
ghost use Rattle.till_request.specs.Count.{RoseBy, one_if};

use crate::notices::Notices;
use crate::shared_door::SharedDoor;
use std::alloc::AllocError;
use std::sync::Wait;
use std::time::Clock;
use till_request::{DeviceFault, LineIn, Role};

/// Gives the LF of a line only once the door allows the line; what isn't read waits in the peer's socket. Each line is
/// reported.
#[derive(Drop)]
pub struct PacedIn<'a, R: Wait + Clock, N: Notices, I: LineIn> {
    pub(crate) input: I,
    rt: &'a R,
    door: &'a SharedDoor,
    notices: &'a N,
    role: Role,
    pass: u32,
}

fn count_lines(bytes: &[u8]) -> usize
    ensures { result ≡ count_by (λ b. b == 10) bytes.now }
{
    bytes.iter().filter(|byte| **byte == b'\n').count()
}

impl<'a, R: Wait + Clock, N: Notices, I: LineIn> PacedIn<'a, R, N, I> {
    pub(crate) fn new(
        rt: &'a R,
        door: &'a SharedDoor,
        notices: &'a N,
        role: Role,
        pass: u32,
        input: I,
    ) -> PacedIn<'a, R, N, I>
        ensures input { result.input ≡ input }
        ensures door { result.door.now ≡ door.now }
        ensures role { result.role ≡ role }
        ensures pass { result.pass ≡ pass }
    {
        PacedIn {
            input,
            rt,
            door,
            notices,
            role,
            pass,
        }
    }

    /// Waits until `count` more lines are allowed to be read, and reports each.
    fn admit_lines(&self, count: usize)
        ensures { 0 < count → N.line_reported self.now.role self.now.pass }
    {
        for _line in 0..count {
            self.door.wait_for_turn(self.rt);
            self.notices.line_read(self.role, self.pass);
        }
    }
}

impl<R: Wait + Clock, N: Notices, I: LineIn + Drop> LineIn for PacedIn<'_, R, N, I> {
    ghost remaining = { λ s. I.remaining s.input };

    ghost reads = { λ s. I.reads s.input };

    ghost failures = { λ s. I.failures s.input };

    ghost asked = { λ s. I.asked s.input };

    fn read(&mut self, buffer: &mut [u8]) -> Result<usize, DeviceFault>
        ensures bound { IfOk result (λ n. n ≤ length buffer.new) }
        ensures bytes { ReadConsumes (I.remaining self.old.input) (I.remaining self.new.input) result buffer.new }
        ensures counted { RoseBy 1 (I.reads self.old.input) (I.reads self.new.input) }
        ensures failed { RoseBy (one_if (is_err result)) (I.failures self.old.input) (I.failures self.new.input) }
        ensures asked_for { RoseBy (length buffer.new) (I.asked self.old.input) (I.asked self.new.input) }
        ensures reported { IfOk result (λ n. 0 < count_by (λ b. b == 10) (take n buffer.new)
            → N.line_reported self.new.role self.new.pass) }
    {
        let count = self.input.read(buffer)?;
        self.admit_lines(count_lines(&buffer[..count]));
        Ok(count)
    }

    fn read_buffered(&mut self, line: &mut Vec<u8>, left: &mut u32) -> Result<(), AllocError> {
        self.input.read_buffered(line, left)
    }
}
