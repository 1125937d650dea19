//! The sources that lines are read from, and the sinks that answers are written to.
ghost use Rattle.std.specs.Prelude.{◌≡◌, ◌<◌, ◌≤◌, ◌+◌, ◌-◌, ℕ, List, [], Option, length, IfOk, OnOk, OnErr, is_err};
ghost use Rattle.std.specs.Prelude.{vec_capacity};
ghost use Rattle.std.specs.Io.KnownBytes.{Consumes, ReadConsumes, WriteAppends};
ghost use Rattle.till_request.specs.Count.{RoseBy, one_if};
ghost use Rattle.till_request.specs.Line.{IsLine, LacksRoom, ReadsIntoLine};

use std::alloc::AllocError;

/// A read or a write failed. It doesn't say why.
#[derive(Clone, Copy)]
pub struct DeviceFault;

/// A source of bytes that lines are read from: a file, a socket, a list in memory.
pub trait LineIn {
    /// All bytes that later reads return, or `None` if they aren't known.
    ghost remaining: { Self → Option (List ℕ) };

    /// How many reads were made, modulo 2^64.
    ghost reads: { Self → ℕ };

    /// How many reads failed, modulo 2^64.
    ghost failures: { Self → ℕ };

    /// How many bytes the reads asked for, modulo 2^64: each as many as its buffer is long.
    ghost asked: { Self → ℕ };

    /// Reads bytes into the beginning of `buffer` and returns how many: 0 only at the end, or if `buffer` is empty.
    /// After an error no byte was read.
    fn read(&mut self, buffer: &mut [u8]) -> Result<usize, DeviceFault>
        ensures bound { IfOk result (λ n. n ≤ length buffer.new) }
        ensures bytes { ReadConsumes (remaining self.old) (remaining self.new) result buffer.new }
        ensures counted { RoseBy 1 (reads self.old) (reads self.new) }
        ensures failed { RoseBy (one_if (is_err result)) (failures self.old) (failures self.new) }
        ensures asked_for { RoseBy (length buffer.new) (asked self.old) (asked self.new) };

    /// Moves bytes out of the source's own buffer to the end of `line`: at most `left`, only those before the next LF,
    /// and only until `line` has 8,400 bytes. Each counts as a read of one byte, and subtracts 1 from `left`. `line`
    /// must have at most 8,400 bytes and no LF. A source without a buffer moves nothing. After an error nothing was
    /// moved.
    fn read_buffered(&mut self, line: &mut Vec<u8>, left: &mut u32) -> Result<(), AllocError>
        requires { IsLine line.old.items }
        ensures taken { OnOk result
            (ReadsIntoLine (remaining self.old) (remaining self.new) line.old.items line.new.items) }
        ensures unchanged { OnErr result (Consumes (remaining self.old) (remaining self.new) []) }
        ensures left { left.new ≤ left.old }
        ensures unused { OnErr result (left.new ≡ left.old) }
        ensures each { OnOk result (length line.new.items + left.new ≡ length line.old.items + left.old) }
        ensures room { vec_capacity line.old ≤ vec_capacity line.new }
        ensures memory { OnErr result
            (LacksRoom (remaining self.old) line.old.items (vec_capacity line.old) left.old left.new) }
        ensures counted { RoseBy (left.old - left.new) (reads self.old) (reads self.new) }
        ensures asked_for { RoseBy (left.old - left.new) (asked self.old) (asked self.new) }
        ensures failed { RoseBy 0 (failures self.old) (failures self.new) }
    {
        Ok(())
    }
}

/// A sink of bytes that answers are written to: a file, a socket, a list in memory.
pub trait LineOut {
    /// All bytes that were written so far, or `None` if they aren't known.
    ghost written: { Self → Option (List ℕ) };

    /// How many writes failed, modulo 2^64.
    ghost failures: { Self → ℕ };

    /// Writes bytes from the beginning of `piece` and returns how many: at least one if `piece` isn't empty. After an
    /// error no byte was written.
    fn write(&mut self, piece: &[u8]) -> Result<usize, DeviceFault>
        ensures bound { IfOk result (λ n. n ≤ length piece.now) }
        ensures some { IfOk result (λ n. 0 < length piece.now → 0 < n) }
        ensures bytes { WriteAppends (written self.old) (written self.new) result piece.now }
        ensures failed { RoseBy (one_if (is_err result)) (failures self.old) (failures self.new) };
}
