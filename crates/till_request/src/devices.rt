//! Sources and sinks: lists in memory, which can be made to move few bytes at a time or to fail, the readers and
//! writers of `std`, and a source that reads ahead.
ghost use Rattle.std.specs.Prelude.{◌≡◌, ◌↔◌, ◌<◌, ◌≤◌, ◌-◌, ◌^◌};
ghost use Rattle.std.specs.Prelude.{min, [], Some, IfOk, IsTrue, is_err, drop, take, length, true, false, ℕ};
ghost use Rattle.std.specs.Io.KnownBytes.{ReadConsumes, WriteAppends, prepend_known};
ghost use Rattle.till_request.specs.Count.{RoseBy, one_if};
ghost use Rattle.till_request.specs.Blocks.{HasFirstLfAt};
ghost use Rattle.till_request.specs.Devices.{piece_size, one_less};
ghost use Rattle.till_request.specs.Line.{HasNoLf};

use crate::block::Block;
use crate::device::{DeviceFault, LineIn, LineOut};
use std::alloc::{AllocError, Global};
use std::io::{Read, Write};

/// A source that returns the bytes of a list, from index `at` on. Read n, counted from 0, returns at most `sizes[n]`
/// bytes (0 counts as 1), or `each` if `sizes` has no index n. With `successes_left` of `Some(k)` the next k reads
/// succeed, and every later one fails.
#[derive(Drop)]
pub struct MemoryIn {
    pub bytes: Vec<u8>,
    pub at: usize,
    pub sizes: Vec<usize>,
    pub each: usize,
    pub successes_left: Option<u64>,
    pub reads: u64,
    pub failures: u64,
    pub asked: u64,
    ghost within: { at ≤ length bytes.items },
}

impl MemoryIn {
    /// A source from the list's beginning, with `each` without bound.
    pub fn new(bytes: Vec<u8>, sizes: Vec<usize>, successes_left: Option<u64>) -> Self
        ensures bytes { result.bytes ≡ bytes }
        ensures start { result.at ≡ 0 }
        ensures sizes { result.sizes ≡ sizes }
        ensures each { result.each ≡ 2 ^ 64 - 1 }
        ensures successes_left { result.successes_left ≡ successes_left }
        ensures counts { (result.reads ≡ 0) × (result.failures ≡ 0) × (result.asked ≡ 0) }
    {
        MemoryIn {
            bytes,
            at: 0,
            sizes,
            each: usize::MAX,
            successes_left,
            reads: 0,
            failures: 0,
            asked: 0,
        }
    }
}

/// How many bytes a call can move at most. Calls count from 0.
fn size_at(sizes: &[usize], each: usize, call: u64) -> usize
    ensures { result ≡ piece_size sizes.now each call }
{
    let call = call as usize;
    if call < sizes.len() {
        sizes[call].max(1)
    } else {
        each.max(1)
    }
}

fn after_one(successes_left: Option<u64>) -> Option<u64>
    ensures { result ≡ one_less successes_left }
{
    match successes_left {
        Some(count) => Some(count.saturating_sub(1)),
        None => None,
    }
}

/// Copies bytes from the beginning of `from` to that of `buffer`, at most `most`, and returns how many.
fn copy_into_buffer(from: &[u8], most: usize, buffer: &mut [u8]) -> usize
    requires { 0 < most }
    ensures count { result ≡ min (min (length from.now) (length buffer.new)) most }
    ensures same { length buffer.new ≡ length buffer.old }
    ensures copied { take result buffer.new ≡ take result from.now }
    ensures none { result ≡ 0 → 0 < length buffer.new → from.now ≡ [] }
{
    let count = from.len().min(buffer.len()).min(most);
    buffer[..count].copy_from_slice(&from[..count]);
    count
}

impl LineIn for MemoryIn {
    ghost remaining = { λ s. Some (drop s.at s.bytes.items) };

    ghost reads = { λ s. s.reads };

    ghost failures = { λ s. s.failures };

    ghost asked = { λ s. s.asked };

    fn read(&mut self, buffer: &mut [u8]) -> Result<usize, DeviceFault>
        ensures bound { IfOk result (λ n. n ≤ length buffer.new) }
        ensures bytes { ReadConsumes (Some (drop self.old.at self.old.bytes.items))
            (Some (drop self.new.at self.new.bytes.items)) result buffer.new }
        ensures counted { RoseBy 1 self.old.reads self.new.reads }
        ensures failed { RoseBy (one_if (is_err result)) self.old.failures self.new.failures }
        ensures asked_for { RoseBy (length buffer.new) self.old.asked self.new.asked }
        ensures fails { IsTrue (is_err result) ↔ (self.old.successes_left ≡ Some 0) }
        ensures successes_left { self.new.successes_left ≡ one_less self.old.successes_left }
        ensures given { IfOk result
            (λ n. n ≡ min (min (length self.old.bytes.items - self.old.at) (length buffer.new))
            (piece_size self.old.sizes.items self.old.each self.old.reads)) }
        ensures unchanged { (self.new.bytes ≡ self.old.bytes) × (self.new.sizes ≡ self.old.sizes)
            × (self.new.each ≡ self.old.each) }
    {
        let size = size_at(&self.sizes, self.each, self.reads);
        self.reads = self.reads.wrapping_add(1);
        self.asked = self.asked.wrapping_add(buffer.len() as u64);
        if self.successes_left == Some(0) {
            self.failures = self.failures.wrapping_add(1);
            return Err(DeviceFault);
        }
        self.successes_left = after_one(self.successes_left);
        let count = copy_into_buffer(&self.bytes[self.at..], size, buffer);
        self.at += count;
        Ok(count)
    }
}

/// A source that reads from a reader of `std`. Lines are read byte by byte, so put a buffer behind it, or an `Ahead` in
/// front.
#[derive(Drop)]
pub struct StreamIn<R: Read> {
    pub reader: R,
    pub reads: u64,
    pub failures: u64,
    pub asked: u64,
}

impl<R: Read + Drop> LineIn for StreamIn<R> {
    ghost remaining = { λ s. R.remaining s.reader };

    ghost reads = { λ s. s.reads };

    ghost failures = { λ s. s.failures };

    ghost asked = { λ s. s.asked };

    fn read(&mut self, buffer: &mut [u8]) -> Result<usize, DeviceFault> {
        self.reads = self.reads.wrapping_add(1);
        self.asked = self.asked.wrapping_add(buffer.len() as u64);
        match self.reader.read(buffer) {
            Ok(count) => Ok(count),
            // The reader's own error is dropped: a session ends at any error.
            Err(_) => {
                self.failures = self.failures.wrapping_add(1);
                Err(DeviceFault)
            }
        }
    }
}

/// How many bytes `Ahead` asks its source for at once.
const AHEAD_BYTES: usize = 4096;

/// Reads ahead from `input` in blocks of 4,096 bytes, so that a read of one byte costs few instructions. Its counts are
/// of the reads from it, not of those from `input`.
#[derive(Drop)]
pub struct Ahead<I: LineIn> {
    pub input: I,
    block: Block<AHEAD_BYTES>,
    calls: u64,
    failures: u64,
    asked: u64,
}

impl<I: LineIn + Drop> Ahead<I> {
    /// Nothing is read ahead yet.
    pub fn new(input: I) -> Self
        ensures input { result.input ≡ input }
        ensures empty { result.block ≡ [] }
        // proved: All its counts begin at 0
        ensures counts { (result.calls ≡ 0) × (result.failures ≡ 0) × (result.asked ≡ 0) }
    {
        Ahead {
            input,
            block: Block::new(),
            asked: 0,
            failures: 0,
            calls: 0,
        }
    }

    /// What was read ahead, and not taken out yet.
    pub fn ahead(&self) -> &[u8]
        ensures { result.now ≡ self.now.block }
    {
        self.block.ahead()
    }

    /// Whether a line can be read without a read of `input`.
    pub fn holds_line(&self) -> bool
        // proved: A line that it reports is there
        ensures there { result ≡ true → (count : ℕ) × HasFirstLfAt count self.now.block }
        ensures none { result ≡ false → HasNoLf self.now.block }
    {
        self.block.holds_lf()
    }
}

impl<I: LineIn + Drop> LineIn for Ahead<I> {
    ghost remaining = { λ s. prepend_known s.block (I.remaining s.input) };

    ghost reads = { λ s. s.calls };

    ghost failures = { λ s. s.failures };

    ghost asked = { λ s. s.asked };

    fn read(&mut self, buffer: &mut [u8]) -> Result<usize, DeviceFault> {
        self.calls = self.calls.wrapping_add(1);
        self.asked = self.asked.wrapping_add(buffer.len() as u64);
        let mut left = 1;
        // `fill` takes no memory and one read is left, so only the device can have failed.
        if self.block.fill(&mut self.input, &mut left).is_err() {
            self.failures = self.failures.wrapping_add(1);
            return Err(DeviceFault);
        }
        Ok(self.block.copy_into_buffer(buffer))
    }

    fn read_buffered(&mut self, line: &mut Vec<u8>, left: &mut u32) -> Result<(), AllocError> {
        let count = self.block.take_buffered(line, *left as usize)?;
        *left -= count as u32;
        self.calls = self.calls.wrapping_add(count as u64);
        self.asked = self.asked.wrapping_add(count as u64);
        Ok(())
    }
}

/// A sink that appends to a list. Write n, counted from 0, accepts at most `sizes[n]` bytes (0 counts as 1), or `each`
/// if `sizes` has no index n. With `successes_left` of `Some(k)` every write after the next k fails. A write also fails
/// if memory runs out.
#[derive(Drop)]
pub struct MemoryOut {
    pub bytes: Vec<u8>,
    pub sizes: Vec<usize>,
    pub each: usize,
    pub successes_left: Option<u64>,
    pub writes: u64,
    pub failures: u64,
}

impl MemoryOut {
    /// An empty sink, with `each` without bound.
    pub fn new(alloc: Global, sizes: Vec<usize>, successes_left: Option<u64>) -> Self
        ensures bytes { result.bytes.items ≡ [] }
        ensures sizes { result.sizes ≡ sizes }
        ensures each { result.each ≡ 2 ^ 64 - 1 }
        ensures successes_left { result.successes_left ≡ successes_left }
        ensures counts { (result.writes ≡ 0) × (result.failures ≡ 0) }
    {
        MemoryOut {
            bytes: Vec::new(alloc),
            sizes,
            each: usize::MAX,
            successes_left,
            writes: 0,
            failures: 0,
        }
    }
}

impl LineOut for MemoryOut {
    ghost written = { λ s. Some s.bytes.items };

    ghost failures = { λ s. s.failures };

    fn write(&mut self, piece: &[u8]) -> Result<usize, DeviceFault>
        ensures bound { IfOk result (λ n. n ≤ length piece.now) }
        ensures some { IfOk result (λ n. 0 < length piece.now → 0 < n) }
        ensures bytes { WriteAppends (Some self.old.bytes.items) (Some self.new.bytes.items) result piece.now }
        ensures failed { RoseBy (one_if (is_err result)) self.old.failures self.new.failures }
        ensures fails { self.old.successes_left ≡ Some 0 → IsTrue (is_err result) }
        ensures successes_left { self.new.successes_left ≡ one_less self.old.successes_left }
        ensures counted { RoseBy 1 self.old.writes self.new.writes }
        ensures taken { IfOk result
            (λ n. n ≡ min (length piece.now) (piece_size self.old.sizes.items self.old.each self.old.writes)) }
        ensures unchanged { (self.new.sizes ≡ self.old.sizes) × (self.new.each ≡ self.old.each) }
    {
        let count = piece
            .len()
            .min(size_at(&self.sizes, self.each, self.writes));
        let fails = self.successes_left == Some(0);
        self.writes = self.writes.wrapping_add(1);
        self.successes_left = after_one(self.successes_left);
        if fails || self.bytes.extend_from_slice(&piece[..count]).is_err() {
            self.failures = self.failures.wrapping_add(1);
            return Err(DeviceFault);
        }
        Ok(count)
    }
}

/// A sink that writes to a writer of `std`. A write of which the writer accepts nothing has failed.
#[derive(Drop)]
pub struct StreamOut<W: Write> {
    pub writer: W,
    pub failures: u64,
}

impl<W: Write + Drop> LineOut for StreamOut<W> {
    ghost written = { λ s. W.contents s.writer };

    ghost failures = { λ s. s.failures };

    fn write(&mut self, piece: &[u8]) -> Result<usize, DeviceFault> {
        match self.writer.write(piece) {
            Ok(count) if count > 0 || piece.is_empty() => Ok(count),
            Ok(_) | Err(_) => {
                self.failures = self.failures.wrapping_add(1);
                Err(DeviceFault)
            }
        }
    }
}
