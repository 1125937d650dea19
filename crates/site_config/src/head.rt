//! A configuration that comes before a script in one stream.
ghost use Rattle.std.specs.Prelude.{◌≡◌, ◌≢◌, ◌≤◌, ◌-◌, ℕ, List, IfOk, OnErr, Err, length, option_map};
ghost use Rattle.std.specs.Io.KnownBytes.{Consumes};
ghost use Rattle.till_request.specs.Count.{RoseBy, one_if};
ghost use Rattle.till_request.specs.Line.{TakesSome, is_input_fault};
ghost use Rattle.site_config.specs.Head.{ends_head, head_part, IsHead, TakesByReads, TakesOpen, TakesReads};

use std::alloc::Global;
use till_request::line::next_byte;
use till_request::{InputFault, LineIn};

/// The most bytes of a configuration.
pub const MOST_BYTES: usize = 65_536;

/// Whether the bytes end with a line `---`.
fn is_head_end(bytes: &[u8]) -> bool
    ensures { result ≡ ends_head bytes.now }
{
    let from = bytes.len().saturating_sub(5);
    bytes == b"---\n".as_slice() || &bytes[from..] == b"\n---\n".as_slice()
}

/// Reads up to the end of the first line `---` and its LF, or to the end of the input; at most 65,541 bytes, which are
/// too many for a configuration and its line `---`.
///
/// Each read is of one byte and subtracts 1 from `left`, the reads that are still allowed; so does the one that finds
/// the end.
pub fn read_head<I: LineIn>(
    alloc: Global,
    input: &mut I,
    left: &mut u32,
) -> Result<Vec<u8>, InputFault>
    // proved taken, open, memory: A head ends at a line `---`, at the end, or by its length
    ensures taken { IfOk result (λ bytes. IsHead (I.remaining input.old) (I.remaining input.new) bytes.items) }
    ensures given { OnErr result (TakesSome (I.remaining input.old) (I.remaining input.new)) }
    ensures open { result ≢ Err InputFault.OutOfMemory
        → OnErr result (TakesOpen (I.remaining input.old) (I.remaining input.new)) }
    // proved each, asked: Each of its bytes is a read of its own
    ensures each { IfOk result (λ bytes. TakesReads (I.remaining input.new) (length bytes.items) left.old left.new) }
    ensures left { left.new ≤ left.old }
    ensures spent { result ≡ Err InputFault.ReadsSpent → left.new ≡ 0 }
    ensures memory { result ≡ Err InputFault.OutOfMemory
        → TakesByReads (I.remaining input.old) (I.remaining input.new) left.old left.new }
    ensures counted { RoseBy (left.old - left.new) (I.reads input.old) (I.reads input.new) }
    ensures asked { RoseBy (left.old - left.new) (I.asked input.old) (I.asked input.new) }
    ensures failed { RoseBy (one_if (is_input_fault result)) (I.failures input.old) (I.failures input.new) }
{
    let mut bytes = Vec::new(alloc);
    loop {
        if is_head_end(&bytes) || bytes.len() > MOST_BYTES + 4 {
            return Ok(bytes);
        }
        match next_byte(input, left)? {
            None => return Ok(bytes),
            Some(byte) => bytes.push(byte)?,
        }
    }
}

/// What comes before the line `---`, or all bytes; `None` if they are over 65,536.
pub fn config_part(bytes: &[u8]) -> Option<&[u8]>
    ensures { option_map (λ part. part.now) result ≡ head_part bytes.now }
{
    let part = if is_head_end(bytes) {
        &bytes[..bytes.len() - 4]
    } else {
        bytes
    };
    if part.len() > MOST_BYTES {
        None
    } else {
        Some(part)
    }
}
