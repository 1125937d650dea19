//! Writes answers to a device.
ghost use Rattle.std.specs.Prelude.{◌≡◌, ◌≢◌, ℕ, take, OnOk, IfErr, Err, is_err};
ghost use Rattle.std.specs.Io.KnownBytes.{Appends};
ghost use Rattle.till_request.specs.Count.{RoseBy, one_if};
ghost use Rattle.till_request.specs.Write.{is_write_fault};
ghost use Rattle.till_request.specs.Answer.{answer_line};
ghost use Rattle.till_request.specs.Looks.{next_day_line};

use crate::act::Answer;
use crate::device::{DeviceFault, LineOut};
use crate::short_text::{ShortText, put_line, put_next_day};
use std::alloc::Global;

/// Why an answer couldn't be written whole.
#[derive(Clone, Copy)]
pub enum WriteFault {
    /// The device failed (fault `N2`).
    Write,
    /// Memory ran out. `write_answer` never returns this.
    OutOfMemory,
}

/// Writes all of `bytes`. After an error some of the first bytes may be written.
pub fn write_all<O: LineOut>(output: &mut O, bytes: &[u8]) -> Result<(), DeviceFault>
    ensures ok { OnOk result (Appends (O.written output.old) (O.written output.new) bytes.now) }
    ensures err { IfErr result
        (λ _. (k : ℕ) × Appends (O.written output.old) (O.written output.new) (take k bytes.now)) }
    ensures failed { RoseBy (one_if (is_err result)) (O.failures output.old) (O.failures output.new) }
{
    let mut at = 0;
    while at < bytes.len() {
        at += output.write(&bytes[at..])?;
    }
    Ok(())
}

/// Writes an answer with its LF and takes no memory. After an error some of the first bytes may be written.
pub fn write_answer<O: LineOut>(
    alloc: Global,
    output: &mut O,
    answer: &Answer,
) -> Result<(), WriteFault>
    // proved ok, memory: It writes an answer's one text | another_reply_is_spelled
    ensures ok { OnOk result (Appends (O.written output.old) (O.written output.new) (answer_line answer.now)) }
    ensures err { IfErr result
        (λ _. (k : ℕ) × Appends (O.written output.old) (O.written output.new) (take k (answer_line answer.now))) }
    ensures memory { result ≢ Err WriteFault.OutOfMemory }
    ensures failed { RoseBy (one_if (is_write_fault result)) (O.failures output.old) (O.failures output.new) }
{
    // The line is made in a text of fixed size.
    let _ = alloc;
    let mut line = ShortText::new();
    put_line(&mut line, answer);
    match write_all(output, line.as_str().as_bytes()) {
        Ok(()) => Ok(()),
        Err(DeviceFault) => Err(WriteFault::Write),
    }
}

/// Writes the answer to a line that ended a day, with its LF: the number of the day that is served now. Takes no memory.
/// After an error some of the first bytes may be written.
pub fn write_next_day<O: LineOut>(output: &mut O, number: u32) -> Result<(), DeviceFault>
    // proved: The answer to a day's end names the day that follows
    ensures ok { OnOk result (Appends (O.written output.old) (O.written output.new) (next_day_line number)) }
    ensures err { IfErr result
        (λ _. (k : ℕ) × Appends (O.written output.old) (O.written output.new) (take k (next_day_line number))) }
    ensures failed { RoseBy (one_if (is_err result)) (O.failures output.old) (O.failures output.new) }
{
    let mut line = ShortText::new();
    put_next_day(&mut line, number);
    write_all(output, line.as_str().as_bytes())
}
