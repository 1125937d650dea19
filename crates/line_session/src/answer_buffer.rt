//! A buffer for answers, so that several are written together.
ghost use Rattle.std.specs.Prelude.{◌↔◌, ◌≤◌, IsTrue, length, ◌≡◌, ◌++◌, List, ℕ, [], true, false, IfErr, OnErr, OnOk};
ghost use Rattle.till_request.specs.Answer.{answer_line};
ghost use Rattle.till_request.specs.Count.{RoseBy, one_if};
ghost use Rattle.line_session.specs.Answering.{is_write};
ghost use Rattle.line_session.specs.Buffering.{Sends};
ghost use Rattle.line_session.specs.Deciding.{with_room};
ghost use Rattle.line_session.specs.Session.{line_of};

use crate::answering::SessionFault;
use crate::desk_handler::ToWrite;
use std::alloc::Global;
use till_request::short_text::put_line;
use till_request::write::write_all;
use till_request::{Answer, DeviceFault, LineOut, ShortText};

/// In bytes: so many are written before the next line is read.
const MOST_WAITING: usize = 16_384;

/// Answers that are to be written together. If memory runs out for one, it is written at once, behind those in the
/// buffer.
#[derive(Drop)]
pub struct AnswerBuffer {
    held: Vec<u8>,
}

fn write_now<O: LineOut>(output: &mut O, bytes: &[u8]) -> Result<(), SessionFault>
    ensures ok { OnOk result (Sends bytes.now [] (O.written output.old) (O.written output.new)) }
    ensures err { OnErr result ((lost : List ℕ) × Sends bytes.now lost (O.written output.old) (O.written output.new)) }
    ensures failed { RoseBy (one_if (is_write result)) (O.failures output.old) (O.failures output.new) }
    ensures cause { IfErr result (λ e. e ≡ SessionFault.Write) }
{
    match write_all(output, bytes) {
        Ok(()) => Ok(()),
        Err(DeviceFault) => Err(SessionFault::Write),
    }
}

impl AnswerBuffer {
    pub fn new(alloc: Global) -> AnswerBuffer
        ensures { result.held.items ≡ [] }
    {
        AnswerBuffer {
            held: Vec::new(alloc),
        }
    }

    pub fn is_full(&self) -> bool
        ensures { IsTrue result ↔ 16384 ≤ length self.now.held.items }
    {
        self.held.len() >= MOST_WAITING
    }

    /// Writes the buffered answers, and empties the buffer. After an error a beginning was perhaps written, and the
    /// rest is lost.
    pub fn flush<O: LineOut>(&mut self, output: &mut O) -> Result<(), SessionFault>
        ensures ok { OnOk result
            (Sends self.old.held.items [] (O.written output.old) (O.written output.new)) }
        ensures err { OnErr result ((lost : List ℕ)
            × Sends self.old.held.items lost (O.written output.old) (O.written output.new)) }
        ensures none { self.new.held.items ≡ [] }
        ensures failed { RoseBy (one_if (is_write result)) (O.failures output.old) (O.failures output.new) }
        ensures cause { IfErr result (λ e. e ≡ SessionFault.Write) }
    {
        let written = write_now(output, self.held.as_slice());
        self.held.clear();
        written
    }

    /// Appends an answer with its LF. Where there is no memory for that, writes all; an error is as in `flush`.
    pub fn put<O: LineOut>(&mut self, output: &mut O, answer: &Answer) -> Result<(), SessionFault>
        ensures ok { OnOk result
            (Sends (self.old.held.items ++ answer_line answer.now) self.new.held.items
            (O.written output.old) (O.written output.new)) }
        ensures err { OnErr result ((lost : List ℕ)
            × Sends (self.old.held.items ++ answer_line answer.now) lost (O.written output.old)
            (O.written output.new)) }
        ensures failed { RoseBy (one_if (is_write result)) (O.failures output.old) (O.failures output.new) }
        ensures cause { IfErr result (λ e. e ≡ SessionFault.Write) }
    {
        let mut line = ShortText::new();
        put_line(&mut line, answer);
        self.put_bytes(output, line.as_str().as_bytes())
    }

    /// Appends an answer or what is in the room for the line of a look, as `put` does.
    pub fn put_written<O: LineOut>(
        &mut self,
        output: &mut O,
        answer: &ToWrite,
        room: &[u8],
    ) -> Result<(), SessionFault>
        ensures ok { OnOk result
            (Sends (self.old.held.items ++ line_of (with_room answer.now room.now)) self.new.held.items
            (O.written output.old) (O.written output.new)) }
        ensures err { OnErr result ((lost : List ℕ)
            × Sends (self.old.held.items ++ line_of (with_room answer.now room.now)) lost (O.written output.old)
            (O.written output.new)) }
        ensures failed { RoseBy (one_if (is_write result)) (O.failures output.old) (O.failures output.new) }
        ensures cause { IfErr result (λ e. e ≡ SessionFault.Write) }
    {
        match answer {
            ToWrite::Answer(answer) => self.put(output, answer),
            ToWrite::Room => self.put_bytes(output, room),
        }
    }

    fn put_bytes<O: LineOut>(&mut self, output: &mut O, bytes: &[u8]) -> Result<(), SessionFault>
        ensures ok { OnOk result
            (Sends (self.old.held.items ++ bytes.now) self.new.held.items (O.written output.old)
            (O.written output.new)) }
        ensures err { OnErr result ((lost : List ℕ)
            × Sends (self.old.held.items ++ bytes.now) lost (O.written output.old) (O.written output.new)) }
        ensures failed { RoseBy (one_if (is_write result)) (O.failures output.old) (O.failures output.new) }
        ensures cause { IfErr result (λ e. e ≡ SessionFault.Write) }
    {
        if self.hold(bytes) {
            return Ok(());
        }
        self.flush(output)?;
        write_now(output, bytes)
    }

    /// Appends bytes, unless memory runs out.
    fn hold(&mut self, bytes: &[u8]) -> bool
        ensures holds { result ≡ true → self.new.held.items ≡ self.old.held.items ++ bytes.now }
        ensures same { result ≡ false → self.new.held.items ≡ self.old.held.items }
    {
        self.held.extend_from_slice(bytes).is_ok()
    }
}
