//! The handler that answers lines.
use std::alloc::Global;
use till_request::LineOut;

/// Why a line has no answer, or its answer wasn't written whole.
#[derive(Clone, Copy)]
pub enum HandlerError {
    /// N2: the write of the answer failed.
    Write,
    OutOfMemory,
    /// The journal failed: the site takes no further event.
    Journal,
    /// The line ends the day. Its answer comes once the next day is served.
    NextDay,
}

/// Answers each line with a text, and can change a clock and a desk.
pub trait LineHandler<C, D> {
    ghost use Rattle.std.specs.Prelude.{List, ℕ, OnOk, IfErr};
    ghost use Rattle.till_request.specs.Count.{RoseBy, one_if};
    ghost use Rattle.line_session.specs.Answering.{HandlerFails, WritesAnswer, is_write_fault};
    ghost use Rattle.line_session.specs.declared.line_handler.HandlerError.{HandlerError};

    /// For proofs: from the first state of clock and desk to the second, this line (the first bytes) can be answered
    /// with this text (the second).
    ghost answers_with: { Self → (C × D) → List ℕ → List ℕ → (C × D) → Type 0 };

    /// For proofs: from the first state to the second, this line can stay without an answer, with this error.
    ghost drops: { Self → HandlerError → (C × D) → List ℕ → (C × D) → Type 0 };

    /// For proofs: memory can run out at this line, which then changes nothing.
    ghost needs_memory: { Self → List ℕ → Type 0 };

    fn alloc(&self) -> Global;

    /// Writes the answer to a line, which is without its LF. Any error ends the session.
    fn handle_line<O: LineOut>(
        &self,
        line: &[u8],
        clock: &mut C,
        desk: &mut D,
        output: &mut O,
    ) -> Result<(), HandlerError>
        ensures ok { OnOk result
            (WritesAnswer (answers_with self.now) line.now (clock.old, desk.old) (clock.new, desk.new) (O.written
            output.old)
            (O.written output.new)) }
        ensures err { IfErr result
            (λ fault. HandlerFails (answers_with self.now) (drops self.now) (needs_memory self.now) O.written fault
            line.now (clock.old, desk.old)
            (clock.new, desk.new) output.old output.new) }
        ensures failed { RoseBy (one_if (is_write_fault result)) (O.failures output.old) (O.failures output.new) };
}
