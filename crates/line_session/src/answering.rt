//! The loop that answers the lines of an input.
ghost use Rattle.std.specs.Prelude.{◌≡◌, ◌≢◌, ◌+◌, ◌-◌, ◌<◌, ◌≤◌, ℕ, take, IfOk, IfErr, OnErr, Err};
ghost use Rattle.std.specs.Io.KnownBytes.{Appends};
ghost use Rattle.till_request.specs.Count.{RoseBy, one_if};
ghost use Rattle.line_session.specs.Answering.{Ends, Breaks, SpendsReads, Stops, is_read, is_write, session_reads};
ghost use Rattle.line_session.specs.Answering.{cut_line};
ghost use Rattle.line_session.specs.Found.{IsEnd, cut_by};

use crate::line_handler::{HandlerError, LineHandler};
use std::alloc::Global;
use std::fmt;
use till_request::line::read_line_into;
use till_request::write::write_answer;
use till_request::{Answer, Found, InputFault, LineFault, LineIn, LineOut, WriteFault};

/// The most reads of one session. Each asks for one byte.
pub const READS: u32 = 67_108_864;

/// How a session ended without a `SessionFault`: how many answers it had, and the fault of its last line, if that was
/// too long (L1) or had no LF (L4). The answer with this fault is counted too.
#[derive(Clone, Copy, PartialEq)]
pub struct Ended {
    pub lines: u64,
    pub cut: Option<LineFault>,
}

#[derive(Clone, Copy, PartialEq)]
pub enum SessionFault {
    /// N1: a read failed.
    Read,
    /// N2: a write failed.
    Write,
    /// N3: the reads ran out.
    ReadsSpent,
    OutOfMemory,
    /// The journal failed, and the site takes no further event. The last lines have no answer, or a beginning of one.
    Journal,
    /// The line ends the day. It was read whole, and its answer comes once the next day is served.
    NextDay,
}

impl fmt::Display for SessionFault {
    ghost use Rattle.std.specs.Prelude.{Some};
    ghost use Rattle.line_session.specs.Words.{session_fault_text};

    ghost output = { λ fault. Some (session_fault_text fault) };

    fn fmt<W: fmt::Write>(&self, f: &mut fmt::Formatter<W>) -> fmt::Result {
        match self {
            SessionFault::Read => f.write_str("a read failed"),
            SessionFault::Write => f.write_str("a write failed"),
            SessionFault::ReadsSpent => f.write_str("the reads ran out"),
            SessionFault::OutOfMemory => f.write_str("out of memory"),
            SessionFault::Journal => f.write_str("the journal failed"),
            SessionFault::NextDay => f.write_str("the day ends"),
        }
    }
}

impl From<InputFault> for SessionFault {
    ghost use Rattle.line_session.specs.Faults.{fault_of_input};

    ghost from_gives = { λ f e. e ≡ fault_of_input f };

    fn from(fault: InputFault) -> Self {
        match fault {
            InputFault::Read => SessionFault::Read,
            InputFault::ReadsSpent => SessionFault::ReadsSpent,
            InputFault::OutOfMemory => SessionFault::OutOfMemory,
        }
    }
}

impl From<HandlerError> for SessionFault {
    ghost use Rattle.line_session.specs.Faults.{fault_of_handler};

    ghost from_gives = { λ f e. e ≡ fault_of_handler f };

    fn from(fault: HandlerError) -> Self {
        match fault {
            HandlerError::Write => SessionFault::Write,
            HandlerError::OutOfMemory => SessionFault::OutOfMemory,
            HandlerError::Journal => SessionFault::Journal,
            HandlerError::NextDay => SessionFault::NextDay,
        }
    }
}

/// The fault of a line that ends a session, if it was cut.
pub(crate) fn cut_of(found: Found) -> Option<LineFault>
    ensures { result ≡ cut_by found }
{
    match found {
        Found::Line | Found::End => None,
        Found::TooLong => Some(LineFault::TooLong),
        Found::Cut => Some(LineFault::CutLine),
    }
}

/// Ends a session after `lines` answers, with one more for the fault of a last line.
fn end<O: LineOut>(
    alloc: Global,
    output: &mut O,
    lines: u64,
    cut: Option<LineFault>,
) -> Result<Ended, SessionFault>
    requires { lines ≤ READS }
    ensures ok { IfOk result (λ ended. IsEnd lines cut ended
        × Appends (O.written output.old) (O.written output.new) (cut_line cut)) }
    ensures err { OnErr result
        ((k : ℕ) × Appends (O.written output.old) (O.written output.new) (take k (cut_line cut))) }
    ensures failed { RoseBy (one_if (is_write result)) (O.failures output.old) (O.failures output.new) }
    ensures cause { IfErr result (λ e. e ≡ SessionFault.Write) }
{
    let Some(fault) = cut else {
        return Ok(Ended { lines, cut: None });
    };
    match write_answer(alloc, output, &Answer::Line(fault)) {
        Ok(()) => Ok(Ended {
            lines: lines + 1,
            cut: Some(fault),
        }),
        Err(WriteFault::Write) => Err(SessionFault::Write),
        Err(WriteFault::OutOfMemory) => Err(SessionFault::OutOfMemory),
    }
}

/// Answers the lines of an input in order, with at most `left` reads, and leaves in `left` how many remain.
///
/// The session ends at the end of the input, or with the fault of a line that is too long or has no LF. An answer is
/// written in part only if a write fails.
pub fn answer_lines_within<I: LineIn, O: LineOut, C, D, S: LineHandler<C, D>>(
    input: &mut I,
    output: &mut O,
    handler: &S,
    clock: &mut C,
    desk: &mut D,
    left: &mut u32,
) -> Result<Ended, SessionFault>
    requires { left.old ≤ READS }
    ensures all_answered { IfOk result (λ ended. Ends (S.answers_with handler.now) (clock.old, desk.old) (
      clock.new,
      desk.new,
    )
        (I.remaining input.old) (I.remaining input.new) (O.written output.old) (O.written output.new)
        ended.lines ended.cut) }
    ensures broken { OnErr result
        (Breaks (S.answers_with handler.now) (S.drops handler.now) (clock.old, desk.old) (clock.new, desk.new)
        (I.remaining input.old) (I.remaining input.new) (O.written output.old) (O.written output.new)) }
    ensures read_fault { RoseBy (one_if (is_read result)) (I.failures input.old) (I.failures input.new) }
    ensures write_fault { RoseBy (one_if (is_write result)) (O.failures output.old) (O.failures output.new) }
    ensures left { left.new ≤ left.old }
    ensures spent { result ≡ Err SessionFault.ReadsSpent → left.new ≡ 0 }
    ensures counted { RoseBy (left.old - left.new) (I.reads input.old) (I.reads input.new) }
    ensures asked { RoseBy (left.old - left.new) (I.asked input.old) (I.asked input.new) }
    ensures stopped { IfErr result (λ fault. fault ≢ SessionFault.Write
        → Stops (S.answers_with handler.now) (S.drops handler.now) (S.needs_memory handler.now) fault (
          clock.old,
          desk.old,
        )
        (clock.new, desk.new) (I.remaining input.old) (I.remaining input.new) (O.written output.old)
        (O.written output.new)) }
{
    let alloc = handler.alloc();
    let mut line = Vec::new(alloc);
    let mut count = 0u64;
    'turns: loop {
        match read_line_into(input, &mut line, left)? {
            Found::Line => handler.handle_line(&line, clock, desk, output)?,
            found => return end(alloc, output, count, cut_of(found)),
        }
        count += 1;
    }
}

/// `answer_lines_within` with 67,108,864 reads.
pub fn answer_lines<I: LineIn, O: LineOut, C, D, S: LineHandler<C, D>>(
    input: &mut I,
    output: &mut O,
    handler: &S,
    clock: &mut C,
    desk: &mut D,
) -> Result<Ended, SessionFault>
    // proved: Each line is answered in order | lines_are_answered_out_of_order
    ensures all_answered { IfOk result (λ ended. Ends (S.answers_with handler.now) (clock.old, desk.old) (
      clock.new,
      desk.new,
    )
        (I.remaining input.old) (I.remaining input.new) (O.written output.old) (O.written output.new)
        ended.lines ended.cut) }
    // proved: After a fault a beginning is out | session_goes_on_after_a_long_line
    // proved: At most the next line is read
    ensures broken { OnErr result
        (Breaks (S.answers_with handler.now) (S.drops handler.now) (clock.old, desk.old) (clock.new, desk.new)
        (I.remaining input.old) (I.remaining input.new) (O.written output.old) (O.written output.new)) }
    ensures read_fault { RoseBy (one_if (is_read result)) (I.failures input.old) (I.failures input.new) }
    ensures write_fault { RoseBy (one_if (is_write result)) (O.failures output.old) (O.failures output.new) }
    ensures reads { SpendsReads session_reads result I.reads I.asked input.old input.new }
    // proved: Whole answers, where no write failed | cut_is_answered_without_memory
    ensures stopped { IfErr result (λ fault. fault ≢ SessionFault.Write
        → Stops (S.answers_with handler.now) (S.drops handler.now) (S.needs_memory handler.now) fault (
          clock.old,
          desk.old,
        )
        (clock.new, desk.new) (I.remaining input.old) (I.remaining input.new) (O.written output.old)
        (O.written output.new)) }
{
    let mut left = READS;
    answer_lines_within(input, output, handler, clock, desk, &mut left)
}
