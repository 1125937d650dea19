//! The loop that answers the lines of a connection, and writes answers together where several lines have come.
ghost use Rattle.std.specs.Prelude.{◌≡◌, ◌≢◌, ◌++◌, ◌-◌, ◌≤◌, ℕ, List, [], true, false, IfOk, IfErr, OnErr, OnOk, Err};
ghost use Rattle.till_request.specs.Count.{RoseBy, one_if};
ghost use Rattle.line_session.specs.Buffering.{Sends, HoldsWithBuffered};
ghost use Rattle.line_session.specs.Session.{desk_answers, desk_drops, desk_needs_memory};
ghost use Rattle.line_session.specs.Answering.{Ends, Breaks, RelatesConnection, SpendsReads, Stops, StopsAtDoor};
ghost use Rattle.line_session.specs.Answering.{cut_line, is_read, is_write, session_reads};
ghost use Rattle.line_session.specs.Found.{IsEnd};

use crate::answer_buffer::AnswerBuffer;
use crate::answering::{Ended, READS, SessionFault, cut_of};
use crate::connection::Connection;
use crate::desk::{Clock, Desk};
use crate::desk_handler::{ToWrite, written_answer};
use crate::doors::Doors;
use std::alloc::Global;
use till_request::line::read_line_into;
use till_request::{Answer, Found, LineFault, LineOut, Role};

/// Reports a line that gets this answer, if the answer is `OtherDoor`.
fn report_stray<S: Doors>(doors: &S, answer: &ToWrite)
    ensures { answer.now ≡ ToWrite.Answer (Answer.Line LineFault.OtherDoor) → S.stray_reported doors.now }
{
    if let ToWrite::Answer(Answer::Line(LineFault::OtherDoor)) = answer {
        doors.met_stray();
    }
}

#[derive(Drop)]
struct Progress {
    alloc: Global,
    left: u32,
    line: Vec<u8>,
    /// For the line of a look.
    room: Vec<u8>,
    pending: AnswerBuffer,
}

impl Progress {
    fn new(alloc: Global) -> Progress
        ensures left { result.left ≡ session_reads }
        ensures none { result.pending.held.items ≡ [] }
    {
        Progress {
            alloc,
            left: READS,
            line: Vec::new(alloc),
            room: Vec::new(alloc),
            pending: AnswerBuffer::new(alloc),
        }
    }

    /// Writes the buffered answers, unless the next line is there already and the buffer isn't full.
    fn flush_unless_more<S: Doors>(
        &mut self,
        doors: &S,
        connection: &mut Connection<S::In, S::Out>,
    ) -> Result<(), SessionFault>
        ensures ok { OnOk result (Sends self.old.pending.held.items self.new.pending.held.items
            (S.Out.written connection.old.output) (S.Out.written connection.new.output)) }
        ensures err { OnErr result ((lost : List ℕ) × Sends self.old.pending.held.items lost
            (S.Out.written connection.old.output) (S.Out.written connection.new.output)) }
        ensures failed { RoseBy (one_if (is_write result)) (S.Out.failures connection.old.output)
            (S.Out.failures connection.new.output) }
        ensures cause { IfErr result (λ e. e ≡ SessionFault.Write) }
        ensures input { connection.new.input ≡ connection.old.input }
        ensures left { self.new.left ≡ self.old.left }
    {
        if !self.pending.is_full() && doors.has_buffered_line(&connection.input) {
            return Ok(());
        }
        self.pending.flush(&mut connection.output)
    }

    /// Ends a session after `lines` answers, with one more, buffered, for the fault of a last line.
    fn end<O: LineOut>(
        &mut self,
        output: &mut O,
        lines: u64,
        cut: Option<LineFault>,
    ) -> Result<Ended, SessionFault>
        requires { lines ≤ READS }
        ensures ok { IfOk result (λ ended. IsEnd lines cut ended
            × Sends (self.old.pending.held.items ++ cut_line cut) self.new.pending.held.items
            (O.written output.old) (O.written output.new)) }
        ensures err { OnErr result ((lost : List ℕ) × Sends (self.old.pending.held.items ++ cut_line cut) lost
            (O.written output.old) (O.written output.new)) }
        ensures failed { RoseBy (one_if (is_write result)) (O.failures output.old) (O.failures output.new) }
        ensures cause { IfErr result (λ e. e ≡ SessionFault.Write) }
        ensures left { self.new.left ≡ self.old.left }
    {
        let Some(fault) = cut else {
            return Ok(Ended { lines, cut: None });
        };
        match self.pending.put(output, &Answer::Line(fault)) {
            Ok(()) => Ok(Ended {
                lines: lines + 1,
                cut: Some(fault),
            }),
            Err(fault) => Err(fault),
        }
    }

    /// Answers the lines of a connection in order. Some answers are perhaps still in the buffer afterwards.
    fn answer_lines<S: Doors, C: Clock, D: Desk>(
        &mut self,
        role: Role,
        doors: &S,
        connection: &mut Connection<S::In, S::Out>,
        clock: &mut C,
        desk: &mut D,
    ) -> Result<Ended, SessionFault>
        requires { (self.old.left ≤ READS) × (self.old.pending.held.items ≡ []) }
        ensures all_answered { IfOk result (λ ended. HoldsWithBuffered
            (λ out_old out_new. Ends (desk_answers D.step D.looks C.tick role) (clock.old, desk.old)
            (clock.new, desk.new) (S.In.remaining connection.old.input) (S.In.remaining connection.new.input)
            out_old out_new ended.lines ended.cut)
            (S.Out.written connection.old.output) (S.Out.written connection.new.output)
            self.new.pending.held.items) }
        ensures broken { OnErr result
            (RelatesConnection S.In.remaining S.Out.written connection.old connection.new
            (Breaks (desk_answers D.step D.looks C.tick role) (desk_drops D.step D.looks C.tick role)
            (clock.old, desk.old) (clock.new, desk.new))) }
        ensures stopped { IfErr result (λ fault. fault ≢ SessionFault.Write → HoldsWithBuffered
            (Stops (desk_answers D.step D.looks C.tick role) (desk_drops D.step D.looks C.tick role)
            (desk_needs_memory role) fault (clock.old, desk.old) (clock.new, desk.new)
            (S.In.remaining connection.old.input) (S.In.remaining connection.new.input))
            (S.Out.written connection.old.output) (S.Out.written connection.new.output)
            self.new.pending.held.items) }
        ensures read_fault { RoseBy (one_if (is_read result)) (S.In.failures connection.old.input)
            (S.In.failures connection.new.input) }
        ensures write_fault { RoseBy (one_if (is_write result)) (S.Out.failures connection.old.output)
            (S.Out.failures connection.new.output) }
        ensures left { self.new.left ≤ self.old.left }
        ensures spent { result ≡ Err SessionFault.ReadsSpent → self.new.left ≡ 0 }
        ensures counted { RoseBy (self.old.left - self.new.left) (S.In.reads connection.old.input)
            (S.In.reads connection.new.input) }
        ensures asked { RoseBy (self.old.left - self.new.left) (S.In.asked connection.old.input)
            (S.In.asked connection.new.input) }
    {
        let mut count = 0u64;
        'turns: loop {
            self.flush_unless_more(doors, connection)?;
            match read_line_into(&mut connection.input, &mut self.line, &mut self.left)? {
                Found::Line => {
                    let room = &mut self.room;
                    let answer = written_answer(self.alloc, role, &self.line, clock, desk, room)?;
                    report_stray(doors, &answer);
                    let output = &mut connection.output;
                    self.pending.put_written(output, &answer, &self.room)?
                }
                found => return self.end(&mut connection.output, count, cut_of(found)),
            }
            count += 1;
        }
    }
}

/// Nothing more is written after such a fault.
fn device_failed(fault: SessionFault) -> bool
    ensures yes { result ≡ true → fault ≢ SessionFault.Write → fault ≡ SessionFault.Read }
    ensures no { result ≡ false → (fault ≢ SessionFault.Read) × (fault ≢ SessionFault.Write) }
{
    match fault {
        SessionFault::Read | SessionFault::Write => true,
        SessionFault::ReadsSpent
        | SessionFault::OutOfMemory
        | SessionFault::Journal
        | SessionFault::NextDay => false,
    }
}

/// Like `session`, but answers are buffered, to be written together. They are written before a line is read that isn't
/// there yet, or if they have at least 16,384 bytes. After a failed read or write, what is buffered is not written;
/// after any other error it is.
pub fn pipelined_session<S: Doors, C: Clock, D: Desk>(
    alloc: Global,
    role: Role,
    doors: &S,
    connection: &mut Connection<S::In, S::Out>,
    clock: &mut C,
    desk: &mut D,
) -> Result<Ended, SessionFault>
    // proved: It may write answers together
    // proved: It writes those to looks among them | look_is_written_twice
    ensures all_answered { IfOk result (λ ended. RelatesConnection S.In.remaining S.Out.written connection.old
        connection.new
        (λ in_old in_new out_old out_new. Ends (desk_answers D.step D.looks C.tick role) (clock.old, desk.old)
        (clock.new, desk.new) in_old in_new out_old out_new ended.lines ended.cut)) }
    // proved: After a fault, a beginning of them | held_answers_are_written_twice
    ensures broken { OnErr result
        (RelatesConnection S.In.remaining S.Out.written connection.old connection.new
        (Breaks (desk_answers D.step D.looks C.tick role) (desk_drops D.step D.looks C.tick role) (clock.old, desk.old)
        (clock.new, desk.new))) }
    ensures read_fault { RoseBy (one_if (is_read result)) (S.In.failures connection.old.input)
        (S.In.failures connection.new.input) }
    ensures write_fault { RoseBy (one_if (is_write result)) (S.Out.failures connection.old.output)
        (S.Out.failures connection.new.output) }
    ensures reads { SpendsReads session_reads result S.In.reads S.In.asked connection.old.input
        connection.new.input }
    // proved: Whole answers, where no device failed
    ensures stopped { IfErr result (λ fault. fault ≢ SessionFault.Write
        → RelatesConnection S.In.remaining S.Out.written connection.old connection.new
        (StopsAtDoor (desk_answers D.step D.looks C.tick role) (desk_drops D.step D.looks C.tick role)
        (desk_needs_memory role) fault (clock.old, desk.old) (clock.new, desk.new))) }
{
    let mut progress = Progress::new(alloc);
    match progress.answer_lines(role, doors, connection, clock, desk) {
        Ok(ended) => {
            progress.pending.flush(&mut connection.output)?;
            Ok(ended)
        }
        Err(fault) => {
            if device_failed(fault) {
                return Err(fault);
            }
            progress.pending.flush(&mut connection.output)?;
            Err(fault)
        }
    }
}
