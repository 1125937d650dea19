//! The line handler that parses lines and passes what they ask for to a desk.
ghost use Rattle.std.specs.Prelude.{◌≡◌, IfOk, IfErr, IfSome, IfNone, OnErr, OnOk, ℕ, take, false, is_err};
ghost use Rattle.std.specs.Io.KnownBytes.{Appends};
ghost use Rattle.till_request.specs.Count.{RoseBy, one_if};
ghost use Rattle.line_session.specs.Deciding.{Decides, LeavesLine, with_room};
ghost use Rattle.line_session.specs.Session.{IsUnwritten, desk_answers, desk_drops, desk_needs_memory, ends_unwritten};
ghost use Rattle.line_session.specs.Session.{line_of};

use crate::desk::{Clock, Desk};
use crate::line_handler::{HandlerError, LineHandler};
use std::alloc::Global;
use till_request::look::parse_asked;
use till_request::write::{write_all, write_answer};
use till_request::{Answer, Asked, DeviceFault, LineFault, LineOut, Role, WriteFault};

/// What is to be written for a line: an answer, or what is in the room for the line of a look.
#[derive(Clone, Copy)]
pub enum ToWrite {
    Answer(Answer),
    Room,
}

/// The desk's answer to what a line asks for, at the clock's moment, or the line's fault; then clock and desk stay as
/// they are, as they do at a line that ends the day, for which this is `None`. `line` is without its LF. `room` is for
/// the line of a look.
fn answer_to<C: Clock, D: Desk>(
    alloc: Global,
    role: Role,
    line: &[u8],
    clock: &mut C,
    desk: &mut D,
    room: &mut Vec<u8>,
) -> Option<ToWrite>
    ensures some { IfSome result (λ written. Decides D.step D.looks C.tick role line.now clock.old desk.old
        (with_room written room.new.items) clock.new desk.new) }
    ensures none { IfNone result (desk_drops D.step D.looks C.tick role HandlerError.NextDay (clock.old, desk.old)
        line.now (clock.new, desk.new)) }
{
    match parse_asked(alloc, role, line) {
        Ok(Asked::Act(act)) => {
            let moment = clock.now();
            Some(ToWrite::Answer(desk.answer(act, moment)))
        }
        Ok(Asked::Look(look)) => {
            let moment = clock.now();
            match desk.look(look, moment, room) {
                Ok(()) => Some(ToWrite::Room),
                Err(answer) => Some(ToWrite::Answer(answer)),
            }
        }
        Ok(Asked::NextDay) => None,
        Err(fault) => Some(ToWrite::Answer(Answer::Line(fault))),
    }
}

/// The error with which the session ends where an answer isn't written. `Answer::OutOfMemory` is written.
fn unwritten_error(answer: &Answer) -> Option<HandlerError>
    ensures some { IfSome result (λ fault. IsUnwritten fault answer.now) }
    ensures none { IfNone result (ends_unwritten answer.now ≡ false) }
{
    match answer {
        Answer::Entered { .. } => None,
        Answer::JournalFull => None,
        Answer::OutOfMemory => None,
        Answer::Line(LineFault::TooLong) => None,
        Answer::Line(LineFault::BadLine) => None,
        Answer::Line(LineFault::BadNumber) => None,
        Answer::Line(LineFault::CutLine) => None,
        Answer::Line(LineFault::OtherDoor) => None,
        Answer::Line(LineFault::OutOfMemory) => Some(HandlerError::OutOfMemory),
        Answer::Program(..) => None,
        Answer::JournalFailed => Some(HandlerError::Journal),
    }
}

/// What is to be written for a line, which is without its LF. `room` is for the line of a look.
pub fn written_answer<C: Clock, D: Desk>(
    alloc: Global,
    role: Role,
    line: &[u8],
    clock: &mut C,
    desk: &mut D,
    room: &mut Vec<u8>,
) -> Result<ToWrite, HandlerError>
    ensures ok { IfOk result (λ answer. desk_answers D.step D.looks C.tick role (clock.old, desk.old) line.now
        (line_of (with_room answer room.new.items)) (clock.new, desk.new)) }
    ensures err { IfErr result (λ fault. LeavesLine (desk_drops D.step D.looks C.tick role) (desk_needs_memory role)
        fault (clock.old, desk.old) line.now (clock.new, desk.new)) }
{
    match answer_to(alloc, role, line, clock, desk, room) {
        None => Err(HandlerError::NextDay),
        Some(ToWrite::Room) => Ok(ToWrite::Room),
        Some(ToWrite::Answer(answer)) => match unwritten_error(&answer) {
            Some(fault) => Err(fault),
            None => Ok(ToWrite::Answer(answer)),
        },
    }
}

/// Writes an answer, or what is in the room. After an error a beginning of that is perhaps written.
fn write_now<O: LineOut>(
    alloc: Global,
    output: &mut O,
    answer: &ToWrite,
    room: &[u8],
) -> Result<(), DeviceFault>
    ensures ok { OnOk result
        (Appends (O.written output.old) (O.written output.new) (line_of (with_room answer.now room.now))) }
    ensures err { OnErr result ((k : ℕ)
        × Appends (O.written output.old) (O.written output.new) (take k (line_of (with_room answer.now room.now)))) }
    ensures failed { RoseBy (one_if (is_err result)) (O.failures output.old) (O.failures output.new) }
{
    match answer {
        ToWrite::Room => write_all(output, room),
        ToWrite::Answer(answer) => match write_answer(alloc, output, answer) {
            Ok(()) => Ok(()),
            Err(WriteFault::Write) => Err(DeviceFault),
            Err(WriteFault::OutOfMemory) => unreachable!(),
        },
    }
}

/// Reads the lines of a role, and answers them by a desk at the moments of a clock.
#[derive(Clone, Copy)]
pub struct DeskHandler {
    pub alloc: Global,
    pub role: Role,
}

impl<C: Clock, D: Desk> LineHandler<C, D> for DeskHandler {
    ghost use Rattle.line_session.specs.Session.{desk_answers, desk_drops, desk_needs_memory};

    ghost answers_with = { λ a. desk_answers D.step D.looks C.tick a.role };

    ghost drops = { λ a. desk_drops D.step D.looks C.tick a.role };

    ghost needs_memory = { λ a. desk_needs_memory a.role };

    fn alloc(&self) -> Global {
        self.alloc
    }

    fn handle_line<O: LineOut>(
        &self,
        line: &[u8],
        clock: &mut C,
        desk: &mut D,
        output: &mut O,
    ) -> Result<(), HandlerError> {
        let mut room = Vec::new(self.alloc);
        let answer = written_answer(self.alloc, self.role, line, clock, desk, &mut room)?;
        match write_now(self.alloc, output, &answer, &room) {
            Ok(()) => Ok(()),
            Err(DeviceFault) => Err(HandlerError::Write),
        }
    }
}
