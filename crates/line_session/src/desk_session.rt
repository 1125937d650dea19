//! Sessions of a role at a desk.
ghost use Rattle.std.specs.Prelude.{◌≢◌, IfOk, IfErr, OnErr};
ghost use Rattle.till_request.specs.Count.{RoseBy, one_if};
ghost use Rattle.line_session.specs.Answering.{Ends, Breaks, SpendsReads, Stops, is_read, is_write, session_reads};
ghost use Rattle.line_session.specs.Session.{desk_answers, desk_drops, desk_needs_memory};

use crate::answering::{Ended, READS, SessionFault, answer_lines};
use crate::desk::{Clock, Desk};
use crate::desk_handler::DeskHandler;
use std::alloc::Global;
use till_request::{LineIn, LineOut, Role};

/// Answers the lines of an input in order, as acts and looks of a role. A line for whose act memory ran out has no
/// answer, and ends the session. After an error all earlier answers have been written, and after `Write` perhaps a
/// beginning of one more.
pub fn session<I: LineIn, O: LineOut, C: Clock, D: Desk>(
    alloc: Global,
    role: Role,
    input: &mut I,
    output: &mut O,
    clock: &mut C,
    desk: &mut D,
) -> Result<Ended, SessionFault>
    // proved all_answered, broken, stopped: A session too | session_takes_lines_of_all_roles
    // proved: A look shows what the desk shows | look_is_answered_out_of_memory
    ensures all_answered { IfOk result (λ ended. Ends (desk_answers D.step D.looks C.tick role) (clock.old, desk.old)
        (clock.new, desk.new)
        (I.remaining input.old) (I.remaining input.new) (O.written output.old) (O.written output.new)
        ended.lines ended.cut) }
    ensures broken { OnErr result
        (Breaks (desk_answers D.step D.looks C.tick role) (desk_drops D.step D.looks C.tick role) (clock.old, desk.old)
        (clock.new, desk.new) (I.remaining input.old) (I.remaining input.new) (O.written output.old)
        (O.written output.new)) }
    ensures read_fault { RoseBy (one_if (is_read result)) (I.failures input.old) (I.failures input.new) }
    ensures write_fault { RoseBy (one_if (is_write result)) (O.failures output.old) (O.failures output.new) }
    ensures reads { SpendsReads session_reads result I.reads I.asked input.old input.new }
    // proved: It names the cause, memory or the journal | failed_journal_is_out_of_memory
    ensures stopped { IfErr result (λ fault. fault ≢ SessionFault.Write
        → Stops (desk_answers D.step D.looks C.tick role) (desk_drops D.step D.looks C.tick role)
        (desk_needs_memory role) fault (clock.old, desk.old) (clock.new, desk.new) (I.remaining input.old)
        (I.remaining input.new) (O.written output.old) (O.written output.new)) }
{
    answer_lines(input, output, &DeskHandler { alloc, role }, clock, desk)
}
