//! The functions that play a script.
ghost use Rattle.std.specs.Prelude.{◌≡◌, ◌≢◌, ◌≤◌, ◌-◌, ℕ, IfOk, IfErr, OnErr, Err};
ghost use Rattle.till_request.specs.Count.{RoseBy, one_if};
ghost use Rattle.line_session.specs.Answering.{SpendsReads, is_read, is_write, session_reads};
ghost use Rattle.site_core.specs.Site.{new_site};
ghost use Rattle.file_jobs.specs.Play.{PlayEnds, PlayBreaks, PlayStops, PlaysAlike};

use crate::notices::{NoNotices, PlayNotices};
use crate::player::Player;
use line_session::answering::answer_lines_within;
use line_session::{Ended, READS, SessionFault};
use site_core::{Config, Site};
use std::alloc::Global;
use till_request::{LineIn, LineOut};

/// Answers a script line by line, like `play`, but with at most `left` reads, at most `READS`, which is set to what
/// remains.
pub fn play_within<I: LineIn, O: LineOut, N: PlayNotices>(
    alloc: Global,
    config: Config,
    input: &mut I,
    output: &mut O,
    notices: &N,
    left: &mut u32,
) -> Result<Ended, SessionFault>
    requires { left.old ≤ READS }
    ensures all_answered { IfOk result
        (λ ended. PlayEnds (new_site config) (I.remaining input.old) (I.remaining input.new) (O.written output.old)
        (O.written output.new) ended.lines ended.cut) }
    ensures broken { OnErr result
        (PlayBreaks (new_site config) (I.remaining input.old) (I.remaining input.new) (O.written output.old)
        (O.written output.new)) }
    ensures read_fault { RoseBy (one_if (is_read result)) (I.failures input.old) (I.failures input.new) }
    ensures write_fault { RoseBy (one_if (is_write result)) (O.failures output.old) (O.failures output.new) }
    ensures left { left.new ≤ left.old }
    ensures spent { result ≡ Err SessionFault.ReadsSpent → left.new ≡ 0 }
    ensures counted { RoseBy (left.old - left.new) (I.reads input.old) (I.reads input.new) }
    ensures asked { RoseBy (left.old - left.new) (I.asked input.old) (I.asked input.new) }
    ensures journal { result ≢ Err SessionFault.Journal }
    ensures stopped { IfErr result (λ fault. fault ≢ SessionFault.Write
        → PlayStops fault (new_site config) (I.remaining input.old) (I.remaining input.new) (O.written output.old)
        (O.written output.new)) }
{
    let Ok(mut site) = Site::start(alloc, config) else {
        return Err(SessionFault::OutOfMemory);
    };
    let mut moment = 0;
    let player = Player { alloc, notices };
    answer_lines_within(input, output, &player, &mut moment, &mut site, left)
}

/// Answers a script line by line, on a new site. The moment (the time of an act) is 0 until a line sets it. At most
/// 67,108,864 reads of one byte are made. Returns how many lines were answered, and the fault of a last line that was
/// too long (L1) or had no LF (L4). After an error, a beginning of the answers may have been written.
pub fn play<I: LineIn, O: LineOut>(
    alloc: Global,
    config: Config,
    input: &mut I,
    output: &mut O,
) -> Result<Ended, SessionFault>
    // proved all_answered, broken: Each line meets the site left before it | each_line_has_a_new_site
    // proved: What a script's `journal` prints is one | journal_without_its_last_entry
    // proved: Its looks show the site, on day 1 | play_looks_at_another_day
    ensures all_answered { IfOk result
        (λ ended. PlayEnds (new_site config) (I.remaining input.old) (I.remaining input.new) (O.written output.old)
        (O.written output.new) ended.lines ended.cut) }
    ensures broken { OnErr result
        (PlayBreaks (new_site config) (I.remaining input.old) (I.remaining input.new) (O.written output.old)
        (O.written output.new)) }
    ensures read_fault { RoseBy (one_if (is_read result)) (I.failures input.old) (I.failures input.new) }
    ensures write_fault { RoseBy (one_if (is_write result)) (O.failures output.old) (O.failures output.new) }
    ensures reads { SpendsReads session_reads result I.reads I.asked input.old input.new }
    ensures journal { result ≢ Err SessionFault.Journal }
    // proved: Out of memory ends it only in reading, a load, a look or a script's own line
    ensures stopped { IfErr result (λ fault. fault ≢ SessionFault.Write
        → PlayStops fault (new_site config) (I.remaining input.old) (I.remaining input.new) (O.written output.old)
        (O.written output.new)) }
{
    let mut left = READS;
    play_within(alloc, config, input, output, &NoNotices, &mut left)
}

/// A law: the answers to a script don't depend on the sizes of the reads. Two plays of the same bytes that ended
/// without an error, and never answered for want of memory, write the same answers and leave the same site. It follows
/// from the contract of `play`.
pub fn law_of_read_sizes()
    // proved: Nor do they in a play
    ensures { PlaysAlike }
{}
