//! The line handler of a play: it does what each line of a script says, and writes the answer.
ghost use Rattle.std.specs.Prelude.{◌≡◌, ◌⊎◌, ◌≤◌, ℕ, All, length, take, OnOk, OnErr, IfOk, IfErr, IfSome, Err, string_bytes};
ghost use Rattle.std.specs.Io.KnownBytes.{Appends};
ghost use Rattle.till_request.specs.Count.{RoseBy, one_if};
ghost use Rattle.till_request.specs.Answer.{answer_line};
ghost use Rattle.till_request.specs.declared.line.TheConstants.{LINE_BYTES};
ghost use Rattle.line_session.specs.Answering.{drops_none, is_write_fault};
ghost use Rattle.decision_journal.specs.Text.{entry_text, journal_text};
ghost use Rattle.site_core.specs.Histories.{IsJournal};
ghost use Rattle.file_jobs.specs.Loading.{IsLoadRefusal};
ghost use Rattle.file_jobs.specs.Play.{AnswersScriptLine, IsLookText, TakesMemory, moment_text, counter_text};

use crate::entering::{Entered, enter};
use crate::notices::PlayNotices;
use crate::script::{ScriptLine, parse_script_line};
use decision_journal::writing::write_entries;
use decision_journal::{Entry, JournalFault};
use line_session::{HandlerError, LineHandler};
use site_core::{SightRoom, Site};
use std::alloc::{AllocError, Global};
use till_request::look::put_sight;
use till_request::write::{write_all, write_answer};
use till_request::{Act, Answer, DeviceFault, LineFault, LineOut, LookAt, Sight, WriteFault};

/// The number of the day that a look tells: a play is of one day.
const DAY: u32 = 1;

/// The line handler of a play. The time of an act is the moment that the script set last.
#[derive(Clone, Copy)]
pub struct Player<'a, N: PlayNotices> {
    pub alloc: Global,
    pub notices: &'a N,
}

fn write_play_answer<O: LineOut>(
    alloc: Global,
    output: &mut O,
    answer: &Answer,
) -> Result<(), HandlerError>
    ensures ok { OnOk result (Appends (O.written output.old) (O.written output.new) (answer_line answer.now)) }
    ensures err { OnErr result
        ((k : ℕ) × Appends (O.written output.old) (O.written output.new) (take k (answer_line answer.now))) }
    ensures failed { RoseBy (one_if (is_write_fault result)) (O.failures output.old) (O.failures output.new) }
    ensures cause { IfErr result (λ fault. fault ≡ HandlerError.Write) }
{
    match write_answer(alloc, output, answer) {
        Ok(()) => Ok(()),
        Err(WriteFault::Write) => Err(HandlerError::Write),
        Err(WriteFault::OutOfMemory) => Err(HandlerError::OutOfMemory),
    }
}

fn write_play_text<O: LineOut>(output: &mut O, text: &[u8]) -> Result<(), HandlerError>
    ensures ok { OnOk result (Appends (O.written output.old) (O.written output.new) text.now) }
    ensures err { OnErr result ((k : ℕ) × Appends (O.written output.old) (O.written output.new) (take k text.now)) }
    ensures failed { RoseBy (one_if (is_write_fault result)) (O.failures output.old) (O.failures output.new) }
    ensures cause { IfErr result (λ fault. fault ≡ HandlerError.Write) }
{
    match write_all(output, text) {
        Ok(()) => Ok(()),
        Err(DeviceFault) => Err(HandlerError::Write),
    }
}

/// The text of each entry must have at most 8,400 bytes.
fn write_play_journal<O: LineOut>(
    alloc: Global,
    output: &mut O,
    entries: &[Entry],
) -> Result<(), HandlerError>
    requires { All (λ e. length (entry_text e) ≤ LINE_BYTES) entries.now }
    ensures ok { OnOk result (Appends (O.written output.old) (O.written output.new) (journal_text entries.now)) }
    ensures err { OnErr result
        ((k : ℕ) × Appends (O.written output.old) (O.written output.new) (take k (journal_text entries.now))) }
    ensures failed { RoseBy (one_if (is_write_fault result)) (O.failures output.old) (O.failures output.new) }
    ensures cause { IfErr result (λ fault. (fault ≡ HandlerError.Write) ⊎ (fault ≡ HandlerError.OutOfMemory)) }
    ensures memory { result ≡ Err HandlerError.OutOfMemory → output.new ≡ output.old }
{
    match write_entries(alloc, entries, output) {
        Ok(()) => Ok(()),
        Err(JournalFault::Device) => Err(HandlerError::Write),
        Err(JournalFault::BadEntry(_)) => Err(HandlerError::OutOfMemory),
        Err(JournalFault::Cut) => Err(HandlerError::OutOfMemory),
        Err(JournalFault::OutOfMemory) => Err(HandlerError::OutOfMemory),
    }
}

fn entries_of(site: &Site) -> &[Entry]
    ensures entries { result.now ≡ site.now.history }
    ensures journal { IsJournal site.now.config (journal_text site.now.history) }
    ensures short { All (λ e. length (entry_text e) ≤ LINE_BYTES) result.now }
{
    site.history()
}

fn moment_line(alloc: Global, moment: u64) -> Result<String, AllocError>
    ensures { IfOk result (λ text. string_bytes text ≡ moment_text moment) }
{
    format!(in alloc; "moment {moment}\n")
}

/// Returns the answer to `counter C`: its value and bound, or the fault `BadNumber` if there is no such counter.
fn counter_line(alloc: Global, counter: Option<(u64, u64)>) -> Result<String, AllocError>
    ensures { IfOk result (λ text. string_bytes text ≡ counter_text counter) }
{
    match counter {
        Some((value, bound)) => {
            let text = format!(in alloc; "counter {value} {bound}")?;
            format!(in alloc; "{text}\n")
        }
        None => {
            let fault = Answer::Line(LineFault::BadNumber);
            format!(in alloc; "{fault}\n")
        }
    }
}

fn look_line(alloc: Global, site: &Site, look: LookAt) -> Result<Vec<u8>, AllocError>
    ensures { IfOk result (λ text. IsLookText site.now look text.items) }
{
    let room = SightRoom::ready(alloc, look)?;
    let sight = Sight {
        entries: site.history().len() as u32,
        seen: site.see(room, DAY),
    };
    let mut text = Vec::new(alloc);
    put_sight(&mut text, &sight)?;
    Ok(text)
}

fn report<N: PlayNotices>(notices: &N, act: &Act, entered: Entered)
    requires { IsLoadRefusal act.now entered.answer entered.refusal }
    ensures { IfSome entered.refusal (λ refusal. N.reported notices.now act.now refusal) }
{
    if let Some(refusal) = entered.refusal {
        notices.refused_load(act, refusal);
    }
}

impl<N: PlayNotices> LineHandler<u64, Site> for Player<'_, N> {
    ghost answers_with = { λ _. AnswersScriptLine };

    // Only for want of memory is a line left without an answer, and then nothing has changed. A play keeps no journal
    // on a device, so `handle_line` never returns the error `Journal`.
    ghost drops = { λ _. drops_none };

    ghost needs_memory = { λ _. TakesMemory };

    fn alloc(&self) -> Global {
        self.alloc
    }

    fn handle_line<O: LineOut>(
        &self,
        line: &[u8],
        moment: &mut u64,
        site: &mut Site,
        output: &mut O,
    ) -> Result<(), HandlerError> {
        let alloc = self.alloc;
        self.notices.line_begins();
        match parse_script_line(alloc, line) {
            Ok(ScriptLine::Act(act)) => {
                let entered = enter(alloc, site, *moment, &act);
                report(self.notices, &act, entered);
                write_play_answer(alloc, output, &entered.answer)
            }
            Ok(ScriptLine::Moment(set)) => {
                let Ok(text) = moment_line(alloc, set) else {
                    return Err(HandlerError::OutOfMemory);
                };
                *moment = set;
                write_play_text(output, text.as_bytes())
            }
            Ok(ScriptLine::Counter(counter)) => {
                let Ok(text) = counter_line(alloc, site.counter(counter)) else {
                    return Err(HandlerError::OutOfMemory);
                };
                write_play_text(output, text.as_bytes())
            }
            Ok(ScriptLine::Look(look)) => {
                let Ok(text) = look_line(alloc, site, look) else {
                    return Err(HandlerError::OutOfMemory);
                };
                write_play_text(output, &text)
            }
            Ok(ScriptLine::Journal) => write_play_journal(alloc, output, entries_of(site)),
            Err(LineFault::OutOfMemory) => Err(HandlerError::OutOfMemory),
            Err(fault) => write_play_answer(alloc, output, &Answer::Line(fault)),
        }
    }
}
