//! Plays: runs of a script on a new site.
ghost use Rattle.std.specs.Prelude.{◌≤◌, [], IfErr, IsErrAnd, IsTrue, option_map};
ghost use Rattle.file_jobs.specs.StandardInput.{reads_twice};
ghost use Rattle.file_jobs.specs.JobErrors.{Ends, Refuses};
ghost use Rattle.file_jobs.specs.PlaysAndDays.{BreaksOff, IsPlayed};
ghost use Rattle.file_jobs.specs.Told.{SaysBreak, SaysPlayed, SaysStop};

use crate::answers::{Answers, Incoming, Outgoing};
use crate::files::{lines_in, name_of, stream, too_long};
use crate::playing::play_within;
use crate::progress::Progress;
use crate::refused_loads::RefusedLoads;
use crate::settings::{day_and, settings_in};
use crate::{FAILED, FileIn, JobError, Place, REFUSED, SiteFiles, Source};
use line_session::{Ended, READS, SessionFault};
use site_config::Settings;
use site_config::head::{config_part, read_head};
use site_core::Config;
use std::alloc::Global;
use std::io::{self, IsTerminal};
use till_request::LineFault;
use till_request::devices::{Ahead, StreamIn, StreamOut};

/// The input of a play: read from the device in blocks, and taken byte by byte.
type Script<'a, 'b, 'c> = Ahead<StreamIn<Incoming<'a, 'b, 'c>>>;

/// `lines` lines come before the script in the same input. `read` is the error of a failed read.
fn played(
    alloc: Global,
    ended: Result<Ended, SessionFault>,
    word: &str,
    lines: u64,
    read: Option<&io::Error>,
    answers: &Answers<'_>,
) -> Result<(), JobError>
    ensures played { IsPlayed ended result }
    ensures says { SaysPlayed word.now lines ended result }
{
    match ended {
        Ok(ended) => match ended.cut {
            None => Ok(()),
            Some(fault) => Err(stopped(alloc, word, lines.saturating_add(ended.lines), fault)),
        },
        Err(fault) => Err(broken_off(alloc, word, fault, read, answers)),
    }
}

/// Makes the error of a script that stopped at a line of over 8,400 bytes (L1), or at its last line, without LF (L4).
fn stopped(alloc: Global, word: &str, line: u64, fault: LineFault) -> JobError
    ensures ends { Ends 1 [] result }
    ensures says { SaysStop word.now line fault result }
{
    let place = Place::of(word).line(line);
    match fault {
        LineFault::TooLong => JobError::fault(alloc, place, &"over 8,400 bytes", "L1", REFUSED),
        LineFault::CutLine => {
            JobError::fault(alloc, place, &"the last line has no LF", "L4", REFUSED)
        }
        // These are no faults at which a script stops.
        LineFault::BadLine | LineFault::BadNumber | LineFault::OtherDoor | LineFault::OutOfMemory =>
            JobError::silent(alloc, REFUSED),
    }
}

/// Makes the error of a play that was broken off: a read (N1) or a write failed, or no more reads are allowed (N3).
fn broken_off(
    alloc: Global,
    word: &str,
    fault: SessionFault,
    read: Option<&io::Error>,
    answers: &Answers<'_>,
) -> JobError
    ensures breaks { BreaksOff fault result }
    ensures says { SaysBreak word.now fault result }
{
    let place = Place::of(word);
    match (fault, read) {
        (SessionFault::Read, Some(error)) => JobError::fault(alloc, place, error, "N1", FAILED),
        (SessionFault::Read, None) => JobError::fault(alloc, place, &fault, "N1", FAILED),
        (SessionFault::ReadsSpent, _) => JobError::fault(alloc, place, &fault, "N3", FAILED),
        (SessionFault::OutOfMemory, _) => JobError::OutOfMemory,
        // A play writes no journal, and no line of it ends a day.
        (SessionFault::Write | SessionFault::Journal | SessionFault::NextDay, _) => {
            answers.failure(alloc)
        }
    }
}

/// Plays a script on a new site. Standard input has the configuration, and then the script.
pub fn play_input(rt: &HostRuntime) -> Result<(), JobError>
    // proved: A play that isn't done has status 1 or 3
    ensures { IfErr result (Refuses 1) }
{
    let answers = Answers::new(rt)?;
    play_both(rt, &mut script_of(Source::input(rt), &answers, None))
}

fn play_both<'a>(rt: &'a HostRuntime, input: &mut Script<'a, '_, '_>) -> Result<(), JobError>
    ensures { IfErr result (Refuses 1) }
{
    let mut left = READS;
    match read_head(rt.alloc(), input, &mut left) {
        Ok(head) => {
            let settings = settings_before(rt, &head)?;
            play_script(rt, settings.config, "-", lines_in(&head), input, left)
        }
        Err(fault) => {
            let (fault, incoming) = (SessionFault::from(fault), &input.input.reader);
            let read = incoming.source.failure();
            Err(broken_off(rt.alloc(), "-", fault, read, incoming.answers))
        }
    }
}

/// Returns the settings in the bytes before a script: a configuration, and the line `---` if there is one.
fn settings_before(rt: &HostRuntime, head: &[u8]) -> Result<Settings, JobError>
    ensures { IfErr result (Refuses 1) }
{
    match config_part(head) {
        Some(text) => settings_in(rt, "-", text),
        None => Err(too_long(rt.alloc(), "-")),
    }
}

fn script_of<'a, 'b, 'c>(
    source: Source,
    answers: &'b Answers<'a>,
    progress: Option<&'c Progress<'a>>,
) -> Script<'a, 'b, 'c> {
    Ahead::new(stream(Incoming {
        source,
        answers,
        progress,
    }))
}

fn outlet<'a, 'b>(answers: &'b Answers<'a>) -> StreamOut<Outgoing<'a, 'b>> {
    StreamOut {
        writer: Outgoing { answers },
        failures: 0,
    }
}

/// Plays the script in the file that `script` names, on a new site.
pub fn play_files<'a>(
    rt: &'a HostRuntime,
    site: SiteFiles<'_>,
    script: &'a str,
) -> Result<(), JobError>
    ensures { IsTrue (reads_twice site.entry.config.now (option_map (λ w. w.now) site.entry.opening) script.now)
        → IsErrAnd result (Ends 2 []) }
{
    let (day, source) = day_and(rt, site, script)?;
    let answers = Answers::new(rt)?;
    // If the answers go to a terminal, no progress line is shown, since the two would be mixed.
    let is_silent = !rt.stdout().is_terminal();
    let progress = Progress::new(rt, is_silent, source.size());
    let mut input = script_of(source, &answers, Some(&progress));
    play_script(rt, day.config, script, 0, &mut input, READS)
}

/// `lines` lines come before the script in the same input.
fn play_script<'a>(
    rt: &'a HostRuntime,
    config: Config,
    word: &'a str,
    lines: u64,
    input: &mut Script<'a, '_, '_>,
    mut left: u32,
) -> Result<(), JobError>
    requires { left ≤ READS }
    ensures { IfErr result (Refuses 1) }
{
    let (answers, progress) = (input.input.reader.answers, input.input.reader.progress);
    let notices = RefusedLoads::new(rt, name_of(word), lines, progress);
    let mut output = outlet(answers);
    let ended = play_within(rt.alloc(), config, input, &mut output, &notices, &mut left);
    let ended = answers.end(ended);
    if let Some(progress) = progress {
        progress.clear();
    }
    played(
        rt.alloc(),
        ended,
        word,
        lines,
        input.input.reader.source.failure(),
        answers,
    )
}
