//! Reads the opening that a site begins with, and says why one is refused.
ghost use Rattle.std.specs.Prelude.{◌≡◌, ◌≢◌, ◌≤◌, ◌++◌, ◌∷◌, ℕ, List, [], None, Some, decimal, length, IfOk, IfErr, IfSome, vec_len};
ghost use Rattle.verifier.specs.Refusals.{refusal_numbers};
ghost use Rattle.file_jobs.specs.AuditOutput.{program_text};
ghost use Rattle.days.specs.Chain.{BeginsBy};
ghost use Rattle.site_core.specs.Limits.{ConfigValue};
ghost use Rattle.days.specs.File.{IsOpeningFile};
ghost use Rattle.days.specs.Fitting.{BeginsWith};
ghost use Rattle.days.specs.Flaws.{HasNoOpening, IsOnly};
ghost use Rattle.days.specs.Ranges.{FileFits};
ghost use Rattle.days.specs.Text.{opening_text};
ghost use Rattle.days.specs.Words.{unfit_text};
ghost use Rattle.file_jobs.specs.JobErrors.{Ends, EndsOrRunsOut, Refuses, SaysOf};
ghost use Rattle.file_jobs.specs.FileRefusals.{IsUnreadFile, RefusesOpening};
ghost use Rattle.file_jobs.specs.Told.{SaysFault, SaysOpening, SaysRule};
ghost use Rattle.file_jobs.specs.Days.{BeginsDay};

use crate::JournalFlaw;
use crate::audit_lines::refused_program_line;
use crate::files::bytes_in;
use crate::job_error::JobError;
use crate::messages::Place;
use crate::reasons::explain_refusal;
use crate::statuses::REFUSED;
use days::beginning::begun;
use days::reading::read_opening;
use days::{OpeningFile, OpeningFlaw, Unfit};
use site_config::Serve;
use site_core::{Config, OpeningFault};
use std::alloc::Global;
use std::fmt::Display;
use std::io::Read;
use verifier::Refusal;

/// The most bytes of an opening's file. One with the longest programs has some 150,000.
const MOST_OPENING: usize = 262_144;

/// What was read of a day before its site begins: its configuration, with the opening in it, if there is one. Without
/// an opening it is day 1.
#[derive(Drop)]
pub struct Day {
    pub config: Config,
    pub serve: Option<Serve>,
    pub number: u32,
}

/// Returns `config` with the opening in the file that `word` names, which `source` reads, and the opening's day.
pub(crate) fn begin_with<R: Read + Drop>(
    rt: &HostRuntime,
    word: &str,
    source: R,
    config: Config,
) -> Result<(Config, u32), JobError>
    ensures begun { IfOk result (λ begun. BeginsDay config begun.1 begun.0) }
    ensures text { (text : List ℕ) → R.remaining source ≡ Some text
        → IfOk result (λ begun. BeginsBy begun.1 config (Some text) begun.0) }
    ensures day { (text : List ℕ) (day : ℕ) (begun : ConfigValue) → R.remaining source ≡ Some text
        → BeginsBy day config (Some text) begun → IfOk result (λ begun. begun.1 ≡ day) }
    ensures none { (text : List ℕ) (day : ℕ) (begun : ConfigValue) → R.remaining source ≡ Some text
        → length text ≤ MOST_OPENING → BeginsBy day config (Some text) begun → IfErr result (Ends 3 []) }
    ensures refused { IfErr result (Refuses 1) }
{
    let file = opening_in(rt, word, source)?;
    let number = file.day;
    match begun(rt.alloc(), config, file.opening) {
        Ok(config) => Ok((config, number)),
        Err(unfit) => Err(refuse_unfit(rt.alloc(), word, unfit)),
    }
}

pub fn opening_bytes<R: Read + Drop>(
    rt: &HostRuntime,
    word: &str,
    source: R,
) -> Result<Vec<u8>, JobError>
    ensures limit { MOST_OPENING ≡ 262144 }
    // proved few, refused: An opening has at most 262,144
    ensures few { IfOk result (λ bytes. vec_len bytes ≤ MOST_OPENING) }
    ensures all { (text : List ℕ) → R.remaining source ≡ Some text → IfOk result (λ bytes. bytes.items ≡ text) }
    ensures short { (text : List ℕ) → R.remaining source ≡ Some text → length text ≤ MOST_OPENING
        → IfErr result (Ends 3 []) }
    ensures read { IfErr result IsUnreadFile }
    ensures refused { IfErr result (Refuses 1) }
{
    bytes_in(rt, word, source, MOST_OPENING, &"over 262,144 bytes")
}

pub(crate) fn opening_in<R: Read + Drop>(
    rt: &HostRuntime,
    word: &str,
    source: R,
) -> Result<OpeningFile, JobError>
    ensures good { IfOk result IsOpeningFile }
    ensures fits { IfOk result FileFits }
    ensures text { (text : List ℕ) → R.remaining source ≡ Some text → IfOk result (λ file. opening_text file ≡ text) }
    ensures only { (text : List ℕ) → R.remaining source ≡ Some text → IfOk result (IsOnly text) }
    ensures none { (text : List ℕ) → R.remaining source ≡ Some text → length text ≤ MOST_OPENING
        → ¬ HasNoOpening text → IfErr result (Ends 3 []) }
    ensures refused { IfErr result (Refuses 1) }
{
    let bytes = opening_bytes(rt, word, source)?;
    match read_opening(rt.alloc(), &bytes) {
        Ok(file) => Ok(file),
        Err(flaw) => Err(refuse_opening(rt.alloc(), word, flaw)),
    }
}

/// Makes the error for a refused opening: a line is wrong or missing (J1), the last one has no LF (J2), or a program is
/// refused (F2). Behind the fault's number stand the line's and, for a program, the verifier's fault.
pub fn refuse_opening(alloc: Global, word: &str, flaw: OpeningFlaw) -> JobError
    // proved refused, status: So is a text that is no opening
    ensures refused { RefusesOpening flaw result }
    ensures status { Refuses 1 result }
    // proved: Its message names the line and the fault
    ensures says { SaysOpening word.now flaw result }
{
    match flaw {
        OpeningFlaw::BadLine(line) => refuse_line(alloc, word, line, "no line of an opening", "J1"),
        OpeningFlaw::Ends(line) => {
            let words = "the opening ends before its line 'journal'";
            refuse_line(alloc, word, line, words, "J1")
        }
        OpeningFlaw::CutLine(line) => {
            refuse_line(alloc, word, line, "the last line has no LF", "J2")
        }
        OpeningFlaw::BadProgram {
            line,
            slot,
            program,
            refusal,
        } => refuse_rule(alloc, word, line, slot, &program, refusal),
        OpeningFlaw::OutOfMemory => JobError::OutOfMemory,
    }
}

fn refuse_line(alloc: Global, word: &str, line: u32, words: &str, code: &str) -> JobError
    ensures ends { EndsOrRunsOut 1 (code.now ++ 32 ∷ decimal line ++ 10 ∷ []) result }
    ensures says { SaysFault word.now (Some line) words.now code.now result }
{
    let place = Place::of(word).line(u64::from(line));
    JobError::refused_as(alloc, place, &words, code, &format_args!("{code} {line}"))
}

fn refuse_rule(
    alloc: Global,
    word: &str,
    line: u32,
    slot: u32,
    program: &[u8],
    refusal: Refusal,
) -> JobError
    ensures ends { EndsOrRunsOut 1 (program_text line (refusal_numbers refusal)) result }
    ensures says { SaysRule word.now line slot program.now refusal result }
{
    let place = Place::of(word).line(u64::from(line));
    let Ok(output) = refused_program_line(alloc, line, refusal) else {
        return JobError::OutOfMemory;
    };
    match explain_refusal(alloc, program, refusal) {
        Ok(refused) => {
            let words = JournalFlaw::Program(slot, refused);
            JobError::refused_with(alloc, place, &words, "F2", output)
        }
        Err(refused) => JobError::from(refused),
    }
}

/// Makes the error for an opening with which a site of a given configuration can't begin.
pub fn refuse_unfit(alloc: Global, word: &str, unfit: Unfit) -> JobError
    // proved ends, memory: An opening that doesn't fit has status 1, unless memory ran out
    ensures ends { unfit ≢ Unfit.Fault OpeningFault.OutOfMemory → Ends 1 [] result }
    ensures memory { unfit ≡ Unfit.Fault OpeningFault.OutOfMemory → result ≡ JobError.OutOfMemory }
    // proved: Its message says why
    ensures says { SaysOf word.now None (unfit_text unfit) result }
{
    match unfit {
        Unfit::Misfit(misfit) => refuse_words(alloc, word, &misfit),
        Unfit::Fault(fault) => refuse_fault(alloc, word, fault, &fault),
    }
}

pub(crate) fn refuse_fault<D: Display>(
    alloc: Global,
    word: &str,
    fault: OpeningFault,
    words: &D,
) -> JobError
    ensures ends { fault ≢ OpeningFault.OutOfMemory → Ends 1 [] result }
    ensures memory { fault ≡ OpeningFault.OutOfMemory → result ≡ JobError.OutOfMemory }
    ensures says { IfSome (D.output words.now) (λ text. SaysOf word.now None text result) }
{
    match fault {
        OpeningFault::OutOfMemory => JobError::OutOfMemory,
        OpeningFault::Points
        | OpeningFault::Prices
        | OpeningFault::Transactions
        | OpeningFault::Cleared
        | OpeningFault::Clears
        | OpeningFault::Versions
        | OpeningFault::Slots
        | OpeningFault::Rules
        | OpeningFault::DuplicateVersion => refuse_words(alloc, word, words),
    }
}

/// Makes the error for a file in which `words` say what is wrong, with no number and nothing on standard output.
pub fn refuse_words<D: Display>(alloc: Global, word: &str, words: &D) -> JobError
    ensures ends { Ends 1 [] result }
    ensures says { IfSome (D.output words.now) (λ text. SaysOf word.now None text result) }
{
    JobError::at(alloc, Place::of(word), words, REFUSED)
}
