//! Why a journal is refused or can't be read.
ghost use Rattle.std.specs.Prelude.{◌≡◌, ⊤, Ok, IfErr, IsErrAnd, MatchResult};
ghost use Rattle.file_jobs.specs.AuditOutput.{line_of_flaw};
ghost use Rattle.file_jobs.specs.JobErrors.{EndsOrRunsOut, Refuses};
ghost use Rattle.file_jobs.specs.FileRefusals.{RefusesText};
ghost use Rattle.file_jobs.specs.Told.{SaysEntry, SaysText, flaw_code};

use crate::audit_lines::line_of_flaw;
use crate::job_error::JobError;
use crate::journal_reasons::explained;
use crate::messages::Place;
use crate::statuses::FAILED;
use decision_journal::JournalFault;
use site_core::EntryFlaw;
use std::alloc::Global;
use std::io;

/// Returns what the audit of a journal gave, or why it is refused. `failure` is the system's error of the last failed
/// read.
pub fn audited<T>(
    alloc: Global,
    word: &str,
    audit: Result<Result<T, EntryFlaw>, JournalFault>,
    failure: Option<&io::Error>,
) -> Result<T, JobError>
    // proved audited, status: So an audit's result is handed on, or refused
    ensures audited { MatchResult audit
        (λ found. MatchResult found (λ value. result ≡ Ok value) (λ flaw. IsErrAnd result (EndsOrRunsOut 1 (line_of_flaw flaw))))
        (λ fault. IsErrAnd result (RefusesText fault)) }
    ensures status { IfErr result (Refuses 1) }
    ensures says { MatchResult audit
        (λ found. MatchResult found (λ _. ⊤) (λ flaw. IsErrAnd result (SaysEntry word.now flaw)))
        (λ fault. IsErrAnd result (SaysText word.now fault)) }
{
    match audit {
        Ok(Ok(value)) => Ok(value),
        Ok(Err(flaw)) => Err(refuse_entry(alloc, word, flaw)),
        Err(fault) => Err(refuse_text(alloc, word, fault, failure)),
    }
}

pub fn refuse_text(
    alloc: Global,
    word: &str,
    fault: JournalFault,
    failure: Option<&io::Error>,
) -> JobError
    // proved refused, status: A text that is no journal is refused by its fault
    ensures refused { RefusesText fault result }
    ensures status { Refuses 1 result }
    // proved: Its message names the fault
    ensures says { SaysText word.now fault result }
{
    let place = Place::of(word);
    match fault {
        JournalFault::BadEntry(line) => {
            let place = place.line(u64::from(line));
            JobError::refused_as(alloc, place, &fault, "J1", &format_args!("J1 {line}"))
        }
        JournalFault::Cut => JobError::refused(alloc, place, &fault, "J2"),
        JournalFault::Device => match failure {
            Some(error) => JobError::fault(alloc, place, error, "J3", FAILED),
            None => JobError::fault(alloc, place, &fault, "J3", FAILED),
        },
        JournalFault::OutOfMemory => JobError::OutOfMemory,
    }
}

fn code_of(flaw: &EntryFlaw) -> &'static str
    ensures { result.now ≡ flaw_code flaw.now }
{
    match flaw {
        EntryFlaw::Number { .. } => "F1",
        EntryFlaw::Program { .. } => "F2",
        EntryFlaw::Entry { .. } | EntryFlaw::Full { .. } => "F3",
    }
}

/// The line on standard output begins with the fault's number and the entry's place, counted from 1, as in `F3 5`.
pub fn refuse_entry(alloc: Global, word: &str, flaw: EntryFlaw) -> JobError
    // proved: A history that no site can have has status 1, and its first flaw's line
    ensures refused { EndsOrRunsOut 1 (line_of_flaw flaw) result }
    // proved: Its message has place, reason and number | another_faults_number_is_told
    ensures says { SaysEntry word.now flaw result }
{
    let code = code_of(&flaw);
    let Ok(output) = line_of_flaw(alloc, &flaw) else {
        return JobError::OutOfMemory;
    };
    match explained(alloc, flaw) {
        Ok((line, words)) => {
            let place = Place::of(word).line(u64::from(line));
            JobError::refused_with(alloc, place, &words, code, output)
        }
        Err(refused) => JobError::from(refused),
    }
}
