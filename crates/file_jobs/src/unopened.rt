//! Why a journal is refused that was read without an opening: it may be one of a later day.
ghost use Rattle.std.specs.Prelude.{◌≡◌, false, true, ⊤, Ok, IfErr, IsErrAnd, MatchResult};
ghost use Rattle.file_jobs.specs.AuditOutput.{line_of_flaw};
ghost use Rattle.file_jobs.specs.JobErrors.{EndsOrRunsOut, Refuses};
ghost use Rattle.file_jobs.specs.FileRefusals.{RefusesText};
ghost use Rattle.file_jobs.specs.Told.{SaysEntry, SaysText};
ghost use Rattle.file_jobs.specs.Unopened.{SaysUnopened, are_explained, depends_on_opening, is_later, is_refused_by_opening};
ghost use Rattle.file_jobs.specs.Unopened.{are_of_another_day, is_refused_for_all_days, opening_explains, shows_point, version_named};

use crate::job_error::JobError;
use crate::messages::Place;
use crate::refused_journals::{audited, refuse_entry, refuse_text};
use decision_journal::JournalFault;
use site_core::{Difference, EntryFlaw};
use std::alloc::Global;
use std::{fmt, io};
use till_request::Reply;

/// A difference that an opening explains.
#[derive(Clone, Copy)]
struct Unopened(Difference);

impl fmt::Display for Unopened {
    ghost use Rattle.std.specs.Prelude.{Some};
    ghost use Rattle.file_jobs.specs.Unopened.{unopened_text};

    ghost output = { λ unopened. Some (unopened_text unopened.0) };

    fn fmt<W: fmt::Write>(&self, f: &mut fmt::Formatter<W>) -> fmt::Result {
        write!(f, "{}; a later day is read with --opening", self.0)
    }
}

fn depends_on_opening(number: u32) -> bool
    ensures { result ≡ depends_on_opening number }
{
    (number == 22 || number == 23)
        || ((26 <= number && number <= 28) || (number == 33 || number == 34))
}

fn is_refused_by_opening(reply: &Reply) -> bool
    ensures { result ≡ is_refused_by_opening reply.now }
{
    match *reply {
        Reply::Refused(number, _) => depends_on_opening(number),
        _ => false,
    }
}

fn version_named(reply: &Reply) -> Option<u32>
    ensures { result ≡ version_named reply.now }
{
    match *reply {
        Reply::Version(version) => Some(version),
        Reply::Granted(_, version) => Some(version),
        Reply::Refused(number, part) => { if number == 24 { part } else { None } }
        _ => None,
    }
}

fn is_later(journal: Option<u32>, site: Option<u32>) -> bool
    ensures { result ≡ is_later journal site }
{
    match (journal, site) {
        (Some(later), Some(version)) => version < later,
        _ => false,
    }
}

fn shows_point(reply: &Reply) -> bool
    ensures { result ≡ shows_point reply.now }
{
    match *reply {
        Reply::Point { .. } => true,
        _ => false,
    }
}

fn is_refused_for_all_days(reply: &Reply) -> bool
    ensures { result ≡ is_refused_for_all_days reply.now }
{
    match *reply {
        Reply::Refused(number, _) => {
            (number == 20 || number == 21) || (number == 25 || number == 32)
        }
        _ => false,
    }
}

fn are_explained(journal: &Reply, site: &Reply) -> bool
    ensures { result ≡ are_explained journal.now site.now }
{
    if is_refused_for_all_days(journal) || is_refused_for_all_days(site) {
        return false;
    }
    are_of_another_day(journal, site)
}

fn are_of_another_day(journal: &Reply, site: &Reply) -> bool
    ensures { result ≡ are_of_another_day journal.now site.now }
{
    (is_refused_by_opening(journal) || is_refused_by_opening(site))
        || (is_later(version_named(journal), version_named(site))
            || (shows_point(journal) && shows_point(site)))
}

/// Returns whether an opening may explain the first difference between a journal and the site.
fn opening_explains(difference: &Difference) -> bool
    ensures { result ≡ opening_explains difference.now }
{
    match difference {
        Difference::Reply(journal, site) => are_explained(journal, site),
        _ => false,
    }
}

fn refuse_difference(alloc: Global, word: &str, place: u32, difference: Difference) -> JobError
    ensures refused { EndsOrRunsOut 1 (line_of_flaw (EntryFlaw.Entry place difference)) result }
    ensures says { SaysUnopened word.now (EntryFlaw.Entry place difference) result }
{
    if !opening_explains(&difference) {
        return refuse_entry(alloc, word, EntryFlaw::Entry { place, difference });
    }
    let at = Place::of(word).line(u64::from(place));
    JobError::refused_as(
        alloc,
        at,
        &Unopened(difference),
        "F3",
        &format_args!("F3 {place}"),
    )
}

fn refuse_unopened(alloc: Global, word: &str, flaw: EntryFlaw) -> JobError
    ensures refused { EndsOrRunsOut 1 (line_of_flaw flaw) result }
    ensures says { SaysUnopened word.now flaw result }
{
    match flaw {
        EntryFlaw::Entry { place, difference } => refuse_difference(alloc, word, place, difference),
        EntryFlaw::Number { .. } | EntryFlaw::Program { .. } | EntryFlaw::Full { .. } => {
            refuse_entry(alloc, word, flaw)
        }
    }
}

/// Returns what the audit of a journal gave, like `audited`. If it was read without an opening, and an opening explains
/// why it is refused, the message says so.
pub fn audited_by<T>(
    alloc: Global,
    word: &str,
    is_opened: bool,
    audit: Result<Result<T, EntryFlaw>, JournalFault>,
    failure: Option<&io::Error>,
) -> Result<T, JobError>
    ensures audited { MatchResult audit
        (λ found. MatchResult found (λ value. result ≡ Ok value) (λ flaw. IsErrAnd result (EndsOrRunsOut 1 (line_of_flaw flaw))))
        (λ fault. IsErrAnd result (RefusesText fault)) }
    ensures status { IfErr result (Refuses 1) }
    ensures text { MatchResult audit (λ _. ⊤) (λ fault. IsErrAnd result (SaysText word.now fault)) }
    ensures opened { is_opened ≡ true → MatchResult audit
        (λ found. MatchResult found (λ _. ⊤) (λ flaw. IsErrAnd result (SaysEntry word.now flaw))) (λ _. ⊤) }
    // proved: Of a later day's journal it says that an opening is wanted
    ensures unopened { is_opened ≡ false → MatchResult audit
        (λ found. MatchResult found (λ _. ⊤) (λ flaw. IsErrAnd result (SaysUnopened word.now flaw))) (λ _. ⊤) }
{
    if is_opened {
        return audited(alloc, word, audit, failure);
    }
    match audit {
        Ok(Ok(value)) => Ok(value),
        Ok(Err(flaw)) => Err(refuse_unopened(alloc, word, flaw)),
        Err(fault) => Err(refuse_text(alloc, word, fault, failure)),
    }
}
