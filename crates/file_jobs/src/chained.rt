//! The audit of all days of a station.
ghost use Rattle.std.specs.Prelude.{◌≡◌, ◌≢◌, ◌-◌, ◌++◌, true, List, [], None, Some, IfSome, IfNone, IfOk, IfErr, IsErrAnd, codes};
ghost use Rattle.std.specs.Prelude.{length, option_map};
ghost use Rattle.std.specs.Fmt.{decimal};
ghost use Rattle.std.specs.Str.{IsUtf8};
ghost use Rattle.days.specs.Chain.{IsChain};
ghost use Rattle.days.specs.Given.{IsGiven};
ghost use Rattle.file_jobs.specs.StandardInput.{is_input};
ghost use Rattle.file_jobs.specs.Days.{FolderText, IsConfigOf, file_of, own_config};
ghost use Rattle.file_jobs.specs.JobErrors.{Ends, EndsOrRunsOut, Refuses};
ghost use Rattle.file_jobs.specs.PlaysAndDays.{RefusesBeginning, RefusesJournal, RefusesDays};
ghost use Rattle.file_jobs.specs.Told.{SaysDays, SaysFault, SaysOtherLine, SaysUnbegun, SaysUnfollowed};
ghost use Rattle.days.specs.EndedDays.{DayEnd};
ghost use Rattle.file_jobs.specs.Chained.{AgreeFor, AreLegal, AreTold, AreToldOf, IsOtherLine, NoConfigIsRefused, day_in, days_left};

use crate::day_watch::{DayWatch, UnwatchedDays};
use crate::files::{lines_in, text_of};
use crate::job_error::printed;
use crate::messages::print_message;
use crate::newest::{OfDay, UNOPENED, own_config, refuse_link, refuse_uncarried};
use crate::open_journals::to_last_lf;
use crate::opening::{opening_bytes, refuse_opening, refuse_unfit, refuse_words};
use crate::progress::{Watched, watch};
use crate::refused_journals::{refuse_entry, refuse_text};
use crate::settings::settings_in;
use crate::{DayFiles, FileIn, Folder, JobError, Part, Place, Span, day_after};
use days::chain::audit_days;
use days::{
    Cause, Chained, DayIn, DaysFault, DaysIn, NoDay, NoNextOpening, Unbegun, Unclosed, Unfollowed,
};
use site_core::{Config, Site};
use std::alloc::{AllocError, Global};
use std::fmt::{self, Display};
use std::str;
use till_request::devices::StreamIn;
use till_request::parts::first_part;

/// A day's journal, which shows a progress line as it is read.
pub(crate) type Journal<'a, R> = Watched<'a, StreamIn<R>>;

/// The days of a folder, read one after another.
#[derive(Drop)]
struct FolderIn<'a, F, W> {
    rt: &'a HostRuntime,
    folder: F,
    /// The configuration for the days that have none in the folder.
    config: Config,
    /// `None` after the newest day.
    next: Option<u32>,
    newest: u32,
    watch: W,
    /// Why a day couldn't be read, or its end couldn't be told.
    job_error: Option<JobError>,
}

impl<'a, F: DayFiles + Drop, W: DayWatch + Drop> FolderIn<'a, F, W> {
    fn day(
        &self,
        number: u32,
        seen: W::Seen,
    ) -> Result<DayIn<Journal<'a, F::File>, W::Seen>, JobError>
        ensures given { (texts : FolderText) → F.files self.now.folder ≡ Some texts
            → IfOk result (IsGiven (λ j. F.File.remaining j.input.reader) (day_in texts self.now.config number)) }
        ensures seen { IfOk result (λ day. day.seen ≡ seen) }
        ensures refused { IfErr result (Refuses 1) }
    {
        let config = config_of(self.rt, &self.folder, &self.config, number)?;
        let opening = opening_of(self.rt, &self.folder, number)?;
        let journal = self.journal(number)?;
        Ok(DayIn {
            config,
            opening,
            journal,
            seen,
        })
    }

    fn journal(&self, number: u32) -> Result<Option<Journal<'a, F::File>>, JobError>
        ensures text { (texts : FolderText) → F.files self.now.folder ≡ Some texts → IfOk result (λ journal.
            option_map (λ j. F.File.remaining j.input.reader) journal
            ≡ option_map (λ text. Some text) (file_of texts number Part.Journal)) }
        ensures refused { IfErr result (Ends 3 []) }
    {
        match self.folder.open(self.rt, number, Part::Journal)? {
            Some(source) => {
                let size = source.size();
                Ok(Some(watch(self.rt, source, size)))
            }
            None => Ok(None),
        }
    }
}

/// The configuration of a day: the folder's for it, or else `given`.
pub(crate) fn config_of<F: DayFiles>(
    rt: &HostRuntime,
    folder: &F,
    given: &Config,
    number: u32,
) -> Result<Config, JobError>
    ensures own { (texts : FolderText) → F.files folder.now ≡ Some texts
        → IfOk result (IsConfigOf given.now (own_config (file_of texts number Part.Config))) }
    ensures refused { IfErr result (Refuses 1) }
{
    match own_config(rt, folder, number)? {
        Some(own) => Ok(own),
        None => Ok(given.copied(rt.alloc())?),
    }
}

/// The bytes of the opening that a folder has for a day.
pub(crate) fn opening_of<F: DayFiles>(
    rt: &HostRuntime,
    folder: &F,
    number: u32,
) -> Result<Option<Vec<u8>>, JobError>
    ensures bytes { (texts : FolderText) → F.files folder.now ≡ Some texts → IfOk result (λ opening.
        option_map (λ bytes. bytes.items) opening ≡ file_of texts number Part.Opening) }
    ensures refused { IfErr result (Refuses 1) }
{
    let Some(source) = folder.open(rt, number, Part::Opening)? else {
        return Ok(None);
    };
    let path = folder.as_folder().file(rt, number, Part::Opening)?;
    match opening_bytes(rt, &path, source) {
        Ok(bytes) => Ok(Some(bytes)),
        Err(job_error) => Err(job_error),
    }
}

impl<'a, F: DayFiles + Drop, W: DayWatch + Drop> DaysIn for FolderIn<'a, F, W> {
    type Journal = Journal<'a, F::File>;

    type Seen = W::Seen;

    ghost use Rattle.std.specs.Prelude.{IsSome, option_map};
    ghost use Rattle.file_jobs.specs.Chained.{days_left};

    ghost remaining = { λ s. option_map (λ texts. days_left texts s.config s.next s.newest) (F.files s.folder) };

    ghost failed = { λ s. IsSome s.job_error };

    ghost was_told = { λ s ends. W.was_told s.watch ends };

    fn next_day(&mut self) -> Result<Option<DayIn<Journal<'a, F::File>, W::Seen>>, NoDay> {
        let Some(number) = self.next else {
            return Ok(None);
        };
        self.next = day_after(number, self.newest);
        let Ok(seen) = self.watch.begin_day(self.rt.alloc(), number) else {
            self.job_error = Some(JobError::OutOfMemory);
            return Err(NoDay);
        };
        match self.day(number, seen) {
            Ok(day) => Ok(Some(day)),
            Err(job_error) => {
                self.job_error = Some(job_error);
                Err(NoDay)
            }
        }
    }

    fn end_day(&mut self, number: u32, site: &Site, seen: W::Seen) -> Result<(), NoDay> {
        match self.watch.end_day(number, site, seen) {
            Ok(()) => Ok(()),
            Err(job_error) => {
                self.job_error = Some(job_error);
                Err(NoDay)
            }
        }
    }
}

/// Audits all days of the folder that `path` names, and prints that they are legal. `word` names the configuration for
/// the days that have none in the folder.
pub fn audit_folder(rt: &HostRuntime, path: &str, word: &str) -> Result<(), JobError>
    // proved: An audit of all days wants a folder: status 2
    ensures { is_input path.now ≡ true → IsErrAnd result (Ends 2 []) }
{
    let folder = Folder::named(rt, path)?;
    let text = text_of(rt, word)?;
    let settings = settings_in(rt, word, &text)?;
    match audit_in(rt, folder, settings.config) {
        Ok(chained) => printed(rt.alloc(), println!(rt; "{chained}")),
        Err(job_error) => Err(job_error),
    }
}

/// Audits all days of a folder, from its oldest to its newest, with `config` for the days that have none in the folder.
pub fn audit_in<F: DayFiles + Drop>(
    rt: &HostRuntime,
    folder: F,
    config: Config,
) -> Result<Chained, JobError>
    // proved: Each day has its own files | another_days_configuration_is_audited
    ensures legal { (texts : FolderText) → F.files folder ≡ Some texts → IfOk result (AreLegal texts config) }
    // proved: No day's configuration is refused
    ensures configs { (texts : FolderText) → F.files folder ≡ Some texts → IfOk result (λ _. NoConfigIsRefused texts) }
{
    match watch_in(rt, folder, config, UnwatchedDays) {
        Ok(audited) => Ok(audited.chained),
        Err(job_error) => Err(job_error),
    }
}

/// What an audit of all days of a folder gave, and what watched it.
#[derive(Drop)]
pub struct WatchedDays<W> {
    pub chained: Chained,
    pub watch: W,
}

/// Audits all days of a folder like `audit_in`. `watch` is shown each of their entries, and told the end of each day.
pub fn watch_in<F: DayFiles + Drop, W: DayWatch + Drop>(
    rt: &HostRuntime,
    folder: F,
    config: Config,
    watch: W,
) -> Result<WatchedDays<W>, JobError>
    ensures legal { (texts : FolderText) → F.files folder ≡ Some texts
        → IfOk result (λ audited. AreLegal texts config audited.chained) }
    ensures configs { (texts : FolderText) → F.files folder ≡ Some texts → IfOk result (λ _. NoConfigIsRefused texts) }
    // proved: What watches is told the end of each day | file_jobs/watched_days_are_not_told
    ensures told { (texts : FolderText) → F.files folder ≡ Some texts → (before : List DayEnd) → W.was_told watch before
        → IfOk result (λ audited. AreTold texts config (W.was_told audited.watch) before) }
{
    match folder.span(rt)? {
        Some(span) => watch_span(rt, folder, config, watch, span),
        None => Err(refuse_folder(rt.alloc(), folder.as_folder())),
    }
}

pub(crate) fn print_oldest(rt: &HostRuntime, folder: Folder<'_>, oldest: u32) {
    if oldest > 1 {
        let path = folder.path;
        print_message(
            rt,
            &format_args!(
                "{path}: the oldest day is {oldest}, and what it begins with is not compared"
            ),
        );
    }
}

fn watch_span<F: DayFiles + Drop, W: DayWatch + Drop>(
    rt: &HostRuntime,
    folder: F,
    config: Config,
    watch: W,
    span: Span,
) -> Result<WatchedDays<W>, JobError>
    ensures chain { (texts : FolderText) → F.files folder ≡ Some texts → IfOk result (λ audited.
        IsChain span.oldest (days_left texts config (Some span.oldest) span.newest) audited.chained.entries) }
    ensures days { (texts : FolderText) → F.files folder ≡ Some texts → IfOk result (λ audited.
        audited.chained.days ≡ length (days_left texts config (Some span.oldest) span.newest)) }
    ensures told { (texts : FolderText) → F.files folder ≡ Some texts → (before : List DayEnd) → W.was_told watch before
        → IfOk result (λ audited. AreToldOf span texts config (W.was_told audited.watch) before) }
{
    print_oldest(rt, folder.as_folder(), span.oldest);
    let mut days = FolderIn {
        rt,
        folder,
        config,
        next: Some(span.oldest),
        newest: span.newest,
        watch,
        job_error: None,
    };
    match audit_days(rt.alloc(), span.oldest, &mut days) {
        Ok(chained) => Ok(WatchedDays {
            chained,
            watch: days.watch,
        }),
        Err(fault) => {
            let FolderIn {
                folder,
                job_error,
                ..
            } = days;
            Err(refuse_days(rt, folder.as_folder(), job_error, fault)?)
        }
    }
}

/// Makes the error for days at which an audit stopped. `job_error` is why a day couldn't be read, or its end couldn't be
/// told.
pub(crate) fn refuse_days<R: FileIn + Drop>(
    rt: &HostRuntime,
    folder: Folder<'_>,
    job_error: Option<JobError>,
    fault: DaysFault<Journal<'_, R>>,
) -> Result<JobError, AllocError>
    ensures { IfOk result (RefusesDays fault.entry.day fault.entry.cause job_error) }
{
    let DaysFault { day, cause } = fault;
    let opening = folder.file(rt, day, Part::Opening)?;
    let journal = folder.file(rt, day, Part::Journal)?;
    let paths = (opening.as_str(), journal.as_str());
    Ok(refuse_cause(rt, folder, job_error, day, paths, cause))
}

/// `paths` names the day's opening and its journal.
fn refuse_cause<R: FileIn + Drop>(
    rt: &HostRuntime,
    folder: Folder<'_>,
    job_error: Option<JobError>,
    day: u32,
    paths: (&str, &str),
    cause: Cause<Journal<'_, R>>,
) -> JobError
    ensures ends { RefusesDays day cause.entry job_error result }
    ensures says { SaysDays paths.entry.0.now paths.entry.1.now day cause.entry result }
{
    let (opening, journal) = paths;
    let alloc = rt.alloc();
    match cause {
        // Never here: the folder had a day when it was read.
        Cause::NoDays => refuse_folder(alloc, folder),
        Cause::Unread | Cause::Untold => job_error.unwrap_or(JobError::OutOfMemory),
        Cause::NoNextOpening(NoNextOpening::NoJournal) => { refuse_missing(alloc, journal, day) }
        Cause::NoNextOpening(NoNextOpening::Uncarried(why)) => {
            refuse_uncarried(alloc, journal, why)
        }
        Cause::Unfollowed(why) => refuse_unfollowed(alloc, opening, day, why),
        Cause::Unbegun(why) => refuse_unbegun(alloc, opening, day, why),
        Cause::Unclosed(why) => refuse_unclosed(alloc, journal, why),
    }
}

fn refuse_missing(alloc: Global, journal: &str, day: u32) -> JobError
    ensures ends { EndsOrRunsOut 1 (codes "O1 " ++ (decimal day ++ codes "\n")) result }
    ensures says { SaysFault journal.now None (codes "the day has no journal") (codes "O1") result }
{
    refuse_link(alloc, Place::of(journal), day, &"the day has no journal")
}

fn refuse_folder(alloc: Global, folder: Folder<'_>) -> JobError
    ensures { Ends 1 [] result }
{
    refuse_words(alloc, folder.path, &"no day is here")
}

fn refuse_unfollowed(alloc: Global, opening: &str, day: u32, why: Unfollowed) -> JobError
    ensures ends { EndsOrRunsOut 1 (codes "O1 " ++ (decimal day ++ codes "\n")) result }
    ensures says { SaysUnfollowed opening.now day why result }
{
    match why {
        Unfollowed::NoOpening(_left) => refuse_link(alloc, Place::of(opening), day, &UNOPENED),
        Unfollowed::OtherOpening(bytes, left) => {
            let (number, line) = other_line(&bytes, left.as_bytes());
            refuse_line(alloc, opening, day, number, line)
        }
    }
}

/// Makes the error for an opening whose line `number` should be `line`.
fn refuse_line(alloc: Global, opening: &str, day: u32, number: u64, line: &[u8]) -> JobError
    ensures ends { EndsOrRunsOut 1 (codes "O1 " ++ (decimal day ++ codes "\n")) result }
    ensures says { SaysOtherLine opening.now day number line.now result }
{
    match left_line(day, line) {
        Some(left) => refuse_link(alloc, Place::of(opening).line(number), day, &left),
        None => refuse_lacking(alloc, opening, day, number),
    }
}

fn refuse_lacking(alloc: Global, opening: &str, day: u32, number: u64) -> JobError
    ensures ends { EndsOrRunsOut 1 (codes "O1 " ++ (decimal day ++ codes "\n")) result }
    ensures says { SaysFault opening.now (Some number) (codes "the day before left no such line") (codes "O1") result }
{
    let place = Place::of(opening).line(number);
    refuse_link(alloc, place, day, &"the day before left no such line")
}

/// Returns the message for a line that day `day` should begin with, or `None` if it is empty or isn't UTF-8.
fn left_line(day: u32, line: &[u8]) -> Option<Left<'_>>
    ensures left { IfSome result (λ left. (left.0 ≡ day - 1) × (left.1.now ≡ line.now) × (line.now ≢ [])) }
    ensures none { IfNone result (IsUtf8 line.now → line.now ≡ []) }
{
    match str::from_utf8(line) {
        Ok(text) => {
            if text.is_empty() {
                return None;
            }
            Some(Left(day.saturating_sub(1), text))
        }
        Err(_) => None,
    }
}

/// The message `day 3 left 'LINE' here`.
#[derive(Drop)]
struct Left<'a>(u32, &'a str);

impl Display for Left<'_> {
    ghost use Rattle.std.specs.Prelude.{Some, ◌++◌, codes};
    ghost use Rattle.std.specs.Fmt.{decimal};

    ghost output = { λ left. Some (codes "day " ++ (decimal left.0 ++ (codes " left '" ++ (left.1.now ++ codes
        "' here")))) };

    fn fmt<W: fmt::Write>(&self, f: &mut fmt::Formatter<W>) -> fmt::Result {
        write!(f, "day {} left '{}' here", self.0, self.1)
    }
}

/// Returns the number, counted from 1, of the first line in which `text` differs from `left`, and this line of `left`
/// without its LF; it is empty if `left` has no such line.
fn other_line<'a>(text: &[u8], left: &'a [u8]) -> (u64, &'a [u8])
    ensures { IsOtherLine text.now left.now result.0 result.1.now }
{
    let same = same_len(text, left);
    let number = lines_in(&left[..same]).saturating_add(1);
    let start = to_last_lf(&left[..same]);
    (number, first_part(&left[start..], b'\n').0)
}

fn same_len(text: &[u8], left: &[u8]) -> usize
    ensures { AgreeFor text.now left.now result }
{
    for (at, byte) in left.iter().enumerate() {
        if at == text.len() {
            return at;
        }
        if text[at] != *byte {
            return at;
        }
    }
    left.len()
}

fn refuse_unbegun(alloc: Global, opening: &str, day: u32, why: Unbegun) -> JobError
    ensures refuses { RefusesBeginning day why result }
    ensures says { SaysUnbegun opening.now why result }
{
    let place = Place::of(opening);
    match why {
        Unbegun::NoOpening => refuse_link(alloc, place, day, &UNOPENED),
        Unbegun::HasOpening => refuse_link(alloc, place, day, &"the first day has no opening"),
        Unbegun::Flawed(flaw) => refuse_opening(alloc, opening, flaw),
        Unbegun::OtherDay(other) => refuse_link(alloc, place, day, &OfDay(other)),
        Unbegun::Unfit(unfit) => refuse_unfit(alloc, opening, unfit),
    }
}

fn refuse_unclosed<R: FileIn + Drop>(
    alloc: Global,
    path: &str,
    why: Unclosed<Journal<'_, R>>,
) -> JobError
    ensures { RefusesJournal why.entry result }
{
    match why {
        Unclosed::Text(journal, fault) => {
            journal.progress.clear();
            refuse_text(alloc, path, fault, journal.input.reader.failure())
        }
        Unclosed::History(flaw) => refuse_entry(alloc, path, flaw),
        Unclosed::OutOfMemory => JobError::OutOfMemory,
    }
}
