//! Closes the newest day of a station, or goes on with it.
ghost use Rattle.std.specs.Prelude.{◌≡◌, ◌≢◌, ◌≤◌, ◌⊎◌, ◌+◌, ◌++◌, ℕ, List, Ok, None, Some, [], false, length, IfOk, IfErr, IfSome, MatchOption};
ghost use Rattle.std.specs.Prelude.{codes, is_some, option_map, string_bytes};
ghost use Rattle.std.specs.Fmt.{decimal};
ghost use Rattle.file_jobs.specs.JobErrors.{Ends, EndsOrRunsOut, Refuses, Says, SaysOf, numbered_words, words_at};
ghost use Rattle.days.specs.Chain.{BeginsBy, next_opening};
ghost use Rattle.site_core.specs.Limits.{ConfigValue};
ghost use Rattle.days.specs.Text.{opening_text};
ghost use Rattle.days.specs.Words.{uncarried_text};
ghost use Rattle.file_jobs.specs.Days.{day_plan, BeginsDay, FolderText, GoesOn, IsNextText, IsOwn, IsServed, IsUnfitting, Takes};
ghost use Rattle.file_jobs.specs.Days.{file_of, is_written, kept_config, own_config, span_of};

use crate::files::text_in;
use crate::folder::{DayFile, DayFiles, Folder, Part, Span, day_after};
use crate::job_error::{JobError, at_file};
use crate::messages::{Place, print_message};
use crate::open_journals::open_to_close;
use crate::opening::{begin_with, opening_in, refuse_fault, refuse_words};
use crate::other_config::{differences, taken_words, untaken_words};
use crate::settings::settings_in;
use crate::statuses::FAILED;
use days::fitting::first_misfit;
use days::writing::opening_text;
use days::{Closed, Misfit, OpeningFile, Uncarried};
use site_core::{Config, Opening, OpeningFault};
use std::alloc::{AllocError, Global};
use std::fmt::{self, Display};
use std::fs::File;
use std::io::Read;

/// The day that is served: the configuration with which its site begins, and whether that is the one of the folder,
/// which the day keeps.
#[derive(Drop)]
pub struct DayToServe {
    pub number: u32,
    pub config: Config,
    pub is_kept: bool,
    /// The text of the folder's configuration, if the day begins with it since the given one doesn't fit.
    pub own: Option<Vec<u8>>,
}

/// Returns the day that a station goes on with: the newest of its folder, or day 1. If `is_new_day` and the newest day
/// has an entry, closes that day and returns the next one.
///
/// `given` is the configuration that `word` names, and `text` its text. It is for a day that has none in the folder, or
/// no entry. Any other day keeps the folder's; if the two differ, this prints so. If `given` doesn't fit the opening of
/// a day without an entry, this prints so, and the day begins with the folder's, which a close makes sure of.
pub fn newest_day<F: DayFiles>(
    rt: &HostRuntime,
    folder: &F,
    word: &str,
    text: &[u8],
    given: Config,
    is_new_day: bool,
) -> Result<DayToServe, JobError>
    // proved: The newest day is served, or the next if it is written | first_day_is_served
    ensures number { (texts : FolderText) → F.files folder.now ≡ Some texts
        → IfOk result (λ newest. IsServed texts (day_plan (span_of texts) is_new_day) newest.number) }
    // proved begun, kept: It goes on with what it keeps, and its opening
    ensures begun { (texts : FolderText) → F.files folder.now ≡ Some texts
        → IfOk result (λ newest.
        GoesOn texts given newest.number (option_map (λ v. v.items) newest.own) newest.config) }
    ensures kept { (texts : FolderText) → F.files folder.now ≡ Some texts
        → IfOk result (λ newest. newest.is_kept ≡ is_some (kept_config texts newest.number)) }
    // proved first, later, refused: A day begins as given, unless the folder says how
    ensures first { IfOk result (λ newest. newest.is_kept ≡ false → newest.number ≡ 1 → newest.config ≡ given) }
    ensures later { IfOk result (λ newest. newest.is_kept ≡ false → newest.own ≡ None → newest.number ≢ 1
        → BeginsDay given newest.number newest.config) }
    ensures refused { IfErr result (Refuses 1) }
{
    let number = number_of(rt, folder, &given, text, is_new_day)?;
    go_on(rt, folder, word, number, given)
}

/// A day that was served to its end, and the file of its journal, which stays locked until the next day has begun.
#[derive(Drop)]
pub struct EndedDay<'a> {
    pub number: u32,
    pub path: &'a str,
    pub file: &'a File,
    pub closed: &'a Closed,
}

/// Returns the day that a station goes on with once a day has ended: the next one, or that day, if it has no entry.
/// Closes it like `newest_day`, but without reading its journal.
pub fn day_after_ended<F: DayFiles>(
    rt: &HostRuntime,
    folder: &F,
    word: &str,
    text: &[u8],
    given: Config,
    ended: &EndedDay<'_>,
) -> Result<DayToServe, JobError>
    // proved empty, next: A day that was served is followed by the next, if it has an entry
    ensures empty { ended.now.closed.now.site.history ≡ [] → IfOk result (λ day. day.number ≡ ended.now.number) }
    ensures next { ended.now.closed.now.site.history ≢ []
        → IfOk result (λ day. day.number ≡ ended.now.number + 1) }
    // proved begun, kept, later, refused: It goes on as after a close from the files
    ensures begun { (texts : FolderText) → F.files folder.now ≡ Some texts
        → IfOk result (λ day. GoesOn texts given day.number (option_map (λ v. v.items) day.own) day.config) }
    ensures kept { (texts : FolderText) → F.files folder.now ≡ Some texts
        → IfOk result (λ day. day.is_kept ≡ is_some (kept_config texts day.number)) }
    ensures later { IfOk result (λ day. day.is_kept ≡ false → day.own ≡ None → day.number ≢ 1
        → BeginsDay given day.number day.config) }
    ensures refused { IfErr result (Refuses 1) }
{
    let number = close_ended(rt, folder, &given, text, ended)?;
    go_on(rt, folder, word, number, given)
}

/// Closes a day that has ended, unless it has no entry, and returns the day that is then the newest.
fn close_ended<F: DayFiles>(
    rt: &HostRuntime,
    folder: &F,
    given: &Config,
    text: &[u8],
    ended: &EndedDay<'_>,
) -> Result<u32, JobError>
    ensures empty { ended.now.closed.now.site.history ≡ [] → IfOk result (λ newest. newest ≡ ended.now.number) }
    ensures closed { ended.now.closed.now.site.history ≢ []
        → IfOk result (λ newest. newest ≡ ended.now.number + 1) }
    ensures refused { IfErr result (Refuses 1) }
{
    let own = match own_of(rt, folder, ended.number)? {
        Some(own) => Some(own.text),
        None => None,
    };
    finish_close(rt, folder.as_folder(), ended, &Configs { given, text, own })
}

/// Returns day `number` with the configuration that it takes and its opening.
fn go_on<F: DayFiles>(
    rt: &HostRuntime,
    folder: &F,
    word: &str,
    number: u32,
    given: Config,
) -> Result<DayToServe, JobError>
    ensures number { IfOk result (λ day. day.number ≡ number) }
    ensures begun { (texts : FolderText) → F.files folder.now ≡ Some texts
        → IfOk result (λ day. GoesOn texts given day.number (option_map (λ v. v.items) day.own) day.config) }
    ensures kept { (texts : FolderText) → F.files folder.now ≡ Some texts
        → IfOk result (λ day. day.is_kept ≡ is_some (kept_config texts day.number)) }
    ensures first { IfOk result (λ day. day.is_kept ≡ false → day.number ≡ 1 → day.config ≡ given) }
    ensures later { IfOk result (λ day. day.is_kept ≡ false → day.own ≡ None → day.number ≢ 1
        → BeginsDay given day.number day.config) }
    ensures refused { IfErr result (Refuses 1) }
{
    let Taken {
        config,
        is_kept,
        own,
    } = config_for(rt, folder, number, word, given)?;
    match begin_day(rt, folder, number, config) {
        Ok(config) => Ok(DayToServe {
            number,
            config,
            is_kept,
            own,
        }),
        Err(job_error) => Err(job_error),
    }
}

/// The configuration that a day takes, and what `DayToServe` says of it.
#[derive(Drop)]
struct Taken {
    config: Config,
    is_kept: bool,
    own: Option<Vec<u8>>,
}

impl Taken {
    fn given(config: Config) -> Taken
        ensures config { result.config ≡ config }
        ensures kept { result.is_kept ≡ false }
        ensures own { result.own ≡ None }
    {
        Taken {
            config,
            is_kept: false,
            own: None,
        }
    }
}

/// Returns the configuration that a day with an entry keeps in the folder, or else `given`, or, if that doesn't fit the
/// day's opening, the folder's.
fn config_for<F: DayFiles>(
    rt: &HostRuntime,
    folder: &F,
    day: u32,
    word: &str,
    given: Config,
) -> Result<Taken, JobError>
    ensures taken { (texts : FolderText) → F.files folder.now ≡ Some texts
        → IfOk result (λ taken. Takes texts given day (option_map (λ v. v.items) taken.own) taken.config) }
    ensures kept { (texts : FolderText) → F.files folder.now ≡ Some texts
        → IfOk result (λ taken. taken.is_kept ≡ is_some (kept_config texts day)) }
    ensures given { IfOk result (λ taken. taken.is_kept ≡ false → taken.own ≡ None → taken.config ≡ given) }
    ensures first { IfOk result (λ taken. taken.is_kept ≡ false → day ≡ 1 → taken.own ≡ None) }
    ensures refused { IfErr result (Refuses 1) }
{
    match kept_config(rt, folder, day)? {
        Some(kept) => {
            print_other_config(rt, folder.as_folder(), day, word, (&kept, &given))?;
            Ok(Taken {
                config: kept,
                is_kept: true,
                own: None,
            })
        }
        None => config_for_unkept(rt, folder, day, word, given),
    }
}

/// Returns `given`, or the folder's configuration for the day, if that one fits the day's opening and `given` doesn't.
fn config_for_unkept<F: DayFiles>(
    rt: &HostRuntime,
    folder: &F,
    day: u32,
    word: &str,
    given: Config,
) -> Result<Taken, JobError>
    ensures taken { (texts : FolderText) → F.files folder.now ≡ Some texts → kept_config texts day ≡ None
        → IfOk result (λ taken. Takes texts given day (option_map (λ v. v.items) taken.own) taken.config) }
    ensures kept { IfOk result (λ taken. taken.is_kept ≡ false) }
    ensures given { IfOk result (λ taken. taken.own ≡ None → taken.config ≡ given) }
    ensures first { IfOk result (λ taken. day ≡ 1 → taken.own ≡ None) }
    ensures refused { IfErr result (Refuses 1) }
{
    let Some(misfit) = misfit_of(rt, folder, day, &given)? else {
        return Ok(Taken::given(given));
    };
    let Some(own) = own_that_fits(rt, folder, day)? else {
        return Ok(Taken::given(given));
    };
    print_misfit(rt, folder.as_folder(), day, word, misfit)?;
    Ok(Taken {
        config: own.config,
        is_kept: false,
        own: Some(own.text),
    })
}

/// Returns why the opening that the folder has for a day doesn't fit `config`. There is no reason for day 1, which has
/// no opening, nor for an opening that is missing or another day's, with which no day begins.
pub(crate) fn misfit_of<F: DayFiles>(
    rt: &HostRuntime,
    folder: &F,
    day: u32,
    config: &Config,
) -> Result<Option<Misfit>, JobError>
    ensures misfit { (texts : FolderText) → F.files folder.now ≡ Some texts → IfOk result (λ misfit.
        MatchOption misfit (¬ IsUnfitting texts config.now day) (λ _. IsUnfitting texts config.now day)) }
    ensures first { day ≡ 1 → result ≡ Ok None }
    ensures refused { IfErr result (Refuses 1) }
{
    if day == 1 {
        return Ok(None);
    }
    let Some(source) = folder.open(rt, day, Part::Opening)? else {
        return Ok(None);
    };
    let path = folder.as_folder().file(rt, day, Part::Opening)?;
    let file = opening_in(rt, &path, source)?;
    if file.day != day {
        return Ok(None);
    }
    Ok(first_misfit(config, &file.opening))
}

/// Returns the configuration that the folder has for a day, if it fits the day's opening.
fn own_that_fits<F: DayFiles>(
    rt: &HostRuntime,
    folder: &F,
    day: u32,
) -> Result<Option<Own>, JobError>
    ensures own { (texts : FolderText) → F.files folder.now ≡ Some texts
        → IfOk result (λ own. IfSome own (IsOwn (file_of texts day Part.Config))) }
    ensures none { (texts : FolderText) → F.files folder.now ≡ Some texts → IfOk result (λ own. own ≡ None
        → (config : ConfigValue) → own_config (file_of texts day Part.Config) ≡ Some (Ok config)
        → IsUnfitting texts config day) }
    ensures fits { (texts : FolderText) → F.files folder.now ≡ Some texts
        → IfOk result (λ own. IfSome own (λ own. ¬ IsUnfitting texts own.config day)) }
    ensures refused { IfErr result (Refuses 1) }
{
    let Some(own) = own_of(rt, folder, day)? else {
        return Ok(None);
    };
    match misfit_of(rt, folder, day, &own.config)? {
        None => Ok(Some(own)),
        Some(_) => Ok(None),
    }
}

fn print_misfit(
    rt: &HostRuntime,
    folder: Folder<'_>,
    day: u32,
    word: &str,
    misfit: Misfit,
) -> Result<(), AllocError> {
    let path = folder.file(rt, day, Part::Config)?;
    print_message(
        rt,
        &format_args!("{word} isn't taken: {misfit}; day {day} goes on with {path}"),
    );
    Ok(())
}

/// Prints what the next day takes of the given configuration, where that isn't the one that the day keeps.
fn print_other_config(
    rt: &HostRuntime,
    folder: Folder<'_>,
    day: u32,
    word: &str,
    configs: (&Config, &Config),
) -> Result<(), AllocError> {
    let (kept, given) = configs;
    let found = differences(rt.alloc(), kept, given)?;
    if found.is_empty() {
        return Ok(());
    }
    let path = folder.file(rt, day, Part::Config)?;
    let taken = taken_words(rt.alloc(), &found)?;
    let untaken = untaken_words(rt.alloc(), &found)?;
    print_message(
        rt,
        &format_args!(
            "day {day} goes on with {path}; the next day takes of {word}: {taken}; no day takes: {untaken}"
        ),
    );
    Ok(())
}

/// What is to be done to find the day to serve: `Serve(n)` day n, or `Close(n)`, which closes day n and serves the one
/// after it, or day n itself if it has no entry.
#[derive(Clone, Copy)]
enum DayPlan {
    Serve(u32),
    Close(u32),
}

fn day_plan(span: Option<Span>, is_new_day: bool) -> DayPlan
    ensures { result ≡ day_plan span is_new_day }
{
    match span {
        None => DayPlan::Serve(1),
        Some(span) if is_new_day => DayPlan::Close(span.newest),
        Some(span) => DayPlan::Serve(span.newest),
    }
}

/// Returns the number of the day that a station goes on with. Before, closes the newest day, if `is_new_day` and it has
/// an entry.
fn number_of<'a, F: DayFiles>(
    rt: &HostRuntime,
    folder: &F,
    given: &'a Config,
    text: &'a [u8],
    is_new_day: bool,
) -> Result<u32, JobError>
    ensures served { (texts : FolderText) → F.files folder.now ≡ Some texts
        → IfOk result (IsServed texts (day_plan (span_of texts) is_new_day)) }
    ensures refused { IfErr result (Refuses 1) }
{
    let newest = match day_plan(folder.span(rt)?, is_new_day) {
        DayPlan::Serve(day) => return Ok(day),
        DayPlan::Close(newest) => newest,
    };
    if !is_written(rt, folder, newest)? {
        return Ok(newest);
    }
    let (config, own) = match own_of(rt, folder, newest)? {
        Some(own) => (own.config, Some(own.text)),
        None => (given.copied(rt.alloc())?, None),
    };
    close_day(rt, folder, newest, config, &Configs { given, text, own })
}

/// What decides on the configurations that are written into the folder as a day is closed: the given one, its text, and
/// the text of the folder's for that day, if it has one.
#[derive(Drop)]
struct Configs<'a> {
    given: &'a Config,
    text: &'a [u8],
    own: Option<Vec<u8>>,
}

/// The configuration that a folder has for a day, and its text.
#[derive(Drop)]
struct Own {
    config: Config,
    text: Vec<u8>,
}

/// Returns the configuration that a folder has for a day.
pub fn own_config<F: DayFiles>(
    rt: &HostRuntime,
    folder: &F,
    day: u32,
) -> Result<Option<Config>, JobError>
    ensures own { (texts : FolderText) → F.files folder.now ≡ Some texts → IfOk result (λ own.
        option_map (λ config. Ok config) own ≡ own_config (file_of texts day Part.Config)) }
    ensures refused { IfErr result (Refuses 1) }
{
    match own_of(rt, folder, day)? {
        Some(own) => Ok(Some(own.config)),
        None => Ok(None),
    }
}

fn own_of<F: DayFiles>(rt: &HostRuntime, folder: &F, day: u32) -> Result<Option<Own>, JobError>
    ensures own { (texts : FolderText) → F.files folder.now ≡ Some texts
        → IfOk result (λ own. MatchOption own (file_of texts day Part.Config ≡ None) (IsOwn (file_of texts day Part.Config))) }
    ensures refused { IfErr result (Refuses 1) }
{
    let Some(source) = folder.open(rt, day, Part::Config)? else {
        return Ok(None);
    };
    let path = folder.as_folder().file(rt, day, Part::Config)?;
    let text = text_in(rt, &path, source)?;
    match settings_in(rt, &path, &text) {
        Ok(settings) => Ok(Some(Own {
            config: settings.config,
            text,
        })),
        Err(job_error) => Err(job_error),
    }
}

/// Returns the configuration that the folder has for a day with an entry. A day without one can still get another.
fn kept_config<F: DayFiles>(
    rt: &HostRuntime,
    folder: &F,
    day: u32,
) -> Result<Option<Config>, JobError>
    ensures kept { (texts : FolderText) → F.files folder.now ≡ Some texts → IfOk result (λ kept.
        option_map (λ config. Ok config) kept ≡ kept_config texts day) }
    ensures refused { IfErr result (Refuses 1) }
{
    if is_written(rt, folder, day)? {
        own_config(rt, folder, day)
    } else {
        Ok(None)
    }
}

/// Returns whether a day has a journal that isn't empty.
pub(crate) fn is_written<F: DayFiles>(
    rt: &HostRuntime,
    folder: &F,
    day: u32,
) -> Result<bool, JobError>
    ensures written { (texts : FolderText) → F.files folder.now ≡ Some texts
        → IfOk result (λ written. written ≡ is_written (file_of texts day Part.Journal)) }
    ensures refused { IfErr result (Ends 3 []) }
{
    let Some(mut source) = folder.open(rt, day, Part::Journal)? else {
        return Ok(false);
    };
    let path = folder.as_folder().file(rt, day, Part::Journal)?;
    match at_file(rt.alloc(), &path, source.read(&mut [0])) {
        Ok(count) => Ok(count > 0),
        Err(job_error) => Err(job_error),
    }
}

/// Returns `config` with the opening that the folder has for day `number`. Day 1 has none.
fn begin_day<F: DayFiles>(
    rt: &HostRuntime,
    folder: &F,
    number: u32,
    config: Config,
) -> Result<Config, JobError>
    ensures opening { (texts : FolderText) → F.files folder.now ≡ Some texts → number ≢ 1
        → IfOk result (BeginsBy number config (file_of texts number Part.Opening)) }
    ensures first { number ≡ 1 → result ≡ Ok config }
    ensures later { number ≢ 1 → IfOk result (BeginsDay config number) }
    ensures none { (texts : FolderText) (text : List ℕ) (begun : ConfigValue) → F.files folder.now ≡ Some texts
        → file_of texts number Part.Opening ≡ Some text → length text ≤ 262144
        → BeginsBy number config (Some text) begun → IfErr result (Ends 3 []) }
    ensures refused { IfErr result (Refuses 1) }
{
    if number == 1 {
        return Ok(config);
    }
    let path = folder.as_folder().file(rt, number, Part::Opening)?;
    let Some(source) = folder.open(rt, number, Part::Opening)? else {
        return Err(refuse_link(rt.alloc(), Place::of(&path), number, &UNOPENED));
    };
    let (config, of) = match begin_with(rt, &path, source, config) {
        Ok(begun) => begun,
        Err(job_error) => return Err(job_error),
    };
    if of != number {
        return Err(refuse_link(rt.alloc(), Place::of(&path), number, &OfDay(of)));
    }
    Ok(config)
}

pub const UNOPENED: &str = "the day has no opening";

/// Makes the error O1 for a day that doesn't follow the day before it.
pub fn refuse_link<D: Display>(alloc: Global, place: Place<'_>, day: u32, words: &D) -> JobError
    // proved: Days that don't follow one another: O1, the day, status 1
    ensures ends { EndsOrRunsOut 1 (codes "O1 " ++ (decimal day ++ codes "\n")) result }
    ensures says { IfSome (D.output words.now)
        (λ text. Says (words_at place.entry (numbered_words text (codes "O1"))) result) }
{
    JobError::refused_as(alloc, place, words, "O1", &format_args!("O1 {day}"))
}

/// The message that this is the opening of another day, of this number.
#[derive(Drop)]
pub struct OfDay(pub u32);

impl Display for OfDay {
    ghost use Rattle.std.specs.Prelude.{Some, ◌++◌, codes};
    ghost use Rattle.std.specs.Fmt.{decimal};

    ghost output = { λ day. Some (codes "this is the opening of day " ++ decimal day.0) };

    fn fmt<W: fmt::Write>(&self, f: &mut fmt::Formatter<W>) -> fmt::Result {
        write!(f, "this is the opening of day {}", self.0)
    }
}

/// Closes day `number`, unless it has no entry, and returns the day that is then the newest. `config` is the day's,
/// without an opening.
fn close_day<F: DayFiles>(
    rt: &HostRuntime,
    folder: &F,
    number: u32,
    config: Config,
    configs: &Configs<'_>,
) -> Result<u32, JobError>
    ensures newest { IfOk result (λ newest. (newest ≡ number) ⊎ (newest ≡ number + 1)) }
    ensures refused { IfErr result (Refuses 1) }
{
    let path = folder.as_folder().file(rt, number, Part::Journal)?;
    let config = begin_day(rt, folder, number, config)?;
    // The day's journal stays locked until the opening of the next day is written.
    let journal = open_to_close(rt, &config, &path)?;
    let ended = EndedDay {
        number,
        path: &path,
        file: &journal.file,
        closed: &journal.audited,
    };
    finish_close(rt, folder.as_folder(), &ended, configs)
}

/// Returns the day that is the newest once a day is closed, which it isn't without an entry: checks that the next day
/// hasn't begun, syncs the day's journal, and writes the days' configurations and the next day's opening.
fn finish_close(
    rt: &HostRuntime,
    folder: Folder<'_>,
    ended: &EndedDay<'_>,
    configs: &Configs<'_>,
) -> Result<u32, JobError>
    ensures empty { ended.now.closed.now.site.history ≡ [] → result ≡ Ok ended.now.number }
    ensures closed { ended.now.closed.now.site.history ≢ []
        → IfOk result (λ newest. newest ≡ ended.now.number + 1) }
    ensures newest { IfOk result (λ newest. (newest ≡ ended.now.number) ⊎ (newest ≡ ended.now.number + 1)) }
    ensures refused { IfErr result (Refuses 1) }
{
    let number = ended.number;
    if ended.closed.site.history().is_empty() {
        return Ok(number);
    }
    check_newest(rt, folder, number)?;
    at_file(rt.alloc(), ended.path, ended.file.sync_all())?;
    begin_next_day(rt, folder, number, ended.closed, configs)
}

/// After an error the next day hasn't begun, unless only a sync of the folder failed.
fn begin_next_day(
    rt: &HostRuntime,
    folder: Folder<'_>,
    number: u32,
    closed: &Closed,
    configs: &Configs<'_>,
) -> Result<u32, JobError>
    ensures next { IfOk result (λ next. next ≡ number + 1) }
    ensures refused { IfErr result (Refuses 1) }
{
    let path = folder.file(rt, number, Part::Journal)?;
    let (file, text) = opening_left(rt.alloc(), &path, number, closed)?;
    let day = file.day;
    let opening = DayFile {
        day,
        part: Part::Opening,
        bytes: text.as_bytes(),
    };
    let next = DayFile {
        day,
        part: Part::Config,
        bytes: next_text(configs, file.opening),
    };
    put_next_day(rt, folder, number, configs, [next, opening])?;
    Ok(day)
}

/// Returns the text of the configuration for the day that begins with `opening`.
fn next_text<'a>(configs: &'a Configs<'_>, opening: Opening) -> &'a [u8]
    ensures { IsNextText configs.now.given.now opening configs.now.text.now
        (option_map (λ own. own.items) configs.now.own) result.now }
{
    match (first_misfit(configs.given, &opening), &configs.own) {
        (Some(_), Some(own)) => own,
        (_, _) => configs.text,
    }
}

/// Returns the opening that day `number` leaves for the next day, and its text. `journal` names the day's journal.
pub fn opening_left(
    alloc: Global,
    journal: &str,
    number: u32,
    closed: &Closed,
) -> Result<(OpeningFile, String), JobError>
    // proved left, text: What a day leaves is written as its opening's one text
    ensures left { IfOk result (λ next. next.0 ≡ next_opening number closed.now.site) }
    ensures text { IfOk result
        (λ next. string_bytes next.1 ≡ opening_text (next_opening number closed.now.site)) }
    ensures refused { IfErr result (Refuses 1) }
{
    match closed.opening(number) {
        Ok(file) => {
            let text = opening_text(alloc, &file)?;
            Ok((file, text))
        }
        Err(why) => Err(refuse_uncarried(alloc, journal, why)),
    }
}

/// Writes the configuration of day `number`, unless the folder has it, and then the next day's files: its configuration
/// and, last, its opening, by which it begins.
fn put_next_day(
    rt: &HostRuntime,
    folder: Folder<'_>,
    number: u32,
    configs: &Configs<'_>,
    next: [DayFile<'_>; 2],
) -> Result<(), JobError>
    ensures { IfErr result (Ends 3 []) }
{
    let [config, opening] = next;
    if configs.own.is_some() {
        return folder.put(rt, &[config, opening]);
    }
    let closed = DayFile {
        day: number,
        part: Part::Config,
        bytes: configs.text,
    };
    folder.put(rt, &[closed, config, opening])
}

/// Checks that the next day has no opening. Where the caller has locked the journal of day `number`, no other process
/// begins the next day until the lock is released.
pub fn check_newest(rt: &HostRuntime, folder: Folder<'_>, number: u32) -> Result<(), JobError>
    ensures { IfErr result (Ends 3 []) }
{
    let Some(next) = day_after(number, u32::MAX) else {
        return Ok(());
    };
    if !folder.has(rt, next, Part::Opening)? {
        return Ok(());
    }
    let path = folder.file(rt, number, Part::Journal)?;
    let words = format_args!("day {next} has begun");
    Err(JobError::at(rt.alloc(), Place::of(&path), &words, FAILED))
}

pub fn refuse_uncarried(alloc: Global, journal: &str, why: Uncarried) -> JobError
    // proved ends, memory: A day that leaves no opening: status 1, unless memory ran out
    ensures ends { why ≢ Uncarried.Fault OpeningFault.OutOfMemory → Ends 1 [] result }
    ensures memory { why ≡ Uncarried.Fault OpeningFault.OutOfMemory → result ≡ JobError.OutOfMemory }
    ensures says { SaysOf journal.now None (uncarried_text why) result }
{
    match why {
        Uncarried::Fault(fault) => refuse_fault(alloc, journal, fault, &why),
        Uncarried::LastDay => refuse_words(alloc, journal, &why),
    }
}
