//! The audit of a folder of days that grows: each line is audited as it comes, and each day as it ends.
ghost use Rattle.std.specs.Prelude.{◌≡◌, ◌++◌, [], true, IfOk, IsErrAnd, codes, length, string_bytes};
ghost use Rattle.site_core.specs.Steps.{steps_of};
ghost use Rattle.file_jobs.specs.StandardInput.{is_input};
ghost use Rattle.file_jobs.specs.JobErrors.{Ends};
ghost use Rattle.file_jobs.specs.Follow.{day_text};

use crate::chained::{Journal, config_of, opening_of, print_oldest, refuse_days};
use crate::files::{stream, text_of};
use crate::growing::{Growing, has_begun};
use crate::job_error::{at_file, print_text};
use crate::progress::{Progress, Watched};
use crate::settings::settings_in;
use crate::{DayFiles, Folder, JobError, day_after};
use days::chain::audit_days;
use days::{DayIn, DaysIn, NoDay};
use decision_journal::Entry;
use site_core::{Change, Config, Head, Observer, Site};
use std::alloc::{AllocError, Global};
use std::cell::Cell;
use std::sync::Wait;
use std::thread;
use std::time::{Clock, Duration};
use till_request::Act;

/// How long is waited before a file or folder is read again.
const REST_MILLISECONDS: u64 = 200;

pub(crate) fn rest<H: Clock>(host: &H) {
    thread::sleep(host, Duration::from_millis(REST_MILLISECONDS));
}

/// Counts the entries of a day, and lets the reader of its journal see the count.
#[derive(Drop)]
struct Admitted<'a> {
    count: u64,
    shown: &'a Cell<u64>,
}

impl Observer for Admitted<'_> {
    ghost use Rattle.std.specs.Prelude.{◌≡◌, ◌+◌, ◌<◌, ◌^◌, length};

    ghost has_seen = { λ s steps. s.count ≡ length steps };

    ghost has_looked = { λ _ _ _. Unit {0} };

    ghost is_ready = { λ s. s.count + 1 < 2 ^ 64 };

    fn make_ready(&mut self) -> Result<(), AllocError> {
        if self.count < u64::MAX {
            Ok(())
        } else {
            Err(AllocError)
        }
    }

    fn look(&mut self, _before: &Head, _act: &Act) {}

    fn see(&mut self, _line: &[u8], _entry: &Entry, _change: &Change) {
        self.count += 1;
        self.shown.set(self.count);
    }
}

/// The line `legal DAY ENTRIES`.
pub(crate) fn day_line(alloc: Global, day: u32, entries: u64) -> Result<String, AllocError>
    ensures { IfOk result (λ line. string_bytes line ≡ day_text day entries) }
{
    format!(in alloc; "legal {day} {entries}\n")
}

/// Prints the line of day `number`, which has ended.
fn print_day(
    rt: &HostRuntime,
    number: u32,
    site: &Site,
    seen: &Admitted<'_>,
) -> Result<(), JobError>
    requires { seen.now.count ≡ length (steps_of site.now.config site.now.history) }
{
    let count = admitted_of(site, seen);
    print_text(rt, &day_line(rt.alloc(), number, count)?)
}

/// How many entries a day's site has, all of which were admitted.
fn admitted_of(site: &Site, seen: &Admitted<'_>) -> u64
    requires { seen.now.count ≡ length (steps_of site.now.config site.now.history) }
    // proved: A day's line has the number of its entries, each of which was admitted | follow_counts_no_entry
    ensures { result ≡ length site.now.history }
{
    let _ = site;
    seen.count
}

/// The days of a folder that grows.
#[derive(Drop)]
struct GrowingDays<'a, H> {
    rt: &'a HostRuntime,
    host: &'a H,
    folder: Folder<'a>,
    /// The configuration for the days that have none in the folder.
    config: Config,
    /// How many entries of the day were admitted so far.
    admitted: &'a Cell<u64>,
    next: Option<u32>,
    /// Why a day couldn't be read, or its end couldn't be printed.
    job_error: Option<JobError>,
}

impl<'a, H: Wait + Clock> GrowingDays<'a, H> {
    fn day(&self, number: u32) -> Result<DayIn<Journal<'a, Growing<'a, H>>, Admitted<'a>>, JobError>
        ensures { IfOk result (λ day. day.seen.count ≡ 0) }
    {
        let journal = self.journal(number)?;
        let config = config_of(self.rt, &self.folder, &self.config, number)?;
        let opening = opening_of(self.rt, &self.folder, number)?;
        let seen = Admitted {
            count: 0,
            shown: self.admitted,
        };
        Ok(DayIn {
            config,
            opening,
            journal,
            seen,
        })
    }

    /// The journal of day `number`, which is waited for until the next day has begun.
    fn journal(&self, number: u32) -> Result<Option<Journal<'a, Growing<'a, H>>>, JobError> {
        let path = self.folder.path;
        for _ in self.host.forever() {
            let next = has_begun(self.rt, self.folder, day_after(number, u32::MAX));
            let is_over = at_file(self.rt.alloc(), path, next)?;
            match Growing::open(self.rt, self.host, self.folder, number, self.admitted)? {
                Some(file) => {
                    return Ok(Some(Watched {
                        input: stream(file),
                        progress: Progress::new(self.rt, false, None),
                    }));
                }
                None if is_over => return Ok(None),
                None => rest(self.host),
            }
        }
        unreachable!()
    }
}

impl<'a, H: Wait + Clock> DaysIn for GrowingDays<'a, H> {
    type Journal = Journal<'a, Growing<'a, H>>;

    type Seen = Admitted<'a>;

    ghost use Rattle.std.specs.Prelude.{IsSome, None};

    /// For proofs: no contract knows what will be in the folder.
    ghost remaining = { λ _. None };

    ghost failed = { λ s. IsSome s.job_error };

    fn next_day(
        &mut self,
    ) -> Result<Option<DayIn<Journal<'a, Growing<'a, H>>, Admitted<'a>>>, NoDay> {
        let Some(number) = self.next else {
            return Ok(None);
        };
        self.next = day_after(number, u32::MAX);
        self.admitted.set(0);
        match self.day(number) {
            Ok(day) => Ok(Some(day)),
            Err(job_error) => {
                self.job_error = Some(job_error);
                Err(NoDay)
            }
        }
    }

    fn end_day(&mut self, number: u32, site: &Site, seen: Admitted<'a>) -> Result<(), NoDay> {
        match print_day(self.rt, number, site, &seen) {
            Ok(()) => Ok(()),
            Err(job_error) => {
                self.job_error = Some(job_error);
                Err(NoDay)
            }
        }
    }
}

/// Waits for the folder's first day, and returns its number.
fn oldest_day<H: Wait + Clock>(
    rt: &HostRuntime,
    host: &H,
    folder: Folder<'_>,
) -> Result<u32, JobError> {
    for _ in host.forever() {
        match folder.span(rt)? {
            Some(span) => return Ok(span.oldest),
            None => rest(host),
        }
    }
    unreachable!()
}

/// Audits the folder of days that `path` names, line by line as they come, and prints at each day's end, and once a
/// minute, that its entries are legal. Returns at the first fault. `word` names the configuration for the days that have
/// none in the folder.
pub fn follow_folder<H: Wait + Clock>(
    rt: &HostRuntime,
    host: &H,
    path: &str,
    word: &str,
) -> Result<(), JobError>
    // proved: What follows days wants a folder: status 2
    ensures { is_input path.now ≡ true → IsErrAnd result (Ends 2 []) }
{
    let folder = Folder::named(rt, path)?;
    let text = text_of(rt, word)?;
    let settings = settings_in(rt, word, &text)?;
    let first = oldest_day(rt, host, folder)?;
    print_oldest(rt, folder, first);
    let admitted = Cell::new(0);
    let mut days = GrowingDays {
        rt,
        host,
        folder,
        config: settings.config,
        admitted: &admitted,
        next: Some(first),
        job_error: None,
    };
    match audit_days(rt.alloc(), first, &mut days) {
        // Never here, but after day 4,294,967,295: the next day is waited for.
        Ok(_) => Ok(()),
        Err(fault) => {
            let GrowingDays { job_error, .. } = days;
            Err(refuse_days(rt, folder, job_error, fault)?)
        }
    }
}
