//! What `fc serve --days FOLDER --check CONFIG` does.
ghost use Rattle.std.specs.Prelude.{◌≡◌, [], true, IsErrAnd};
ghost use Rattle.file_jobs.specs.StandardInput.{is_input};
ghost use Rattle.file_jobs.specs.JobErrors.{Ends};

use crate::audited::audited_site;
use crate::files::text_of;
use crate::job_error::print_text;
use crate::newest::{is_written, misfit_of, own_config};
use crate::opening::refuse_fault;
use crate::other_config::{differences, taken_words, untaken_words};
use crate::settings::{served, settings_in};
use crate::statuses::REFUSED;
use crate::{DayFiles, Folder, JobError, Part, Place, SiteFiles};
use days::Misfit;
use days::fitting::first_misfit;
use site_config::Settings;
use site_core::{Config, Unwatched};
use std::alloc::{AllocError, Global};

/// Prints what the day behind the folder's newest would take of the configuration that `word` names, if it began now.
/// The error is that it wouldn't take it, or that a start would refuse it. Changes nothing.
pub fn check_next_day(rt: &HostRuntime, path: &str, word: &str) -> Result<(), JobError>
    ensures { is_input path.now ≡ true → IsErrAnd result (Ends 2 []) }
{
    let folder = Folder::named(rt, path)?;
    let text = text_of(rt, word)?;
    let Settings { config, serve } = settings_in(rt, word, &text)?;
    served(rt.alloc(), word, serve)?;
    let Some(span) = folder.span(rt)? else {
        return print_text(rt, "day 1 takes: all\n");
    };
    let newest = span.newest;
    if !is_written(rt, &folder, newest)? {
        let misfit = misfit_of(rt, &folder, newest, &config)?;
        return print_check(rt, folder, word, newest, &config, misfit);
    }
    let misfit = misfit_behind(rt, folder, word, newest, &config)?;
    print_check(rt, folder, word, newest.saturating_add(1), &config, misfit)
}

/// Returns why what the site of day `number` would leave now doesn't fit `config`.
fn misfit_behind(
    rt: &HostRuntime,
    folder: Folder<'_>,
    word: &str,
    number: u32,
    config: &Config,
) -> Result<Option<Misfit>, JobError> {
    let own = folder.file(rt, number, Part::Config)?;
    let opening = folder.file(rt, number, Part::Opening)?;
    let journal = folder.file(rt, number, Part::Journal)?;
    let named = if folder.has(rt, number, Part::Config)? {
        own.as_str()
    } else {
        word
    };
    let begins = if number == 1 {
        None
    } else {
        Some(opening.as_str())
    };
    let day = audited_site(rt, SiteFiles::new(named, begins), &journal, Unwatched)?;
    match day.site().carry() {
        Ok(left) => Ok(first_misfit(config, &left)),
        Err(fault) => Err(refuse_fault(rt.alloc(), &journal, fault, &fault)),
    }
}

fn print_check(
    rt: &HostRuntime,
    folder: Folder<'_>,
    word: &str,
    day: u32,
    config: &Config,
    misfit: Option<Misfit>,
) -> Result<(), JobError> {
    if let Some(misfit) = misfit {
        let words = format_args!("day {day} wouldn't take it: {misfit}");
        return Err(JobError::at(rt.alloc(), Place::of(word), &words, REFUSED));
    }
    let Some(own) = own_config(rt, &folder, day.saturating_sub(1))? else {
        return print_text(rt, &format!(in rt.alloc(); "day {day} takes: all\n")?);
    };
    print_text(rt, &check_text(rt.alloc(), day, &own, config)?)
}

fn check_text(alloc: Global, day: u32, own: &Config, given: &Config) -> Result<String, AllocError> {
    let found = differences(alloc, own, given)?;
    let taken = taken_words(alloc, &found)?;
    let untaken = untaken_words(alloc, &found)?;
    format!(in alloc; "day {day} takes: {taken}\nno day takes: {untaken}\n")
}
