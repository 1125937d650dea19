//! Reads the files that say what a site begins with.
ghost use Rattle.std.specs.Prelude.{◌≡◌, ◌&&◌, ◌||◌, ◌++◌, ◌∷◌, [], false, None, Some, Ok, IfOk, IfErr, IfSome, IsErrAnd, IsSome, IsTrue, codes};
ghost use Rattle.std.specs.Prelude.{is_some, option_map};
ghost use Rattle.site_core.specs.Limits.{ConfigValue};
ghost use Rattle.site_config.specs.Flaws.{fault_of};
ghost use Rattle.site_config.specs.Ranges.{config_of, settings_view};
ghost use Rattle.site_config.specs.Doors.{serve_seen};
ghost use Rattle.file_jobs.specs.StandardInput.{is_input, may_be_input, reads_rule_twice, reads_twice};
ghost use Rattle.file_jobs.specs.JobErrors.{Ends, EndsOrRunsOut, Refuses};
ghost use Rattle.file_jobs.specs.Told.{SaysConfig, SaysFlaw};
ghost use Rattle.file_jobs.specs.FileRefusals.{RefusesConfig, RefusesSettings};
ghost use Rattle.file_jobs.specs.Days.{BeginsDay};

use crate::files::{Source, is_input, text_of};
use crate::job_error::JobError;
use crate::messages::Place;
use crate::opening::{Day, begin_with};
use crate::statuses::USAGE;
use site_config::ranges::read_settings;
use site_config::{ConfigFault, ConfigFlaw, Serve, Settings};
use std::alloc::Global;

/// The arguments that name a site's configuration, and the opening that it begins with.
#[derive(Clone, Copy)]
pub struct SiteFiles<'a> {
    config: &'a str,
    opening: Option<&'a str>,
}

impl<'a> SiteFiles<'a> {
    pub fn new(config: &'a str, opening: Option<&'a str>) -> SiteFiles<'a>
        ensures config { result.config.now ≡ config.now }
        ensures opening { option_map (λ w. w.now) result.opening ≡ option_map (λ w. w.now) opening.entry }
    {
        SiteFiles { config, opening }
    }

    pub fn config(self) -> &'a str
        ensures { result.now ≡ self.entry.config.now }
    {
        self.config
    }

    pub fn is_opened(self) -> bool
        ensures { result ≡ is_some self.entry.opening }
    {
        self.opening.is_some()
    }

    /// Returns whether the configuration or the opening is standard input.
    fn reads_input(self) -> bool
        ensures { result ≡ (is_input self.entry.config.now || may_be_input (option_map (λ w. w.now) self.entry.opening)) }
    {
        is_input(self.config) || self.is_opening_input()
    }

    /// Returns whether standard input would be read twice, if these files and that which `other` names are read.
    pub(crate) fn reads_twice(self, other: &str) -> bool
        ensures { result ≡ reads_twice self.entry.config.now (option_map (λ w. w.now) self.entry.opening) other.now }
    {
        (is_input(other) && self.reads_input())
            || (is_input(self.config) && self.is_opening_input())
    }

    /// Returns whether standard input would be read for a rule and for another file: these, or that which `other` names.
    pub(crate) fn reads_rule_twice(self, other: &str, rule: &str) -> bool
        ensures { result
            ≡ reads_rule_twice self.entry.config.now (option_map (λ w. w.now) self.entry.opening) other.now rule.now }
    {
        is_input(rule) && (is_input(other) || self.reads_input())
    }

    fn is_opening_input(self) -> bool
        ensures { result ≡ may_be_input (option_map (λ w. w.now) self.entry.opening) }
    {
        match self.opening {
            Some(opening) => is_input(opening),
            None => false,
        }
    }
}

/// Reads the configuration of a site, and then its opening.
pub fn day_of(rt: &HostRuntime, site: SiteFiles<'_>) -> Result<Day, JobError>
    // proved twice, once: Standard input can't be read twice: status 2
    ensures twice { IsTrue (is_input site.entry.config.now && may_be_input (option_map (λ w. w.now) site.entry.opening))
        → IsErrAnd result (Ends 2 []) }
    // proved first, opened: Without an opening it is day 1, else it begins with the opening
    ensures first { site.entry.opening ≡ None → IfOk result (λ day. day.number ≡ 1) }
    ensures opened { IsSome site.entry.opening
        → IfOk result (λ day. (config : ConfigValue) × BeginsDay config day.number day.config) }
    ensures once { is_input site.entry.config.now && may_be_input (option_map (λ w. w.now) site.entry.opening) ≡ false
        → IfErr result (Refuses 1) }
{
    if is_input(site.config) && site.is_opening_input() {
        return Err(refuse_twice(rt.alloc()));
    }
    let text = text_of(rt, site.config)?;
    day_by(rt, site, &text)
}

/// Reads a site like `day_of`, of whose configuration this is the text.
fn day_by(rt: &HostRuntime, site: SiteFiles<'_>, text: &[u8]) -> Result<Day, JobError>
    ensures first { site.entry.opening ≡ None → IfOk result (λ day. day.number ≡ 1) }
    ensures given { IfOk result (λ day. (config : ConfigValue)
        × (config_of text.now ≡ Ok (record { config = config; serve = option_map serve_seen day.serve }))
        × (site.entry.opening ≡ None → day.config ≡ config)
        × (IsSome site.entry.opening → BeginsDay config day.number day.config)) }
    ensures refused { IfErr result (Refuses 1) }
{
    let Settings { config, serve } = settings_in(rt, site.config, text)?;
    let begun = match site.opening {
        Some(opening) => begin_with(rt, opening, Source::open(rt, opening)?, config),
        None => Ok((config, 1)),
    };
    match begun {
        Ok((config, number)) => Ok(Day {
            config,
            serve,
            number,
        }),
        Err(job_error) => Err(job_error),
    }
}

pub(crate) fn refuse_twice(alloc: Global) -> JobError
    ensures { Ends 2 [] result }
{
    let words = "- is standard input, which is read once: name one of the two files";
    JobError::message(alloc, &words, USAGE)
}

/// Reads the text of a configuration, in the file that `word` names.
pub fn settings_in(rt: &HostRuntime, word: &str, text: &[u8]) -> Result<Settings, JobError>
    // proved read, refused: A configuration is refused with status 1
    ensures read { IfOk result (λ settings. config_of text.now ≡ Ok (settings_view settings)) }
    ensures fault { IfErr result (RefusesSettings (config_of text.now)) }
    ensures refused { IfErr result (Refuses 1) }
{
    match read_settings(rt.alloc(), text) {
        Ok(settings) => Ok(settings),
        Err(flaw) => Err(refuse_config(rt.alloc(), word, &flaw)),
    }
}

fn refuse_config(alloc: Global, word: &str, flaw: &ConfigFlaw) -> JobError
    ensures refused { RefusesConfig (fault_of flaw.now) result }
    ensures status { Refuses 1 result }
    ensures says { SaysConfig word.now flaw.now result }
{
    match flaw.fault() {
        ConfigFault::K1 => refuse_for(alloc, word, flaw, "K1"),
        ConfigFault::K2 => refuse_for(alloc, word, flaw, "K2"),
        ConfigFault::K3 => refuse_for(alloc, word, flaw, "K3"),
        ConfigFault::OutOfMemory => JobError::OutOfMemory,
    }
}

/// `code` is the fault's number.
fn refuse_for(alloc: Global, word: &str, flaw: &ConfigFlaw, code: &str) -> JobError
    ensures ends { EndsOrRunsOut 1 (code.now ++ 10 ∷ []) result }
    ensures says { SaysFlaw word.now flaw.now code.now result }
{
    let place = Place::of(word);
    match flaw.position() {
        Some((line, column)) => {
            let place = place.line(line as u64).column(column as u64);
            JobError::refused(alloc, place, flaw, code)
        }
        None => JobError::refused(alloc, place, flaw, code),
    }
}

/// Returns how a site is served. The error is that its configuration, in the file that `word` names, hasn't the table
/// `[serve]` (K2).
pub fn served(alloc: Global, word: &str, serve: Option<Serve>) -> Result<Serve, JobError>
    ensures some { IfSome serve (λ serve. result ≡ Ok serve) }
    ensures none { serve ≡ None → IsErrAnd result (EndsOrRunsOut 1 (codes "K2" ++ 10 ∷ [])) }
{
    match serve {
        Some(serve) => Ok(serve),
        None => {
            let words = "serve needs the table [serve]";
            Err(JobError::refused(alloc, Place::of(word), &words, "K2"))
        }
    }
}

/// Reads a site like `day_of`, and then opens the file that `other` names.
pub fn day_and(
    rt: &HostRuntime,
    site: SiteFiles<'_>,
    other: &str,
) -> Result<(Day, Source), JobError>
    // proved twice, once: Nor where a journal is read too
    ensures twice { IsTrue (reads_twice site.entry.config.now (option_map (λ w. w.now) site.entry.opening) other.now)
        → IsErrAnd result (Ends 2 []) }
    ensures once { reads_twice site.entry.config.now (option_map (λ w. w.now) site.entry.opening) other.now ≡ false
        → IfErr result (Refuses 1) }
{
    if is_input(other) && (is_input(site.config) || site.is_opening_input()) {
        return Err(refuse_twice(rt.alloc()));
    }
    let day = day_of(rt, site)?;
    match Source::open(rt, other) {
        Ok(source) => Ok((day, source)),
        Err(job_error) => Err(job_error),
    }
}
