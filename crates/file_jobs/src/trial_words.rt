// The words of `fc whatif`: which rule is tried in place of another, and how.

ghost use Rattle.std.specs.Prelude.{◌≡◌, None, IfOk, IsOk, codes, string_bytes};
ghost use Rattle.clap.specs.Words.{rows_of, found_of};
ghost use Rattle.file_jobs.specs.JobRequest.{named, reading_in, slot_in, slot_named, trial_in, trial_of, what_if_by, what_if_format, within_slots};
ghost use Rattle.file_jobs.specs.JobRequest.{what_if_message, what_if_options_message, what_if_words_message};
ghost use Rattle.file_jobs.specs.Refusing.{Asks, Finds};

use crate::command_line::{days_of, file_of, has_days, is_set, layout_of, mask_of, opening_of};
use crate::job::{Job, WhatIf, WhatIfFormat};
use crate::mask::decimal_named;
use bpf_model::context::Layout;
use clap::ArgMatches;
use std::alloc::{AllocError, Global};
use what_if::Reading;

/// What the options of `whatif` say of the other rule.
#[derive(Clone, Copy)]
struct Trial {
    slot: u32,
    counters: u32,
    context: Layout,
    reading: Reading,
    format: WhatIfFormat,
}

fn within_slots(number: u32) -> Option<u32>
    ensures { result ≡ within_slots number }
{
    if number < 16 { Some(number) } else { None }
}

fn slot_named(text: &str) -> Option<u32>
    ensures { result ≡ slot_named text.now }
{
    within_slots(decimal_named(text)?)
}

fn slot_of(matches: &ArgMatches) -> Option<u32>
    ensures { result ≡ slot_in (rows_of (found_of matches.now)) }
{
    match matches.get_str("slot") {
        Some(text) => slot_named(text),
        None => None,
    }
}

fn reading_of(matches: &ArgMatches) -> Reading
    ensures { result ≡ reading_in (rows_of (found_of matches.now)) }
{
    if is_set(matches, "carry") {
        Reading::Carried
    } else {
        Reading::AsTheyWere
    }
}

fn what_if_format(is_json: bool, is_summary: bool) -> Option<WhatIfFormat>
    ensures { result ≡ what_if_format is_json is_summary }
{
    match (is_json, is_summary) {
        (false, false) => Some(WhatIfFormat::Csv),
        (false, true) => Some(WhatIfFormat::Summary),
        (true, false) => Some(WhatIfFormat::Json),
        (true, true) => None,
    }
}

fn trial_of(matches: &ArgMatches) -> Option<Trial>
    ensures { result ≡ trial_in (rows_of (found_of matches.now)) }
{
    let slot = slot_of(matches)?;
    let counters = mask_of(matches)?;
    let context = layout_of(matches)?;
    let format = what_if_format(is_set(matches, "json"), is_set(matches, "summary"))?;
    let reading = reading_of(matches);
    Some(Trial {
        slot,
        counters,
        context,
        reading,
        format,
    })
}

pub(crate) fn what_if_of(alloc: Global, matches: &ArgMatches) -> Result<Option<Job>, AllocError>
    ensures job { IfOk result (Finds (codes "whatif") (rows_of (found_of matches.now))) }
    ensures trial { trial_in (rows_of (found_of matches.now)) ≡ None → IsOk result }
{
    let Some(trial) = trial_of(matches) else {
        return Ok(None);
    };
    let Some(config) = file_of(alloc, matches, "config")? else {
        return Ok(None);
    };
    let Some(second) = file_of(alloc, matches, "journal")? else {
        return Ok(None);
    };
    let third = file_of(alloc, matches, "rule")?;
    let opening = opening_of(alloc, matches)?;
    let days = days_of(alloc, matches)?;
    Ok(what_if_by(days, opening, trial, config, second, third))
}

fn with_rule(trial: Trial, rule: String) -> WhatIf
    ensures trial { trial_of result ≡ trial }
    ensures rule { result.rule ≡ rule }
{
    WhatIf {
        slot: trial.slot,
        rule,
        counters: trial.counters,
        context: trial.context,
        reading: trial.reading,
        format: trial.format,
    }
}

/// With a folder, `second` is the rule.
fn what_if_by(
    days: Option<String>,
    opening: Option<String>,
    trial: Trial,
    config: String,
    second: String,
    third: Option<String>,
) -> Option<Job>
    ensures { Asks
        (what_if_by (named days) (named opening) trial (string_bytes config) (string_bytes second) (named third))
        result }
{
    match (days, third) {
        (None, None) => None,
        (None, Some(rule)) => Some(Job::WhatIf {
            opening,
            config,
            journal: second,
            what_if: with_rule(trial, rule),
        }),
        (Some(_folder), Some(_rule)) => None,
        (Some(folder), None) => match opening {
            None => Some(Job::WhatIfDays {
                folder,
                config,
                what_if: with_rule(trial, second),
            }),
            Some(_opening) => None,
        },
    }
}

fn what_if_words_message(matches: &ArgMatches) -> &'static str
    ensures { result.now ≡ what_if_words_message (rows_of (found_of matches.now)) }
{
    if has_days(matches) {
        "error: --days takes CONFIG and RULE, and neither --opening nor JOURNAL"
    } else {
        "error: whatif wants JOURNAL and RULE, or --days FOLDER and RULE"
    }
}

fn what_if_options_message(matches: &ArgMatches) -> &'static str
    ensures { result.now ≡ what_if_options_message (rows_of (found_of matches.now)) }
{
    if mask_of(matches).is_none() {
        "error: --counters takes a number of 32 bits, as 6 or 0x6"
    } else if layout_of(matches).is_none() {
        "error: --context takes 1 or 2"
    } else if is_set(matches, "json") && is_set(matches, "summary") {
        "error: --json and --summary exclude each other"
    } else {
        what_if_words_message(matches)
    }
}

pub(crate) fn what_if_message(matches: &ArgMatches) -> &'static str
    ensures { result.now ≡ what_if_message (rows_of (found_of matches.now)) }
{
    match slot_of(matches) {
        Some(_) => what_if_options_message(matches),
        None => "error: --slot takes 0 to 15",
    }
}
