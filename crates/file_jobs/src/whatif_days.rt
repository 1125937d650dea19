//! What `fc whatif --days` does.
ghost use Rattle.std.specs.Prelude.{◌≡◌, true, IfErr, IsErrAnd, IsSome, [], string_bytes};
ghost use Rattle.file_jobs.specs.StandardInput.{is_input};
ghost use Rattle.file_jobs.specs.JobErrors.{Ends};

use crate::chained::watch_in;
use crate::day_watch::DayWatch;
use crate::files::{is_input, text_of};
use crate::job_error::{print_text, printed};
use crate::settings::{refuse_twice, settings_in};
use crate::whatif::{layout_number, other_layout, rule_in};
use crate::{FAILED, Folder, JobError, Place, REFUSED, WhatIf, WhatIfFormat};
use bpf_model::context::Layout;
use site_core::Site;
use std::alloc::{AllocError, Global};
use std::io::{self, BufWriter, Write};
use what_if::summary::summary;
use what_if::writing::write_days;
use what_if::{Comparison, DayMisfit, DayRows, DaysComparison, Format, RowsFault, RowsOf};

/// Compares a rule with the decisions of each day that is audited.
#[derive(Drop)]
struct ComparedDays<'a> {
    alloc: Global,
    found: DaysComparison<'a>,
}

impl<'a> DayWatch for ComparedDays<'a> {
    type Seen = Comparison<'a>;

    ghost use Rattle.std.specs.Prelude.{map};
    ghost use Rattle.what_if.specs.Days.{HasFoundDays};
    ghost use Rattle.file_jobs.specs.ComparedDays.{steps_of_end};

    ghost was_told = { λ watch ends. HasFoundDays watch.found (map steps_of_end ends) };

    fn begin_day(&mut self, alloc: Global, _number: u32) -> Result<Comparison<'a>, AllocError> {
        Ok(self.found.begin(alloc))
    }

    fn end_day(&mut self, number: u32, _site: &Site, seen: Comparison<'a>) -> Result<(), JobError> {
        match self.found.end(number, seen) {
            Ok(true) => Ok(()),
            // Not so: `begin_day` made it.
            Ok(false) => Err(JobError::message(self.alloc, &"a day is of another rule", FAILED)),
            Err(_) => Err(JobError::OutOfMemory),
        }
    }
}

/// Audits all days of the folder that `path` names, and prints what another rule would have answered at each decision of
/// a slot. Nothing is printed of days that don't follow one another. Each day is read anew: counters are carried from a
/// day's first decision on. `word` names the configuration for the days that have none in the folder.
pub fn what_if_folder(
    rt: &HostRuntime,
    path: &str,
    word: &str,
    what_if: &WhatIf,
) -> Result<(), JobError>
    ensures folder { is_input path.now ≡ true → IsErrAnd result (Ends 2 []) }
    ensures rule { is_input word.now ≡ true → is_input (string_bytes what_if.now.rule) ≡ true
        → IsErrAnd result (Ends 2 []) }
{
    if is_input(word) && is_input(&what_if.rule) {
        return Err(refuse_twice(rt.alloc()));
    }
    let folder = Folder::named(rt, path)?;
    let rule = rule_in(rt, what_if)?;
    let text = text_of(rt, word)?;
    let settings = settings_in(rt, word, &text)?;
    let watch = ComparedDays {
        alloc: rt.alloc(),
        found: DaysComparison::new(rt.alloc(), &rule, what_if.slot, what_if.reading),
    };
    let watched = watch_in(rt, folder, settings.config, watch)?;
    print_compared(rt, path, &watched.watch.found, what_if)
}

/// For a rule that wants this layout, where an entry was decided on a context of the other.
fn refuse_layout(alloc: Global, path: &str, misfit: DayMisfit, layout: Layout) -> JobError
    ensures { Ends 1 [] result }
{
    let DayMisfit { day, entry } = misfit;
    let (wanted, found) = (layout_number(layout), layout_number(other_layout(layout)));
    let words = format_args!(
        "entry {entry} of day {day} was decided on a context of layout {found}, this rule wants layout {wanted}"
    );
    JobError::at(alloc, Place::of(path), &words, REFUSED)
}

fn refuse_none(alloc: Global, path: &str, slot: u32) -> JobError
    ensures { Ends 1 [] result }
{
    let words = format_args!("slot {slot} made no decision in these days");
    JobError::at(alloc, Place::of(path), &words, REFUSED)
}

fn has_rows(days: &[DayRows]) -> bool {
    for day in days {
        if !day.rows.is_empty() {
            return true;
        }
    }
    false
}

fn print_compared(
    rt: &HostRuntime,
    path: &str,
    found: &DaysComparison<'_>,
    what_if: &WhatIf,
) -> Result<(), JobError>
    ensures { IsSome found.now.misfit → IsErrAnd result (Ends 1 []) }
{
    if let Some(misfit) = found.misfit() {
        return Err(refuse_layout(rt.alloc(), path, misfit, what_if.context));
    }
    if !has_rows(found.days()) {
        return Err(refuse_none(rt.alloc(), path, what_if.slot));
    }
    print_days(rt, found.days(), what_if)
}

fn print_days(rt: &HostRuntime, days: &[DayRows], what_if: &WhatIf) -> Result<(), JobError>
    ensures { IfErr result (Ends 3 []) }
{
    match what_if.format {
        WhatIfFormat::Csv => print_lines(rt, days, Format::Csv),
        WhatIfFormat::Json => print_lines(rt, days, Format::Json),
        WhatIfFormat::Summary => match summary_of(rt.alloc(), what_if.slot, days) {
            Ok(text) => print_text(rt, &text),
            Err(_) => Err(JobError::OutOfMemory),
        },
    }
}

fn summary_of(alloc: Global, slot: u32, days: &[DayRows]) -> Result<String, AllocError> {
    let mut all = Vec::new(alloc);
    for day in days {
        all.push(RowsOf {
            day: Some(day.day),
            rows: day.rows.as_slice(),
        })?;
    }
    summary(alloc, slot, all.as_slice())
}

fn print_lines(rt: &HostRuntime, days: &[DayRows], format: Format) -> Result<(), JobError>
    ensures { IfErr result (Ends 3 []) }
{
    let Ok(mut output) = BufWriter::new(rt.alloc(), io::writer(rt)) else {
        return Err(JobError::OutOfMemory);
    };
    let written = match write_days(rt.alloc(), days, format, &mut output) {
        Ok(()) => output.flush(),
        Err(RowsFault::Io(error)) => Err(error),
        Err(RowsFault::OutOfMemory) => return Err(JobError::OutOfMemory),
    };
    printed(rt.alloc(), written)
}
