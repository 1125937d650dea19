//! What `fc whatif` does.
ghost use Rattle.std.specs.Prelude.{◌≡◌, [], IfErr, IfOk, IsErrAnd, IsSome, IsTrue, option_map, string_bytes};
ghost use Rattle.bpf_asm.specs.ProgramFile.{program_in};
ghost use Rattle.file_jobs.specs.FileFlaws.{IsVerifyFlaw};
ghost use Rattle.file_jobs.specs.JobErrors.{Ends, Refuses, Says, SaysOf};
ghost use Rattle.file_jobs.specs.StandardInput.{reads_rule_twice, reads_twice};

use crate::audited::replayed;
use crate::files::text_of;
use crate::job_error::{print_text, printed};
use crate::printing::refuse_file;
use crate::program_files::program_of;
use crate::settings::refuse_twice;
use crate::statuses::REFUSED;
use crate::{JobError, Place, SiteFiles, WhatIf, WhatIfFormat};
use bpf_model::context::Layout;
use std::alloc::Global;
use std::io::{self, BufWriter, Write};
use verifier::Program;
use what_if::summary::summary;
use what_if::writing::write_rows;
use what_if::{Comparison, Format, Row, RowsFault, RowsOf};

/// Audits the journal in the file that `journal` names, and prints what another rule would have answered at each
/// decision of a slot.
pub fn what_if_files(
    rt: &HostRuntime,
    site: SiteFiles<'_>,
    journal: &str,
    what_if: &WhatIf,
) -> Result<(), JobError>
    ensures twice { IsTrue (reads_twice site.entry.config.now (option_map (λ w. w.now) site.entry.opening) journal.now)
        → IsErrAnd result (Ends 2 []) }
    ensures rule { IsTrue (reads_rule_twice site.entry.config.now (option_map (λ w. w.now) site.entry.opening)
        journal.now (string_bytes what_if.now.rule))
        → IsErrAnd result (Ends 2 []) }
{
    if site.reads_twice(journal) || site.reads_rule_twice(journal, &what_if.rule) {
        return Err(refuse_twice(rt.alloc()));
    }
    let rule = rule_in(rt, what_if)?;
    let seen = Comparison::new(rt.alloc(), &rule, what_if.slot, what_if.reading);
    let day = replayed(rt, site, journal, seen)?;
    print_compared(rt, journal, day.seen(), what_if)
}

/// Reads the rule, and verifies it.
pub(crate) fn rule_in(rt: &HostRuntime, what_if: &WhatIf) -> Result<Program, JobError>
    ensures { IfErr result (Refuses 1) }
{
    let file = text_of(rt, &what_if.rule)?;
    match program_of(rt.alloc(), &file, what_if.counters, what_if.context) {
        Ok(rule) => Ok(rule),
        Err(flaw) => Err(refuse_file(rt.alloc(), &what_if.rule, &flaw)),
    }
}

pub(crate) fn layout_number(layout: Layout) -> u32 {
    match layout {
        Layout::One => 1,
        Layout::Two => 2,
    }
}

pub(crate) fn other_layout(layout: Layout) -> Layout {
    match layout {
        Layout::One => Layout::Two,
        Layout::Two => Layout::One,
    }
}

/// For a rule that wants this layout, where an entry was decided on a context of the other.
fn refuse_layout(alloc: Global, journal: &str, entry: u32, layout: Layout) -> JobError
    ensures { Ends 1 [] result }
{
    let (wanted, found) = (layout_number(layout), layout_number(other_layout(layout)));
    let words = format_args!(
        "entry {entry} was decided on a context of layout {found}, this rule wants layout {wanted}"
    );
    JobError::at(alloc, Place::of(journal), &words, REFUSED)
}

fn refuse_none(alloc: Global, journal: &str, slot: u32) -> JobError
    ensures { Ends 1 [] result }
{
    let words = format_args!("slot {slot} made no decision in this journal");
    JobError::at(alloc, Place::of(journal), &words, REFUSED)
}

fn print_compared(
    rt: &HostRuntime,
    journal: &str,
    seen: &Comparison<'_>,
    what_if: &WhatIf,
) -> Result<(), JobError>
    ensures misfit { IsSome seen.now.misfit → IsErrAnd result (Ends 1 []) }
    ensures none { seen.now.rows.items ≡ [] → IsErrAnd result (Ends 1 []) }
{
    if let Some(entry) = seen.misfit() {
        return Err(refuse_layout(rt.alloc(), journal, entry, seen.layout()));
    }
    if seen.rows().is_empty() {
        return Err(refuse_none(rt.alloc(), journal, what_if.slot));
    }
    print_rows(rt, seen.rows(), what_if)
}

fn print_rows(rt: &HostRuntime, rows: &[Row], what_if: &WhatIf) -> Result<(), JobError>
    ensures { IfErr result (Ends 3 []) }
{
    match what_if.format {
        WhatIfFormat::Csv => print_lines(rt, rows, Format::Csv),
        WhatIfFormat::Json => print_lines(rt, rows, Format::Json),
        WhatIfFormat::Summary => match summary(
            rt.alloc(),
            what_if.slot,
            &[RowsOf { day: None, rows }],
        ) {
            Ok(text) => print_text(rt, &text),
            Err(_) => Err(JobError::OutOfMemory),
        },
    }
}

fn print_lines(rt: &HostRuntime, rows: &[Row], format: Format) -> Result<(), JobError>
    ensures { IfErr result (Ends 3 []) }
{
    let Ok(mut output) = BufWriter::new(rt.alloc(), io::writer(rt)) else {
        return Err(JobError::OutOfMemory);
    };
    let written = match write_rows(rt.alloc(), rows, format, &mut output) {
        Ok(()) => output.flush(),
        Err(RowsFault::Io(error)) => Err(error),
        Err(RowsFault::OutOfMemory) => return Err(JobError::OutOfMemory),
    };
    printed(rt.alloc(), written)
}
