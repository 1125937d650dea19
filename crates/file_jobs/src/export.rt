//! What `fc export` does.
ghost use Rattle.std.specs.Prelude.{[], IfErr, IsErrAnd, IsTrue, option_map};
ghost use Rattle.file_jobs.specs.StandardInput.{reads_twice};
ghost use Rattle.file_jobs.specs.JobErrors.{Ends};

use crate::audited::audited_site;
use crate::job_error::printed;
use crate::{JobError, SiteFiles};
use day_export::writing::write_rows;
use day_export::{Format, Rows, RowsFault};
use day_report::Sales;
use site_core::Watched;
use std::io::{self, BufWriter, Write};

/// Audits the journal in the file that `journal` names, and prints the rows that are asked for.
pub fn export_files(
    rt: &HostRuntime,
    rows: Rows,
    format: Format,
    site: SiteFiles<'_>,
    journal: &str,
) -> Result<(), JobError>
    ensures { IsTrue (reads_twice site.entry.config.now (option_map (λ w. w.now) site.entry.opening) journal.now)
        → IsErrAnd result (Ends 2 []) }
{
    let day = audited_site(rt, site, journal, Sales::new(rt.alloc()))?;
    print_rows(rt, &day, rows, format)
}

fn print_rows(
    rt: &HostRuntime,
    day: &Watched<Sales>,
    rows: Rows,
    format: Format,
) -> Result<(), JobError>
    ensures { IfErr result (Ends 3 []) }
{
    let Ok(output) = BufWriter::new(rt.alloc(), io::writer(rt)) else {
        return Err(JobError::OutOfMemory);
    };
    let written = match write_rows(rt.alloc(), day, rows, format, output) {
        Ok(mut output) => output.flush(),
        Err(RowsFault::Io(error)) => Err(error),
        Err(RowsFault::OutOfMemory(_output)) => return Err(JobError::OutOfMemory),
    };
    printed(rt.alloc(), written)
}
