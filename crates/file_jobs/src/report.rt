//! The page of HTML that shows an audited journal.
ghost use Rattle.std.specs.Prelude.{[], IfErr, IsErrAnd, IsTrue, option_map};
ghost use Rattle.file_jobs.specs.StandardInput.{reads_twice};
ghost use Rattle.file_jobs.specs.JobErrors.{Ends};

use crate::audited::replayed;
use crate::job_error::printed;
use crate::{JobError, SiteFiles};
use day_report::DayWatch;
use day_report::adding::watch_day;
use pages::Page;
use site_core::Replayed;
use std::io::{self, BufWriter, Write};

/// Audits the journal in the file that `journal` names, and prints a page of HTML that shows it.
pub fn report_files(rt: &HostRuntime, site: SiteFiles<'_>, journal: &str) -> Result<(), JobError>
    ensures { IsTrue (reads_twice site.entry.config.now (option_map (λ w. w.now) site.entry.opening) journal.now)
        → IsErrAnd result (Ends 2 []) }
{
    let day = replayed(rt, site, journal, watch_day(rt.alloc()))?;
    print_page(rt, &day)
}

fn print_page(rt: &HostRuntime, day: &Replayed<DayWatch>) -> Result<(), JobError>
    ensures { IfErr result (Ends 3 []) }
{
    let page = Page::of(rt.alloc(), day)?;
    let Ok(mut output) = BufWriter::new(rt.alloc(), io::writer(rt)) else {
        return Err(JobError::OutOfMemory);
    };
    let written = match write!(output, "{page}") {
        Ok(()) => output.flush(),
        Err(error) => Err(error),
    };
    printed(rt.alloc(), written)
}
