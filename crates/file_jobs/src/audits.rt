//! Audits of a journal.
ghost use Rattle.std.specs.Prelude.{[], IsErrAnd, IsTrue, option_map};
ghost use Rattle.file_jobs.specs.StandardInput.{reads_twice};
ghost use Rattle.file_jobs.specs.JobErrors.{Ends};

use crate::audit_lines::legal_line;
use crate::audited::replayed;
use crate::job_error::print_text;
use crate::{JobError, SiteFiles};
use site_core::Unwatched;

/// Audits the journal in the file that `journal` names, and prints that it is legal.
pub fn audit_files(rt: &HostRuntime, site: SiteFiles<'_>, journal: &str) -> Result<(), JobError>
    ensures { IsTrue (reads_twice site.entry.config.now (option_map (λ w. w.now) site.entry.opening) journal.now)
        → IsErrAnd result (Ends 2 []) }
{
    let day = replayed(rt, site, journal, Unwatched)?;
    print_text(rt, &legal_line(rt.alloc(), day.head().count())?)
}
