//! What `fc carry` does: closes a day, and prints the opening of the next one.
ghost use Rattle.std.specs.Prelude.{[], IsErrAnd, IsTrue, option_map};
ghost use Rattle.file_jobs.specs.StandardInput.{reads_twice};
ghost use Rattle.file_jobs.specs.JobErrors.{Ends};

use crate::job_error::print_text;
use crate::newest::opening_left;
use crate::progress::watch;
use crate::settings::day_and;
use crate::unopened::audited_by;
use crate::{FileIn, JobError, SiteFiles};
use days::closing::close;

/// Audits the journal in the file that `journal` names, and prints the opening of the next day.
pub fn carry_files(rt: &HostRuntime, site: SiteFiles<'_>, journal: &str) -> Result<(), JobError>
    // proved: Nor in any job that reads one
    ensures { IsTrue (reads_twice site.entry.config.now (option_map (λ w. w.now) site.entry.opening) journal.now)
        → IsErrAnd result (Ends 2 []) }
{
    let (day, source) = day_and(rt, site, journal)?;
    let number = day.number;
    let size = source.size();
    let mut input = watch(rt, source, size);
    let audit = close(rt.alloc(), day.config, &mut input);
    input.progress.clear();
    let failure = input.input.reader.failure();
    match audited_by(rt.alloc(), journal, site.is_opened(), audit, failure) {
        Ok(closed) => {
            let (_opening, text) = opening_left(rt.alloc(), journal, number, &closed)?;
            print_text(rt, &text)
        }
        Err(job_error) => Err(job_error),
    }
}
