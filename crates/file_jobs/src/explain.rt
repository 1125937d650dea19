//! What `fc explain` does.
ghost use Rattle.std.specs.Prelude.{◌≡◌, [], true, IsErrAnd, IsTrue, option_map};
ghost use Rattle.file_jobs.specs.StandardInput.{is_input, reads_twice};
ghost use Rattle.file_jobs.specs.JobErrors.{Ends};

use crate::audited::audited_serving;
use crate::job_error::print_text;
use crate::messages::Place;
use crate::statuses::{FAILED, REFUSED};
use crate::zone_files::rules_of;
use crate::{Folder, JobError, Part, SiteFiles};
use explaining::explained::explain;
use explaining::json::explanation_json;
use explaining::writing::explanation;
use explaining::{ExplainFault, Explained, Zone};
use jiff_tz::Tzif;
use site_config::Serve;
use site_core::Unwatched;
use std::alloc::{AllocError, Global};
use zones::{offset_at, time_zone};

/// Audits the journal in the file that `journal` names, and prints why its entry `number` was answered so.
pub fn explain_files(
    rt: &HostRuntime,
    site: SiteFiles<'_>,
    journal: &str,
    number: u32,
    is_json: bool,
) -> Result<(), JobError>
    ensures { IsTrue (reads_twice site.entry.config.now (option_map (λ w. w.now) site.entry.opening) journal.now)
        → IsErrAnd result (Ends 2 []) }
{
    let (day, serve) = audited_serving(rt, site, journal, Unwatched)?;
    let rules = zone_rules(rt, site.config(), &serve)?;
    match explain(rt.alloc(), day.site(), number) {
        Ok(explained) => {
            let zone = zone_at(&serve, &rules, explained.entry.moment);
            print_text(rt, &told(rt.alloc(), &explained, &zone, is_json)?)
        }
        Err(fault) => Err(unexplained(rt.alloc(), journal, number, fault)),
    }
}

/// Explains an entry like `explain_files`, of a day whose files are in the folder that `path` names. `config` names the
/// configuration for a day that has none there.
pub fn explain_day(
    rt: &HostRuntime,
    path: &str,
    config: &str,
    day: u32,
    number: u32,
    is_json: bool,
) -> Result<(), JobError>
    ensures { is_input path.now ≡ true → IsErrAnd result (Ends 2 []) }
{
    let folder = Folder::named(rt, path)?;
    let own = folder.file(rt, day, Part::Config)?;
    let opening = folder.file(rt, day, Part::Opening)?;
    let journal = folder.file(rt, day, Part::Journal)?;
    let config = if folder.has(rt, day, Part::Config)? {
        own.as_str()
    } else {
        config
    };
    let opening = if folder.has(rt, day, Part::Opening)? {
        Some(opening.as_str())
    } else {
        None
    };
    explain_files(
        rt,
        SiteFiles::new(config, opening),
        &journal,
        number,
        is_json,
    )
}

/// The rules of the zone that a configuration names; `None` in UTC.
fn zone_rules(
    rt: &HostRuntime,
    config: &str,
    serve: &Option<Serve>,
) -> Result<Option<Tzif>, JobError> {
    match serve {
        Some(
            Serve {
                zone: Some(name),
                ..
            },
        ) => rules_of(rt, config, name.as_str()),
        _ => Ok(None),
    }
}

/// The zone that a configuration names, with these rules, at a moment.
fn zone_at<'a>(serve: &'a Option<Serve>, rules: &Option<Tzif>, moment: u64) -> Option<Zone<'a>> {
    let Some(
        Serve {
            zone: Some(name),
            ..
        },
    ) = serve
    else {
        return None;
    };
    let ahead = offset_at(time_zone(rules), i64::try_from(moment).ok()?)?;
    Some(Zone {
        name: name.as_str(),
        ahead,
    })
}

fn told(
    alloc: Global,
    explained: &Explained<'_>,
    zone: &Option<Zone<'_>>,
    is_json: bool,
) -> Result<String, AllocError> {
    if is_json {
        explanation_json(alloc, explained, zone)
    } else {
        explanation(alloc, explained, zone)
    }
}

fn unexplained(alloc: Global, journal: &str, number: u32, fault: ExplainFault) -> JobError {
    let place = Place::of(journal);
    match fault {
        ExplainFault::NoEntry => {
            JobError::at(
                alloc,
                place,
                &format_args!("there is no entry {number}"),
                REFUSED,
            )
        }
        ExplainFault::NotMadeAgain => {
            let words = format_args!("the site doesn't decide entry {number} so again");
            JobError::at(alloc, place, &words, FAILED)
        }
        ExplainFault::OutOfMemory => JobError::OutOfMemory,
    }
}
