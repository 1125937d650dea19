//! When days end by themselves: at a time of the day in a zone, whose rules are in a file of the system.
use file_jobs::JobError;
use file_jobs::zone_files::rules_of;
use jiff_tz::Tzif;
use site_config::{Serve, TimeOfDay};
use zones::{next_end, time_zone};

/// When days end by themselves.
#[derive(Drop)]
pub struct DayTimes {
    time: Option<TimeOfDay>,
    /// Those of the zone, `None` in UTC.
    rules: Option<Tzif>,
}

impl DayTimes {
    /// What the configuration in the file `config_name` says. The error is that its zone has no file, or no good one (K3).
    pub fn read(rt: &HostRuntime, config_name: &str, serve: &Serve) -> Result<DayTimes, JobError> {
        let rules = match &serve.zone {
            Some(name) => rules_of(rt, config_name, name.as_str())?,
            None => None,
        };
        Ok(DayTimes {
            time: serve.day_ends,
            rules,
        })
    }

    /// When a day ends that has this moment; `None` if not by itself.
    pub fn end_behind(&self, moment: u64) -> Option<u64> {
        let minute = self.time?.minute();
        let end = next_end(time_zone(&self.rules), minute, i64::try_from(moment).ok()?)?;
        u64::try_from(end).ok()
    }
}
