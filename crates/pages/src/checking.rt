//! Decides the health of a station: whether all is well, or what isn't.
ghost use Rattle.std.specs.Prelude.{◌≡◌};
ghost use Rattle.pages.specs.Health.{health_of, without_worker};

use crate::station::{Health, RoleCounts};
use till_request::Role;

const NEARLY_FULL: u32 = 1_000_000;

fn without_worker(role_counts: &[RoleCounts]) -> Option<Role>
    ensures { result ≡ without_worker role_counts.now }
{
    let (first, more) = role_counts.split_first()?;
    if first.workers == 0 {
        Some(first.role)
    } else {
        without_worker(more)
    }
}

/// `is_given` says whether the day has the given configuration, where it was to begin with that.
pub fn health(has_failed: bool, entries: u32, is_given: bool, role_counts: &[RoleCounts]) -> Health
    // proved: It names the first thing that isn't well
    ensures { result ≡ health_of has_failed entries is_given role_counts.now }
{
    if has_failed {
        return Health::JournalFailed;
    }
    if entries >= NEARLY_FULL {
        return Health::NearlyFull;
    }
    match without_worker(role_counts) {
        None if is_given => Health::Healthy,
        None => Health::OtherConfig,
        Some(role) => Health::NoWorker(role),
    }
}
