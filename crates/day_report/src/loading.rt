//! The loads of programs in a history.

ghost use Rattle.std.specs.Prelude.{◌≡◌};
ghost use Rattle.day_report.specs.Decisions.{load_of, moment_after};

use decision_journal::Entry;
use till_request::{Act, Reply};

/// An accepted load of a program: the number of its entry, its slot and its version. The entry of a load has no time.
/// So `moment` is the time in seconds of the last earlier entry that has a time, or 0 if there is none.
#[derive(Clone, Copy)]
pub struct Load {
    pub number: u32,
    pub moment: u64,
    pub slot: u32,
    pub version: u32,
}

#[tactic(auto, unfolding(crate::specs::Decisions::load_of))]
pub(crate) fn load_of(moment: u64, entry: &Entry) -> Option<Load>
    ensures { result ≡ load_of moment entry.now }
{
    match &entry.act {
        Act::Load { slot, .. } => match entry.reply {
            Reply::Version(version) => Some(Load {
                number: entry.number,
                moment,
                slot: *slot,
                version,
            }),
            _ => None,
        },
        _ => None,
    }
}

/// Returns the moment of an entry (its time in seconds), or `moment` if the entry has none. `moment` is the moment of
/// the last earlier entry that has one, or 0 if none has.
pub(crate) fn moment_after(moment: u64, entry: &Entry) -> u64
    ensures { result ≡ moment_after moment entry.now }
{
    if entry.moment == 0 {
        moment
    } else {
        entry.moment
    }
}
