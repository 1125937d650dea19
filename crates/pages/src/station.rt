//! What is shown of a station.
use day_report::Sums;
use decision_journal::{Entry, Tally};
use site_core::Opening;
use std::fmt;
use till_request::Role;

#[derive(Clone, Copy)]
pub struct StationSnapshot<'a> {
    pub tills: u32,
    /// The number of the served day, from 1; 1 also where no days are served.
    pub day: u32,
    pub entries: u32,
    /// What the next day would begin with if the site were closed now.
    pub next_opening: &'a Opening,
    /// Whether a write to the journal, or a sync of its file, failed.
    pub has_failed: bool,
    /// False if the day was to begin with the given configuration, and couldn't.
    pub is_given: bool,
    /// `None` if the journal isn't kept in a file.
    pub journal: Option<JournalFileStats>,
    /// How often the site was read for display, and how long that waited for the site's lock.
    pub waits: DurationSummary,
    pub tally: &'a Tally,
    pub sums: &'a Sums,
    /// At most 20, the oldest first.
    pub last: &'a [Entry],
    /// For tills, dispensers and the owner, in this order, but for a role without a door.
    pub role_counts: &'a [RoleCounts],
    /// In the order in which the doors were opened.
    pub doors: &'a [DoorCounts<'a>],
    /// In seconds since the start of 1970.
    pub moment: u64,
    /// The resident memory of the process in bytes.
    pub memory: Option<u64>,
}

/// How often something was done, and how long it took in all.
#[derive(Clone, Copy)]
pub struct DurationSummary {
    pub count: u64,
    pub nanoseconds: u64,
}

#[derive(Clone, Copy)]
pub struct JournalFileStats {
    pub bytes: u64,
    /// `None` if answers don't wait for syncs.
    pub syncs: Option<DurationSummary>,
}

#[derive(Clone, Copy)]
pub struct RoleCounts {
    /// `Role::Till`, `Role::Dispenser` or `Role::Owner`.
    pub role: Role,
    /// How many have begun, and not ended.
    pub workers: u32,
    pub open: u64,
    /// Since this day is served.
    pub total: u64,
}

/// What was counted at a door since this day is served.
#[derive(Clone, Copy)]
pub struct DoorCounts<'a> {
    /// `127.0.0.1:` and a port, or the path of a socket.
    pub address: &'a str,
    /// Whom the door is for, such as `tills` or `till 3`.
    pub who: &'a str,
    pub lines: u64,
    /// Connections that spoke another protocol.
    pub turned_away: u64,
}

/// Whether all is well with a station, or the first problem, in the order of the variants.
#[derive(Clone, Copy)]
pub enum Health {
    Healthy,
    /// The site takes no further act.
    JournalFailed,
    /// The journal has 1,000,000 entries or more, of the 1,048,576 that it can have.
    NearlyFull,
    /// No worker serves this role: none has begun, or all have ended.
    NoWorker(Role),
    /// The day was to begin with the given configuration, which couldn't be taken.
    OtherConfig,
}

impl Health {
    ghost use Rattle.std.specs.Prelude.{◌≡◌};
    ghost use Rattle.pages.specs.Health.{health_text};

    pub(crate) fn words(self) -> &'static str
        ensures { result.now ≡ health_text self }
    {
        match self {
            Health::Healthy => "ok",
            Health::JournalFailed => "the journal failed",
            Health::NearlyFull => "the journal is nearly full",
            Health::OtherConfig => "the configuration isn't taken",
            Health::NoWorker(Role::Till | Role::OneTill(..)) => "no worker is left for tills",
            Health::NoWorker(Role::Dispenser | Role::SomePoints(..)) =>
                "no worker is left for dispensers",
            Health::NoWorker(Role::Owner | Role::DaysOwner | Role::All) => {
                "no worker is left for the owner"
            }
        }
    }
}

impl fmt::Display for Health {
    ghost use Rattle.std.specs.Prelude.{Some};
    ghost use Rattle.pages.specs.Health.{health_text};

    ghost output = { λ health. Some (health_text health) };

    fn fmt<W: fmt::Write>(&self, f: &mut fmt::Formatter<W>) -> fmt::Result {
        f.write_str(self.words())
    }
}
