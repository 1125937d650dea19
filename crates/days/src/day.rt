//! A station's days, as a caller gives them to be checked.
use site_core::{Config, Observer, Site};
use std::fmt;
use till_request::LineIn;

/// A day. `opening` is the bytes with which it begins, and `journal` the device of its journal, if it has them. `seen`
/// is an observer that hasn't seen anything yet.
#[derive(Drop)]
pub struct DayIn<J, S> {
    pub config: Config,
    pub opening: Option<Vec<u8>>,
    pub journal: Option<J>,
    pub seen: S,
}

/// A day couldn't be read, or its end couldn't be told. It doesn't say why.
#[derive(Clone, Copy)]
pub struct NoDay;

/// A station's days, one after another.
pub trait DaysIn {
    /// The device of a day's journal.
    type Journal: LineIn + Drop;

    /// What is shown each entry of a day.
    type Seen: Observer + Drop;

    ghost use Rattle.std.specs.Prelude.{◌≡◌, ◌∷◌, ◌++◌, [], List, Option, IfErr, IfOk, IfSome, OnErr, OnOk};
    ghost use Rattle.site_core.specs.Steps.{steps_of};
    ghost use Rattle.days.specs.Chain.{DayText};
    ghost use Rattle.days.specs.EndedDays.{DayEnd};
    ghost use Rattle.days.specs.Given.{GivesDay};

    /// All days that will still be given, or `None` if they aren't known.
    ghost remaining: { Self → Option (List DayText) };

    /// What holds after `next_day` or `end_day` returned an error.
    ghost failed: { Self → Type 0 };

    /// What holds of the device of each journal that `next_day` returned.
    ghost gave: { Self.Journal → Type 0 } = { λ _. Unit {0} };

    /// It was told the ends of these days, in order, and of no others.
    ghost was_told: { Self → List DayEnd → Type 0 } = { λ _ _. Unit {0} };

    /// The next day, or `None` if there are no more.
    fn next_day(&mut self) -> Result<Option<DayIn<Self::Journal, Self::Seen>>, NoDay>
        ensures gives { IfOk result (GivesDay Self.Journal.remaining (remaining self.old) (remaining self.new)) }
        ensures gave { IfOk result (λ next. IfSome next (λ day. IfSome day.journal gave)) }
        ensures unseen { IfOk result (λ next. IfSome next (λ day. Self.Seen.has_seen day.seen [])) }
        ensures kept { (ends : List DayEnd) → was_told self.old ends → was_told self.new ends }
        ensures failed { IfErr result (λ _. failed self.new) };

    /// Is told that a day is over: its number, its site, and the observer that was shown each entry of it.
    fn end_day(&mut self, number: u32, site: &Site, seen: Self::Seen) -> Result<(), NoDay>
        requires { Self.Seen.has_seen seen (steps_of site.now.config site.now.history) }
        ensures same { remaining self.new ≡ remaining self.old }
        ensures told { OnOk result ((ends : List DayEnd) → was_told self.old ends
            → was_told self.new (ends ++ (record { number = number; site = site.now }) ∷ [])) }
        ensures kept { OnErr result ((ends : List DayEnd) → was_told self.old ends → was_told self.new ends) }
        ensures failed { IfErr result (λ _. failed self.new) };
}

/// How many days follow one another, and how many entries they have in all.
#[derive(Clone, Copy)]
pub struct Chained {
    pub days: u32,
    pub entries: u64,
}

impl fmt::Display for Chained {
    ghost use Rattle.std.specs.Prelude.{Some};
    ghost use Rattle.days.specs.Given.{chained_text};

    ghost output = { λ c. Some (chained_text c.days c.entries) };

    fn fmt<W: fmt::Write>(&self, f: &mut fmt::Formatter<W>) -> fmt::Result {
        write!(f, "legal {} {}", self.days, self.entries)
    }
}
