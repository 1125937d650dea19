//! Who is shown the entries of all days of a folder while they are audited.
use crate::job_error::JobError;
use site_core::{Observer, Site, Unwatched};
use std::alloc::{AllocError, Global};

/// Is shown each entry of each day, and told the end of each day.
pub trait DayWatch {
    type Seen: Observer + Drop;

    ghost use Rattle.std.specs.Prelude.{◌∷◌, ◌++◌, [], List, IfOk, OnErr, OnOk};
    ghost use Rattle.site_core.specs.Steps.{steps_of};
    ghost use Rattle.days.specs.EndedDays.{DayEnd};

    /// It was told the ends of these days, in order, and of no others.
    ghost was_told: { Self → List DayEnd → Type 0 } = { λ _ _. Unit {0} };

    /// Returns what is shown each entry of day `number`, and hasn't seen anything yet.
    fn begin_day(&mut self, alloc: Global, number: u32) -> Result<Self::Seen, AllocError>
        ensures unseen { IfOk result (λ seen. Self.Seen.has_seen seen []) }
        ensures kept { (ends : List DayEnd) → was_told self.old ends → was_told self.new ends };

    /// Is told that a day is over: its number, its site, and what was shown each entry of it.
    fn end_day(&mut self, number: u32, site: &Site, seen: Self::Seen) -> Result<(), JobError>
        requires { Self.Seen.has_seen seen (steps_of site.now.config site.now.history) }
        ensures told { OnOk result ((ends : List DayEnd) → was_told self.old ends
            → was_told self.new (ends ++ (record { number = number; site = site.now }) ∷ [])) }
        ensures kept { OnErr result ((ends : List DayEnd) → was_told self.old ends → was_told self.new ends) };
}

/// Watches nothing: the days are only audited.
#[derive(Clone, Copy)]
pub struct UnwatchedDays;

impl DayWatch for UnwatchedDays {
    type Seen = Unwatched;

    fn begin_day(&mut self, _alloc: Global, _number: u32) -> Result<Unwatched, AllocError> {
        Ok(Unwatched)
    }

    fn end_day(&mut self, _number: u32, _site: &Site, _seen: Unwatched) -> Result<(), JobError> {
        Ok(())
    }
}
