//! What an entry did at its site, and who is shown it.

use crate::head::Head;
use decision_journal::Entry;
use fuelling_point::Point;
use std::alloc::AllocError;
use till_request::Act;

#[derive(Clone, Copy)]
pub struct Change {
    /// The point that the act names, or 0.
    pub point: u32,
    pub before: Option<Point>,
    pub after: Option<Point>,
}

/// Is shown what each entry did while a history is replayed.
pub trait Observer {
    ghost use Rattle.std.specs.Prelude.{List, [], ◌∷◌, ◌++◌, OnOk};
    ghost use Rattle.decision_journal.specs.Journal.{IsEntry};
    ghost use Rattle.till_request.specs.declared.act.Act.{Act};
    ghost use Rattle.site_core.specs.State.{SiteState};
    ghost use Rattle.site_core.specs.Steps.{StepValue};

    /// It has seen these steps, in order, and no others.
    ghost has_seen: { Self → List StepValue → Type 0 };

    /// It has looked at this state, from which this act is about to be entered.
    ghost has_looked: { Self → SiteState → Act → Type 0 };

    /// It has memory for one more step.
    ghost is_ready: { Self → Type 0 };

    fn make_ready(&mut self) -> Result<(), AllocError>
        ensures kept { (steps : List StepValue) → has_seen self.old steps → has_seen self.new steps }
        ensures ready { OnOk result (is_ready self.new) };

    /// Looks at the site before an act is entered. Takes no memory.
    fn look(&mut self, before: &Head, act: &Act)
        requires ready { is_ready self.old }
        ensures kept { (steps : List StepValue) → has_seen self.old steps → has_seen self.new steps }
        ensures ready { is_ready self.new }
        ensures looked { has_looked self.new before.now.state act.now };

    /// Sees an entry, the text of its line without LF, and what the entry changed. Takes no memory.
    fn see(&mut self, line: &[u8], entry: &Entry, change: &Change)
        requires text { IsEntry line.now entry.now }
        requires ready { is_ready self.old }
        ensures seen { (steps : List StepValue) (before : SiteState) → has_looked self.old before entry.now.act
            → has_seen self.old steps
            → has_seen self.new (steps ++ (record { entry = entry.now; change = change.now; before = before }) ∷ []) };
}

/// The observer of a replay that nobody watches.
#[derive(Clone, Copy)]
pub struct Unwatched;

impl Observer for Unwatched {
    ghost has_seen = { λ _ _. Unit {0} };

    ghost has_looked = { λ _ _ _. Unit {0} };

    ghost is_ready = { λ _. Unit {0} };

    fn make_ready(&mut self) -> Result<(), AllocError> {
        Ok(())
    }

    fn look(&mut self, _before: &Head, _act: &Act) {}

    fn see(&mut self, _line: &[u8], _entry: &Entry, _change: &Change) {}
}

/// Two observers that are shown the same replay.
#[derive(Drop)]
pub struct Both<A, B> {
    pub first: A,
    pub second: B,
}

impl<A: Observer, B: Observer> Observer for Both<A, B> {
    ghost has_seen = { λ both steps. A.has_seen both.first steps × B.has_seen both.second steps };

    ghost has_looked = { λ both before act. A.has_looked both.first before act × B.has_looked both.second before act };

    ghost is_ready = { λ both. A.is_ready both.first × B.is_ready both.second };

    fn make_ready(&mut self) -> Result<(), AllocError> {
        self.first.make_ready()?;
        self.second.make_ready()
    }

    fn look(&mut self, before: &Head, act: &Act) {
        self.first.look(before, act);
        self.second.look(before, act);
    }

    fn see(&mut self, line: &[u8], entry: &Entry, change: &Change) {
        self.first.see(line, entry, change);
        self.second.see(line, entry, change);
    }
}
