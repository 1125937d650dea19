//! What another rule would have answered, day by day.

ghost use Rattle.std.specs.Prelude.{◌≡◌, ◌++◌, ◌∷◌, [], false, IfOk, IsTrue, List, OnErr};
ghost use Rattle.site_core.specs.Steps.{StepValue};
ghost use Rattle.what_if.specs.Days.{first_misfit};

use crate::comparison::{Comparison, Reading, is_same_layout};
use crate::rows::DayRows;
use std::alloc::{AllocError, Global};
use verifier::Program;

/// An entry of a day that was decided on a context of another layout than the rule wants.
#[derive(Clone, Copy)]
pub struct DayMisfit {
    pub day: u32,
    pub entry: u32,
}

/// Finds what a rule would have answered at each decision of a slot, on each of many days. Each day is read anew: if
/// counters are carried, then from the first decision of a day on.
#[derive(Drop)]
pub struct DaysComparison<'a> {
    rule: &'a Program,
    slot: u32,
    reading: Reading,
    days: Vec<DayRows>,
    /// The first entry of another layout than the rule wants.
    misfit: Option<DayMisfit>,
}

fn is_same_rule(a: &Program, b: &Program) -> bool
    ensures { IsTrue result → a.now ≡ b.now }
{
    a.bytes() == b.bytes() && a.declared() == b.declared() && is_same_layout(a.layout(), b.layout())
}

fn is_same_reading(a: Reading, b: Reading) -> bool
    ensures { IsTrue result → a ≡ b }
{
    match (a, b) {
        (Reading::AsTheyWere, Reading::AsTheyWere) | (Reading::Carried, Reading::Carried) => true,
        _ => false,
    }
}

fn first_misfit(first: Option<DayMisfit>, day: u32, entry: Option<u32>) -> Option<DayMisfit>
    ensures { result ≡ first_misfit first day entry }
{
    match (first, entry) {
        (None, Some(entry)) => Some(DayMisfit { day, entry }),
        (first, _) => first,
    }
}

impl<'a> DaysComparison<'a> {
    ghost use Rattle.what_if.specs.Comparisons.{HasFound};
    ghost use Rattle.what_if.specs.Days.{DaySteps, HasFoundDays, IsOwn};

    /// Returns a comparison that has seen no day.
    pub fn new(alloc: Global, rule: &'a Program, slot: u32, reading: Reading) -> DaysComparison<'a>
        ensures found { HasFoundDays result [] }
        ensures rule { result.rule.now ≡ rule.now }
        ensures slot { result.slot ≡ slot }
        ensures reading { result.reading ≡ reading }
    {
        DaysComparison {
            rule,
            slot,
            reading,
            days: Vec::new(alloc),
            misfit: None,
        }
    }

    /// Returns the rows of each day.
    pub fn days(&self) -> &[DayRows]
        ensures { result.now ≡ self.now.days.items }
    {
        self.days.as_slice()
    }

    pub fn misfit(&self) -> Option<DayMisfit>
        ensures { result ≡ self.now.misfit }
    {
        self.misfit
    }

    /// Returns a comparison for a day that begins.
    pub fn begin(&self, alloc: Global) -> Comparison<'a>
        ensures found { HasFound result [] }
        ensures own { IsOwn self.now result }
    {
        Comparison::new(alloc, self.rule, self.slot, self.reading)
    }

    fn is_own(&self, seen: &Comparison<'_>) -> bool
        ensures { IsTrue result → IsOwn self.now seen.now }
    {
        is_same_rule(seen.rule(), self.rule)
            && seen.slot() == self.slot
            && is_same_reading(seen.reading(), self.reading)
    }

    /// Takes the rows of a day that is over. Returns false, and takes nothing, if they are of another rule.
    pub fn end(&mut self, day: u32, seen: Comparison<'a>) -> Result<bool, AllocError>
        ensures taken { IfOk result (λ own. IsTrue own → (before : List DaySteps) (steps : List StepValue)
            → HasFoundDays self.old before → HasFound seen.entry steps
            → HasFoundDays self.new (before ++ (day, steps) ∷ [])) }
        ensures other { IfOk result (λ own. own ≡ false → (before : List DaySteps)
            → HasFoundDays self.old before → HasFoundDays self.new before) }
        ensures kept { OnErr result ((before : List DaySteps)
            → HasFoundDays self.old before → HasFoundDays self.new before) }
    {
        if !self.is_own(&seen) {
            return Ok(false);
        }
        let misfit = seen.misfit();
        self.days.push(DayRows {
            day,
            rows: seen.into_rows(),
        })?;
        self.misfit = first_misfit(self.misfit, day, misfit);
        Ok(true)
    }
}
