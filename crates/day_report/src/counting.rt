//! Counts what each version of a rule decided, and how often each refusal was the reply.

ghost use Rattle.std.specs.Prelude.{◌≡◌, ◌==◌, ◌<◌, ◌^◌, IfOk, count_by, fold, length, map, not, replicate, slice_index_or};
ghost use Rattle.day_report.specs.Totals.{AllDecided, no_verdicts, places_for, plus_outcome, table_with, verdicts_with};

use crate::rulings::{Decision, RequestKind};
use std::alloc::{AllocError, Global};

/// How many requests were granted, and how many were denied.
#[derive(Clone, Copy)]
pub struct Outcome {
    pub granted: u64,
    pub denied: u64,
}

const NO_OUTCOME: Outcome = Outcome {
    granted: 0,
    denied: 0,
};

/// What a version of a rule decided on releases, on presets and on prices, and on the requests of each of the tills 1 to
/// 64.
#[derive(Clone, Copy)]
pub struct Verdicts {
    pub releases: Outcome,
    pub presets: Outcome,
    pub prices: Outcome,
    pub tills: [Outcome; 64],
}

/// Returns the outcome with one decision more. A number that would be too great stays its greatest.
fn plus(outcome: Outcome, is_granted: bool) -> Outcome
    ensures { result ≡ plus_outcome outcome is_granted }
{
    let Outcome { granted, denied } = outcome;
    if is_granted {
        Outcome {
            granted: granted.saturating_add(1),
            denied,
        }
    } else {
        Outcome {
            granted,
            denied: denied.saturating_add(1),
        }
    }
}

impl Verdicts {
    /// Returns the verdicts of a version that decided nothing.
    fn none() -> Verdicts
        ensures { result ≡ no_verdicts }
    {
        Verdicts {
            releases: NO_OUTCOME,
            presets: NO_OUTCOME,
            prices: NO_OUTCOME,
            tills: [NO_OUTCOME; 64],
        }
    }

    fn count(&mut self, decision: &Decision)
        ensures { self.new ≡ verdicts_with self.old decision.now }
    {
        let granted = decision.is_granted;
        match decision.asked {
            RequestKind::Release => self.releases = plus(self.releases, granted),
            RequestKind::Preset => self.presets = plus(self.presets, granted),
            RequestKind::Price => self.prices = plus(self.prices, granted),
        }
        let till = decision.till as usize;
        if till >= 1 && till <= self.tills.len() {
            self.tills[till - 1] = plus(self.tills[till - 1], granted);
        }
    }
}

/// Counts a decision at the place of its version's number, if there is such a place.
fn count_in(table: &mut [Verdicts], decision: &Decision)
    ensures { table.new ≡ table_with table.old decision.now }
{
    let place = decision.version as usize;
    if place < table.len() {
        table[place].count(decision);
    }
}

/// Counts all decisions, of which there are fewer than 2^64.
fn count_all(table: &mut [Verdicts], decisions: &[Decision])
    ensures counted { table.new ≡ fold table_with table.old decisions.now }
    ensures short { length decisions.now < 2 ^ 64 }
{
    for decision in decisions {
        count_in(table, decision);
    }
}

/// Returns the least number that is over each of these versions.
fn places_for(versions: &[u32]) -> usize
    ensures { result ≡ places_for versions.now }
{
    let mut places = 0;
    for version in versions {
        places = places.max(*version as usize + 1);
    }
    places
}

/// Returns what each of these versions decided, in the order of `versions`.
pub fn verdicts_of(
    alloc: Global,
    decisions: &[Decision],
    versions: &[u32],
) -> Result<Vec<Verdicts>, AllocError>
    // proved: It counts decisions by version | decisions_by_till
    ensures { IfOk result (λ found. AllDecided versions.now decisions.now found.items) }
{
    let mut table = empty_table(alloc, places_for(versions))?;
    count_all(&mut table, decisions);
    places_of(alloc, &table, versions)
}

fn empty_table(alloc: Global, places: usize) -> Result<Vec<Verdicts>, AllocError>
    ensures { IfOk result (λ table. table.items ≡ replicate places no_verdicts) }
{
    vec![in alloc; Verdicts::none(); places]
}

fn verdicts_at(table: &[Verdicts], version: u32) -> Verdicts
    ensures { result ≡ slice_index_or table.now version no_verdicts }
{
    match table.get(version as usize) {
        Some(verdicts) => *verdicts,
        None => Verdicts::none(),
    }
}

/// Returns what the table has at the place of each version.
fn places_of(
    alloc: Global,
    table: &[Verdicts],
    versions: &[u32],
) -> Result<Vec<Verdicts>, AllocError>
    ensures { IfOk result
        (λ found. found.items ≡ map (λ version. slice_index_or table.now version no_verdicts) versions.now) }
{
    versions
        .iter()
        .map(|version| verdicts_at(table, *version))
        .collect(alloc)
}

/// Returns how many of the decisions are grants, and how many are denials.
pub(crate) fn count_outcomes(decisions: &[Decision]) -> (usize, usize)
    ensures granted { result.0 ≡ count_by (λ (d : Decision). d.is_granted) decisions.now }
    ensures denied { result.1 ≡ count_by (λ (d : Decision). not d.is_granted) decisions.now }
{
    let granted = decisions.iter().filter(|decision| decision.is_granted);
    let denied = decisions.iter().filter(|decision| !decision.is_granted);
    (granted.count(), denied.count())
}

/// Returns how often `number` is in the list `numbers`.
pub fn count_of(numbers: &[u32], number: u32) -> usize
    // proved: It counts how often a number occurs
    ensures { result ≡ count_by (λ n. n == number) numbers.now }
{
    let mut count = 0;
    for n in numbers {
        if *n == number {
            count += 1;
        }
    }
    count
}
