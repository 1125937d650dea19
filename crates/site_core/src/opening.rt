//! The opening: what a site keeps from one day to the next.

ghost use Rattle.std.specs.Prelude.{◌≡◌, ◌≢◌, ◌↔◌, ◌≤◌, All, IfSome, IsTrue, MatchOption};
ghost use Rattle.site_core.specs.Slots.{IsRule};
ghost use Rattle.site_core.specs.Opening.{HaveOwnNumbers, IsNewNumber, IsOpening};
ghost use Rattle.site_core.specs.Fitting.{AreLastNumbersWithinLimit, IsFirstLimitFault, Misfits};

use crate::same::{are_same_counters, are_same_points, are_same_rules};
use crate::version::Version;
use fuelling_point::Point;
use std::fmt;
use std::marker::Model;
use verifier::Counters;

/// The greatest number of a point's newest transaction. A day has 1,048,576 entries at most, so the numbers of its
/// transactions stay below 2^32.
const MOST_TRANSACTIONS: u32 = 4_290_000_000;

/// The greatest total of cleared amounts, in cents, and of cleared transactions.
const MOST_CLEARED: u64 = 1_000_000_000_000_000_000;

const MOST_VERSIONS: u32 = 4_290_000_000;

/// Why a site can't begin with an opening: its first fault in the order of these cases, or that memory ran out.
#[derive(Clone, Copy)]
pub enum OpeningFault {
    Points,
    Prices,
    Transactions,
    Cleared,
    Clears,
    Versions,
    Slots,
    Rules,
    DuplicateVersion,
    OutOfMemory,
}

impl fmt::Display for OpeningFault {
    ghost use Rattle.std.specs.Prelude.{Some};
    ghost use Rattle.site_core.specs.Words.{opening_fault_text};

    ghost output = { λ fault. Some (opening_fault_text fault) };

    fn fmt<W: fmt::Write>(&self, f: &mut fmt::Formatter<W>) -> fmt::Result {
        match self {
            OpeningFault::Points => f.write_str(
                "the opening has another number of points than the configuration",
            ),
            OpeningFault::Prices => f.write_str("a price of the opening is over 9,999,999"),
            OpeningFault::Transactions => f.write_str(
                "a point's newest transaction has a number over 4,290,000,000",
            ),
            OpeningFault::Cleared => f.write_str("the cleared total is over 10^18 cents"),
            OpeningFault::Clears => f.write_str("more than 10^18 transactions were cleared"),
            OpeningFault::Versions => f.write_str("more than 4,290,000,000 versions were loaded"),
            OpeningFault::Slots => f.write_str("the opening hasn't 16 slots"),
            OpeningFault::Rules => f.write_str(
                "a slot of the opening has a version that was never loaded",
            ),
            OpeningFault::DuplicateVersion => f.write_str(
                "two slots of the opening have one version",
            ),
            OpeningFault::OutOfMemory => f.write_str("out of memory (S31)"),
        }
    }
}

/// What a site keeps from one day to the next.
#[derive(Drop)]
pub struct Opening {
    pub points: Vec<Point>,
    /// The prices of products 1 to 8 in thousandths of the currency per litre, 0 for none.
    pub prices: [u32; 8],
    pub counters: Counters,
    /// The total of all amounts ever cleared, in cents.
    pub cleared: u64,
    pub clears: u64,
    pub versions: u32,
    /// For each of slots 0 to 15 the version in force.
    pub rules: Vec<Option<Version>>,
}

impl Model for Opening {
    ghost use Rattle.site_core.specs.Opening.{OpeningValue};

    ghost Value = { OpeningValue };

    ghost view = { λ o. record {
      points = o.points.items;
      prices = o.prices;
      counters = o.counters;
      cleared = o.cleared;
      clears = o.clears;
      versions = o.versions;
      rules = o.rules.items;
    } };
}

impl Opening {
    /// Returns the first fault with which a site of `count` points can't begin, and never `OutOfMemory`.
    pub(crate) fn fault(&self, count: usize) -> Option<OpeningFault>
        ensures first { MatchOption result (IsOpening count self.now) (λ fault. Misfits count self.now fault) }
        ensures memory { IfSome result (λ fault. fault ≢ OpeningFault.OutOfMemory) }
    {
        if self.points.len() != count {
            return Some(OpeningFault::Points);
        }
        if !self.prices.iter().all(|price| *price <= 9_999_999) {
            return Some(OpeningFault::Prices);
        }
        let limit_fault = first_limit_fault(
            self.points.as_slice(),
            self.cleared,
            self.clears,
            self.versions,
        );
        if let Some(fault) = limit_fault {
            return Some(fault);
        }
        if self.rules.len() != 16 {
            return Some(OpeningFault::Slots);
        }
        if !are_rules(self.versions, &self.rules) {
            return Some(OpeningFault::Rules);
        }
        if !have_own_numbers(&self.rules) {
            return Some(OpeningFault::DuplicateVersion);
        }
        // So the prover knows that there are 32 counters, each within its bound.
        let _counter = self.counters.get(0);
        None
    }

    // So the prover knows that there are eight prices.
    pub(crate) fn prices(&self) -> [u32; 8]
        ensures { result ≡ self.now.prices }
    {
        self.prices
    }

    pub(crate) fn is_same(&self, other: &Opening) -> bool
        ensures { IsTrue result ↔ (self.now ≡ other.now) }
    {
        if self.numbers() != other.numbers() {
            return false;
        }
        if !are_same_points(&self.points, &other.points) {
            return false;
        }
        if !are_same_counters(&self.counters, &other.counters) {
            return false;
        }
        are_same_rules(&self.rules, &other.rules)
    }

    fn numbers(&self) -> ([u32; 8], u64, u64, u32)
        ensures { result ≡ (self.now.prices, self.now.cleared, self.now.clears, self.now.versions) }
    {
        (self.prices, self.cleared, self.clears, self.versions)
    }
}

/// Returns the fault of the first number that is too great for an opening.
pub(crate) fn first_limit_fault(
    points: &[Point],
    cleared: u64,
    clears: u64,
    versions: u32,
) -> Option<OpeningFault>
    ensures { IsFirstLimitFault points.now cleared clears versions result }
{
    if !are_last_numbers_within_limit(points) {
        return Some(OpeningFault::Transactions);
    }
    if cleared > MOST_CLEARED {
        return Some(OpeningFault::Cleared);
    }
    if clears > MOST_CLEARED {
        return Some(OpeningFault::Clears);
    }
    if versions > MOST_VERSIONS {
        return Some(OpeningFault::Versions);
    }
    None
}

fn are_last_numbers_within_limit(points: &[Point]) -> bool
    ensures { IsTrue result ↔ AreLastNumbersWithinLimit points.now }
{
    points.iter().all(|point| point.last() <= MOST_TRANSACTIONS)
}

fn are_rules(versions: u32, rules: &[Option<Version>]) -> bool
    ensures { IsTrue result ↔ All (IsRule versions) rules.now }
{
    rules.iter().all(|rule| is_rule(versions, rule))
}

fn is_rule(versions: u32, rule: &Option<Version>) -> bool
    ensures { IsTrue result ↔ IsRule versions rule.now }
{
    match rule {
        None => true,
        Some(version) => {
            // So the prover knows that the program is good, and that the verifier accepts it.
            let _bytes = version.program.bytes();
            version.number >= 1 && version.number <= versions
        }
    }
}

fn have_own_numbers(rules: &[Option<Version>]) -> bool
    ensures { IsTrue result ↔ HaveOwnNumbers rules.now }
{
    match rules.split_first() {
        None => true,
        Some((None, rest)) => have_own_numbers(rest),
        Some((Some(version), rest)) => {
            is_new_number(rest, version.number) && have_own_numbers(rest)
        }
    }
}

pub fn is_new_number(rules: &[Option<Version>], number: u32) -> bool
    ensures { IsTrue result ↔ IsNewNumber rules.now number }
{
    match rules.split_first() {
        None => true,
        Some((None, rest)) => is_new_number(rest, number),
        Some((Some(version), rest)) => version.number != number && is_new_number(rest, number),
    }
}
