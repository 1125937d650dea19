//! The totals of a history: sums of its sales, counts of its decisions and refusals, and lists of its loads, its price
//! changes and its unpaid transactions.

ghost use Rattle.std.specs.Prelude.{◌≡◌, ◌++◌, ◌≤◌, [], IfOk, IfSome, IsOk, List};
ghost use Rattle.std.specs.Prelude.{length, map, not, sum_by, count_by, option_map, take};
ghost use Rattle.decision_journal.specs.declared.entries.Entry.{Entry};
ghost use Rattle.day_report.specs.Carried.{carried_from, carried_rules};
ghost use Rattle.day_report.specs.DayTotals.{IsDay, IsTotals};
ghost use Rattle.day_report.specs.Rulings.{ListsRulings};
ghost use Rattle.day_report.specs.Sums.{AddsUp};
ghost use Rattle.day_report.specs.Totals.{CountsRefusals, version_numbers};
ghost use Rattle.day_report.specs.Totals.{unpaid_transaction, unpaid_of, carried_in};

use crate::counting::{Verdicts, count_of, count_outcomes, verdicts_of};
use crate::loading::Load;
use crate::opening::{CarriedRule, carried_rules, rules_in};
use crate::pushing::push_some;
use crate::rulings::{PriceChange, Rulings};
use crate::sales::Sum;
use crate::steps::Marks;
use crate::sums::Sums;
use decision_journal::{FIRST_REFUSAL, REFUSALS};
use fuelling_point::{Point, Transaction};
use site_core::{Both, Config, Opening, Replayed};
use std::alloc::{AllocError, Global};

/// What is watched while a day is replayed, for its totals and its picture.
pub type DayWatch = Both<Sums, Both<Rulings, Marks>>;

/// Returns the watch of a day, which has seen nothing.
pub fn watch_day(alloc: Global) -> DayWatch
    ensures sums { AddsUp result.first [] }
    ensures rulings { ListsRulings result.second.first [] }
    ensures marks { result.second.second.marks.items ≡ [] }
{
    Both {
        first: Sums::new(),
        second: Both {
            first: Rulings::new(alloc),
            second: Marks::new(alloc),
        },
    }
}

/// The totals of a history: its sales, refusals, versions of rules, price changes and decisions. Also the fuelling
/// points and the unpaid transactions after its last entry.
#[derive(Drop)]
pub struct Totals {
    pub entries: u32,
    pub sums: Sums,
    /// The fuelling points as they are after the last entry.
    pub points: Vec<Point>,
    /// How many entries have each of the refusals S20 to S34 as their reply, S20 first.
    pub refused: Vec<usize>,
    /// The rules that were carried in from the day before, in the order of their slots.
    pub carried: Vec<CarriedRule>,
    pub loads: Vec<Load>,
    /// The version numbers of the rules in `carried`, followed by those of the rules in `loads`.
    pub versions: Vec<u32>,
    pub prices: Vec<PriceChange>,
    /// The transactions that are unpaid after the last entry, those of point 1 first.
    pub unpaid: Vec<Unpaid>,
    pub unpaid_cents: u128,
    /// How many decisions of rules were grants.
    pub granted: usize,
    pub denied: usize,
    /// What each version decided, in the order of `versions`.
    pub verdicts: Vec<Verdicts>,
}

impl Totals {
    /// Returns what was sold at each point of the site, point 1 first.
    pub fn by_point(&self) -> &[Sum]
        ensures { result.now ≡ take (length self.now.points.items) self.now.sums.points }
    {
        let count = self.points.len().min(self.sums.points.len());
        &self.sums.points[..count]
    }
}

/// What a day takes over from the day before: the number and the total cents of unpaid transactions, the number of
/// rules, and the total cents that were cleared before the day.
#[derive(Clone, Copy)]
pub struct CarriedIn {
    pub unpaid: usize,
    pub unpaid_cents: u128,
    pub rules: usize,
    pub cleared: u64,
}

/// An unpaid transaction: its point, its number at the point, its product, or 0 if that isn't known, the product's
/// price when the delivery ended, in thousandths of the currency per litre, its amount in cents, its volume in
/// centilitres, and the till that holds it, or 0 if no till does.
#[derive(Clone, Copy)]
pub struct Unpaid {
    pub point: usize,
    pub number: u32,
    pub product: u32,
    pub price: u32,
    pub amount: u64,
    pub volume: u64,
    pub holder: u32,
}

/// Returns how often each of the numbers 20 to 34 is in `numbers`, 20 first. These are the numbers of the refusals S20
/// to S34.
fn refusal_counts(alloc: Global, numbers: &[u32]) -> Result<Vec<usize>, AllocError>
    ensures { IfOk result (λ counts. CountsRefusals counts.items numbers.now) }
{
    let mut counts = Vec::new(alloc);
    for place in 0..REFUSALS {
        counts.push(count_of(numbers, FIRST_REFUSAL + place))?;
    }
    Ok(counts)
}

/// Returns the unpaid transaction together with `point`, the number of its point. Returns `None` for `None`.
fn unpaid_as(point: usize, transaction: Option<Transaction>) -> Option<Unpaid>
    ensures { result ≡ option_map (unpaid_transaction point) transaction }
{
    let transaction = transaction?;
    Some(Unpaid {
        point,
        number: transaction.number,
        product: transaction.product,
        price: transaction.price,
        amount: transaction.amount,
        volume: transaction.volume,
        holder: transaction.holder,
    })
}

/// Returns the unpaid transactions of all points. Those of point 1 come first, and of the two that a point can have,
/// the older one comes first.
fn unpaid_of(alloc: Global, points: &[Point]) -> Result<Vec<Unpaid>, AllocError>
    ensures found { IfOk result (λ found. found.items ≡ unpaid_of points.now) }
    ensures none { unpaid_of points.now ≡ [] → IsOk result }
{
    let mut found = Vec::new(alloc);
    for (place, point) in points.iter().enumerate() {
        let number = place + 1;
        let [first, second] = point.transactions();
        push_some(&mut found, unpaid_as(number, first))?;
        push_some(&mut found, unpaid_as(number, second))?;
    }
    Ok(found)
}

/// Returns the total in cents of these unpaid transactions.
fn cents_of(unpaid: &[Unpaid]) -> u128
    ensures { result ≡ sum_by (λ (u : Unpaid). u.amount) unpaid.now }
{
    let mut cents = 0;
    for transaction in unpaid {
        cents += transaction.amount as u128;
    }
    cents
}

/// The versions of a day: the rules that were carried in from the day before, the day's loads, and the version numbers
/// of these rules and loads.
#[derive(Drop)]
struct Versions {
    carried: Vec<CarriedRule>,
    loads: Vec<Load>,
    numbers: Vec<u32>,
}

/// Returns the numbers of the versions: first those of the rules in `carried`, then those of `loads`.
fn numbers_of(
    alloc: Global,
    carried: &[CarriedRule],
    loads: &[Load],
) -> Result<Vec<u32>, AllocError>
    ensures { IfOk result
        (λ numbers. numbers.items ≡ map (λ (rule : CarriedRule). rule.version) carried.now
        ++ map (λ (load : Load). load.version) loads.now) }
{
    carried
        .iter()
        .map(|rule| rule.version)
        .chain(loads.iter().map(|load| load.version))
        .collect(alloc)
}

fn versions_in(alloc: Global, config: &Config, loads: &[Load]) -> Result<Versions, AllocError>
    ensures carried { IfOk result (λ v. v.carried.items ≡ carried_rules config.now) }
    ensures loads { IfOk result (λ v. v.loads.items ≡ loads.now) }
    ensures numbers { IfOk result (λ v. v.numbers.items ≡ version_numbers config.now loads.now) }
{
    let carried = carried_rules(alloc, config)?;
    let numbers = numbers_of(alloc, &carried, loads)?;
    Ok(Versions {
        carried,
        loads: Vec::from_slice(alloc, loads)?,
        numbers,
    })
}

/// Returns the totals of a replayed history.
pub fn add_up(alloc: Global, replayed: &Replayed<DayWatch>) -> Result<Totals, AllocError>
    // proved: A day's totals are those of the history replayed | older_transaction_listed_twice
    // proved: Counts by version are in the totals | presets_counted_as_releases
    ensures { IfOk result
        (λ t. (history : List Entry) → IsDay replayed.now history
        → IsTotals replayed.now.head.config history replayed.now.head.state.points t) }
{
    let head = replayed.head();
    let (sums, rulings) = (&replayed.seen().first, &replayed.seen().second.first);
    let points = head.points();
    let unpaid = unpaid_of(alloc, points)?;
    let versions = versions_in(alloc, head.config(), &rulings.loads)?;
    let decisions = rulings.decisions.as_slice();
    let (granted, denied) = count_outcomes(decisions);
    let verdicts = verdicts_of(alloc, decisions, &versions.numbers)?;
    Ok(Totals {
        entries: head.count(),
        sums: *sums,
        points: Vec::from_slice(alloc, points)?,
        refused: refusal_counts(alloc, &rulings.refusals)?,
        carried: versions.carried,
        loads: versions.loads,
        versions: versions.numbers,
        prices: Vec::from_slice(alloc, &rulings.prices)?,
        unpaid_cents: cents_of(&unpaid),
        unpaid,
        granted,
        denied,
        verdicts,
    })
}

/// Returns what the opening (the state that a day begins with) takes over from the day before. The opening must have at
/// most 16 slots. If the opening has no unpaid transaction and no rule, there is no error.
fn carried_by(alloc: Global, opening: &Opening) -> Result<CarriedIn, AllocError>
    requires { length opening.now.rules ≤ 16 }
    ensures found { IfOk result (λ found. found ≡ carried_in opening.now) }
    ensures none { unpaid_of opening.now.points ≡ [] → carried_from 0 opening.now.rules ≡ [] → IsOk result }
{
    let unpaid = unpaid_of(alloc, &opening.points)?;
    let rules = rules_in(alloc, &opening.rules)?;
    Ok(CarriedIn {
        unpaid: unpaid.len(),
        unpaid_cents: cents_of(&unpaid),
        rules: rules.len(),
        cleared: opening.cleared,
    })
}

/// Returns what the opening (the state that a day begins with) takes over from the day before, or `None` if the
/// configuration has no opening. There is no error without an opening, or if the opening has no unpaid transaction and
/// no rule.
pub fn carried_in(alloc: Global, config: &Config) -> Result<Option<CarriedIn>, AllocError>
    // proved found, none: It adds up what is carried in
    ensures found { IfOk result (λ found. found ≡ option_map carried_in config.now.opening) }
    ensures none { IfSome config.now.opening
        (λ opening. (unpaid_of opening.points ≡ []) × (carried_from 0 opening.rules ≡ [])) → IsOk result }
{
    match config.opening() {
        None => Ok(None),
        Some(opening) => Ok(Some(carried_by(alloc, opening)?)),
    }
}
