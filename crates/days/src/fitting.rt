//! Whether an opening fits a configuration: the points that the configuration lacks, the tills that hold transactions,
//! and each counter within its bound.
ghost use Rattle.std.specs.Prelude.{◌≡◌, ◌≤◌, ◌<◌, ◌↔◌, ℕ, All, MatchOption, IfOk, IsTrue, OnErr, OnOk, Some, drop, length, option_to_list};
ghost use Rattle.bpf_model.specs.Machine.{counter};
ghost use Rattle.days.specs.Fitting.{AreBounded, Fits, HasTill, HaveTills, MayGo, fitted_points, refitted};
ghost use Rattle.days.specs.Misfits.{IsHeldOver, IsKept, Misfits, first_held};

use fuelling_point::{Point, State, Transaction};
use site_core::{Config, Opening};
use std::alloc::AllocError;
use std::fmt::{self, Display};
use verifier::Counters;

/// Why an opening doesn't fit a configuration: the first case that applies.
#[derive(Clone, Copy)]
pub enum Misfit {
    /// The configuration has fewer points, and one that it lacks isn't closed, or has unpaid transactions. First comes
    /// the configuration's number of points, then the place of the first such one behind them, counted from 0.
    Point(usize, usize),
    /// A till beyond the configuration's number of tills, which comes last, holds a transaction. First come the place
    /// of the first point with such a one, counted from 0, and its first.
    Till(usize, Transaction, u32),
    /// The first counter whose value is over its bound in the configuration: number, value and bound.
    Counter(u32, u64, u64),
}

impl Display for Misfit {
    ghost use Rattle.std.specs.Prelude.{Some};
    ghost use Rattle.days.specs.Words.{misfit_text};

    ghost output = { λ misfit. Some (misfit_text misfit) };

    fn fmt<W: fmt::Write>(&self, f: &mut fmt::Formatter<W>) -> fmt::Result {
        match *self {
            Misfit::Point(there, at) => {
                let point = there.saturating_add(at).saturating_add(1);
                write!(
                    f,
                    "point {point} isn't closed or has unpaid transactions, the configuration has {there} points"
                )
            }
            Misfit::Till(at, transaction, tills) => {
                let point = at.saturating_add(1);
                write!(f, "point {point}: {}", HeldBy(transaction, tills))
            }
            Misfit::Counter(counter, value, bound) => {
                write!(f, "counter {counter} {}", OverBound(value, bound))
            }
        }
    }
}

/// A transaction that a till holds, and the number of tills.
#[derive(Clone, Copy)]
struct HeldBy(Transaction, u32);

impl Display for HeldBy {
    ghost use Rattle.std.specs.Prelude.{Some};
    ghost use Rattle.days.specs.Words.{held_by_text};

    ghost output = { λ h. Some (held_by_text h.0 h.1) };

    fn fmt<W: fmt::Write>(&self, f: &mut fmt::Formatter<W>) -> fmt::Result {
        let (number, till, tills) = (self.0.number, self.0.holder, self.1);
        write!(
            f,
            "transaction {number} is held by till {till}, 'tills' is {tills}"
        )
    }
}

/// A counter's value and its new bound.
#[derive(Clone, Copy)]
struct OverBound(u64, u64);

impl Display for OverBound {
    ghost use Rattle.std.specs.Prelude.{Some};
    ghost use Rattle.days.specs.Words.{over_bound_text};

    ghost output = { λ o. Some (over_bound_text o.0 o.1) };

    fn fmt<W: fmt::Write>(&self, f: &mut fmt::Formatter<W>) -> fmt::Result {
        write!(
            f,
            "has the value {}, its bound in the configuration is {}",
            self.0, self.1
        )
    }
}

/// Why the opening doesn't fit the configuration, or `None` if it does.
pub fn first_misfit(config: &Config, opening: &Opening) -> Option<Misfit>
    // proved: It says what doesn't fit
    ensures { MatchOption result (Fits config.now opening.now) (Misfits config.now opening.now) }
{
    let there = config.points().len();
    if let Some(at) = kept_point(beyond(&opening.points, there)) {
        return Some(Misfit::Point(there, at));
    }
    if let Some((at, transaction)) = held_over(&opening.points, config.tills()) {
        return Some(Misfit::Till(at, transaction, config.tills()));
    }
    let cells = bounded(&opening.counters, &config.counters());
    match over(&cells) {
        None => None,
        Some(c) => Some(Misfit::Counter(c as u32, cells[c].0, cells[c].1)),
    }
}

/// The opening's counters with the configuration's bounds.
pub(crate) fn rebounded(config: &Config, opening: &Opening) -> Counters
    requires { Fits config.now opening.now }
    // proved: It gives an opening the configuration's bounds | opening_keeps_its_own_bounds
    ensures bounds { AreBounded opening.now.counters config.now.counters result }
    ensures many { length result ≡ 32 }
{
    Counters::new(bounded(&opening.counters, &config.counters()))
}

/// The opening with these counters and this number of points: those that it lacks are new, and closed.
pub(crate) fn fitted(
    count: usize,
    counters: Counters,
    mut opening: Opening,
) -> Result<Opening, AllocError>
    // proved: A point that comes is closed, and one that goes leaves nothing
    ensures same { IfOk result (λ new. new ≡ refitted count opening counters) }
    ensures memory { OnErr result (length opening.points < count) }
{
    fit_points(&mut opening.points, count)?;
    Ok(Opening {
        counters,
        ..opening
    })
}

/// The points behind the first `count`.
fn beyond(points: &[Point], count: usize) -> &[Point]
    ensures { result.now ≡ drop count points.now }
{
    &points[count.min(points.len())..]
}

/// The first point, counted from 0, that isn't closed or has unpaid transactions.
fn kept_point(points: &[Point]) -> Option<usize>
    ensures { MatchOption result (All MayGo points.now) (IsKept points.now) }
{
    points.iter().position(|point| !may_go(point))
}

fn may_go(point: &Point) -> bool
    ensures { IsTrue result ↔ MayGo point.now }
{
    point.state() == State::Closed && point.unpaid() == 0
}

/// Cuts the points off behind `count`, or adds closed ones until there are as many.
fn fit_points(points: &mut Vec<Point>, count: usize) -> Result<(), AllocError>
    ensures fitted { OnOk result (points.new.items ≡ fitted_points count points.old.items) }
    ensures memory { OnErr result (length points.old.items < count) }
{
    points.truncate(count);
    points.resize(count, Point::new())
}

/// The first point, counted from 0, with a transaction held by a till over `tills`, and its first such one.
fn held_over(points: &[Point], tills: u32) -> Option<(usize, Transaction)>
    ensures { MatchOption result (HaveTills tills points.now) (λ m. IsHeldOver tills points.now m.0 m.1) }
{
    for (at, point) in points.iter().enumerate() {
        if let Some(transaction) = held_at(point, tills) {
            return Some((at, transaction));
        }
    }
    None
}

fn held_at(point: &Point, tills: u32) -> Option<Transaction>
    ensures { MatchOption result (All (HasTill tills) point.now.unpaid)
        (λ t. first_held tills point.now.unpaid ≡ Some t) }
{
    let [first, second] = point.transactions();
    match held(first, tills) {
        Some(transaction) => Some(transaction),
        None => held(second, tills),
    }
}

fn held(place: Option<Transaction>, tills: u32) -> Option<Transaction>
    ensures { MatchOption result (All (HasTill tills) (option_to_list place))
        (λ t. first_held tills (option_to_list place) ≡ Some t) }
{
    let transaction = place?;
    if transaction.holder > tills {
        Some(transaction)
    } else {
        None
    }
}

fn bounded(counters: &Counters, bounds: &[(u64, u64); 32]) -> [(u64, u64); 32]
    ensures { AreBounded counters.now bounds.now result }
{
    let mut cells = [(0, 0); 32];
    for c in 0..32u32 {
        cells[c as usize] = (counters.get(c), bounds[c as usize].1);
    }
    cells
}

/// The first counter over its bound.
fn over(cells: &[(u64, u64); 32]) -> Option<usize>
    ensures { MatchOption result (All (λ (c : ℕ × ℕ). c.0 ≤ c.1) cells.now)
        (λ c. (c < 32) × ((counter cells.now c).1 < (counter cells.now c).0)
        × ((k : ℕ) → k < c → (counter cells.now k).0 ≤ (counter cells.now k).1)) }
{
    cells.iter().position(|(value, bound)| value > bound)
}
