//! What the sales of a history come to, counted while the history grows.

ghost use Rattle.std.specs.Prelude.{◌≡◌, ◌↔◌, ◌<◌, ◌^◌, ◌++◌, ◌∷◌, [], List, OnErr, OnOk, slice_set, take, true};
ghost use Rattle.site_core.specs.State.{SiteState};
ghost use Rattle.site_core.specs.Steps.{StepValue};
ghost use Rattle.day_report.specs.Sales.{off_entries, sales_in};
ghost use Rattle.day_report.specs.Sums.{AddsUp, CountsOff, HasRoom, hour_number, no_sum, plus, plus_at, with_off, with_sale};

use crate::sales::{Sale, Sum, is_off, sale_of};
use decision_journal::Entry;
use site_core::{Change, Head, Observer};
use std::alloc::AllocError;
use till_request::Act;

const NO_SUM: Sum = Sum {
    count: 0,
    cents: 0,
    centilitres: 0,
};

/// The sales that are off by more than a cent: how many there are, and the entries that cleared the first eight of them.
/// If there are fewer, zeros follow.
#[derive(Clone, Copy)]
pub struct OffSales {
    pub count: u64,
    pub entries: [u32; 8],
}

/// What the sales of a history come to so far: all of them, those at each of the points 1 to 32, those that each of the
/// tills 1 to 64 cleared, and those in each of the hours 0 to 23 of the day, in UTC. A sale without a moment is in no
/// hour. Also which sales are off by more than a cent.
#[derive(Clone, Copy)]
pub struct Sums {
    pub all: Sum,
    pub points: [Sum; 32],
    pub tills: [Sum; 64],
    pub hours: [Sum; 24],
    pub off: OffSales,
}

/// Returns the sum with one sale more, of this amount and volume. A number that would be too great stays its greatest.
fn plus(sum: Sum, amount: u64, volume: u64) -> Sum
    ensures { result ≡ plus sum amount volume }
{
    Sum {
        count: sum.count.saturating_add(1),
        cents: sum.cents.saturating_add(amount as u128),
        centilitres: sum.centilitres.saturating_add(volume as u128),
    }
}

/// Adds a sale of this amount and volume to the `n`-th sum, counted from 1. If there is no such sum, nothing changes.
fn add_at(sums: &mut [Sum], n: u64, amount: u64, volume: u64)
    ensures { sums.new ≡ plus_at sums.old n amount volume }
{
    if n >= 1 && n <= sums.len() as u64 {
        let place = n as usize - 1;
        sums[place] = plus(sums[place], amount, volume);
    }
}

/// Returns the number of the hour of a moment, counted from 1, or 0 if `moment` is 0.
fn hour_number(moment: u64) -> u64
    ensures { result ≡ hour_number moment }
{
    if moment == 0 {
        0
    } else {
        moment / 3600 % 24 + 1
    }
}

/// Writes `number` to this place, counted from 0. If there is no such place, nothing changes.
fn write_at(numbers: &mut [u32], place: u64, number: u32)
    ensures { numbers.new ≡ slice_set numbers.old place number }
{
    if place < numbers.len() as u64 {
        numbers[place as usize] = number;
    }
}

impl OffSales {
    /// Returns the entries that cleared the first sales that are off, at most eight.
    pub fn first(&self) -> &[u32]
        // proved: It names the first eight sales that are off
        ensures { (sales : List Sale) → CountsOff self.now sales → result.now ≡ take 8 (off_entries sales) }
    {
        let count = self.count.min(self.entries.len() as u64) as usize;
        &self.entries[..count]
    }

    /// Counts a sale, if it is off by more than a cent.
    fn add(&mut self, sale: &Sale)
        ensures { self.new ≡ with_off self.old sale.now }
    {
        if is_off(sale) {
            write_at(&mut self.entries, self.count, sale.number);
            self.count = self.count.saturating_add(1);
        }
    }
}

impl Sums {
    /// Returns the sums of no sales.
    pub fn new() -> Sums
        ensures { AddsUp result [] }
    {
        Sums {
            all: NO_SUM,
            points: [NO_SUM; 32],
            tills: [NO_SUM; 64],
            hours: [NO_SUM; 24],
            off: OffSales {
                count: 0,
                entries: [0; 8],
            },
        }
    }

    /// Returns whether one more sale can be counted, which is so until there are 2^64 - 1.
    pub fn has_room(&self) -> bool
        ensures { result ≡ true ↔ HasRoom self.now }
    {
        self.all.count < u64::MAX
    }

    /// Counts the sale that an entry made, if it made one.
    pub fn count(&mut self, entry: &Entry, change: &Change)
        requires { HasRoom self.old }
        // proved: Each sale is added to its point, till and hour | sale_goes_to_the_next_till
        // proved: Hours are counted from 0 | hours_begin_at_one
        // proved: Sales that are off by more than a cent are counted | cent_is_off
        ensures { (steps : List StepValue) (before : SiteState) → AddsUp self.old (sales_in steps) → AddsUp self.new
            (sales_in (steps ++ (record { entry = entry.now; change = change.now; before = before }) ∷ [])) }
    {
        match sale_of(&[], entry, change) {
            Some(sale) => self.add(sale),
            None => {}
        }
    }

    fn add(&mut self, sale: Sale)
        ensures added { self.new ≡ with_sale self.old sale }
        ensures in_range { (sale.amount < 2 ^ 64) × (sale.volume < 2 ^ 64) }
    {
        let (amount, volume) = (u64::from(sale.amount), u64::from(sale.volume));
        self.all = plus(self.all, amount, volume);
        add_at(&mut self.points, sale.point as u64, amount, volume);
        add_at(&mut self.tills, sale.till as u64, amount, volume);
        add_at(&mut self.hours, hour_number(sale.moment), amount, volume);
        self.off.add(&sale);
    }
}

impl Observer for Sums {
    ghost use Rattle.day_report.specs.Sales.{sales_in};
    ghost use Rattle.day_report.specs.Sums.{AddsUp, HasRoom};

    ghost has_seen = { λ sums steps. AddsUp sums (sales_in steps) };

    ghost has_looked = { λ _ _ _. Unit {0} };

    ghost is_ready = { HasRoom };

    fn make_ready(&mut self) -> Result<(), AllocError>
        ensures kept { (steps : List StepValue) → AddsUp self.old (sales_in steps) → AddsUp self.new (sales_in steps) }
        ensures ready { OnOk result (HasRoom self.new) }
        ensures full { OnErr result (¬ HasRoom self.old) }
    {
        if self.has_room() {
            Ok(())
        } else {
            Err(AllocError)
        }
    }

    fn look(&mut self, _before: &Head, _act: &Act) {}

    fn see(&mut self, _line: &[u8], entry: &Entry, change: &Change) {
        self.count(entry, change);
    }
}
