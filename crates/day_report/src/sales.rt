//! The sales of a history. A sale is a transaction that a till cleared: it was paid, and is gone.

ghost use Rattle.std.specs.Prelude.{◌≡◌, ◌<◌, ◌≤◌, find, IfSome, vec_capacity, vec_len};
ghost use Rattle.site_core.specs.State.{SiteState};
ghost use Rattle.day_report.specs.Sales.{clearing_of, end_of, ended_by, is_delivery_of, is_off, off_by, sale_of, uncleared};
ghost use Rattle.day_report.specs.Sales.{unpaid_at, without, worth};

use decision_journal::Entry;
use fuelling_point::{Point, Transaction};
use site_core::{Change, Head, Observer};
use std::alloc::{AllocError, Global};
use till_request::{Act, Reply, Request};

/// A transaction that a till cleared. `number` is the number of the journal entry that cleared it, and `moment` is this
/// entry's time in seconds, or 0 if the entry has none. `product` is 1 to 8, or 0 if it isn't known; `price`, in
/// thousandths of the currency per litre, is the product's when the delivery ended. `amount` is in cents, and `volume`
/// in centilitres, at most 999,999,999 each. `ended` is the number of the entry that ended the delivery; `None` if the
/// transaction was unpaid when the day began.
#[derive(Clone, Copy)]
pub struct Sale {
    pub number: u32,
    pub moment: u64,
    pub till: u32,
    pub point: u32,
    pub transaction: u32,
    pub product: u32,
    pub price: u32,
    pub amount: u32,
    pub volume: u32,
    pub ended: Option<u32>,
}

/// A delivery that ended in the day and isn't cleared yet: its point, the number of the transaction that it became, and
/// the number of the entry that ended it.
#[derive(Clone, Copy)]
pub(crate) struct Ended {
    pub(crate) point: u32,
    pub(crate) transaction: u32,
    pub(crate) number: u32,
}

/// A request that cleared a transaction (its reply was `done`): the till, the point and the transaction's number.
#[derive(Clone, Copy)]
struct Clearing {
    till: u32,
    point: u32,
    number: u32,
}

/// Finds the sales of a history while it is replayed. `sales` has them oldest first.
#[derive(Drop)]
pub struct Sales {
    pub sales: Vec<Sale>,
    /// The deliveries that ended and weren't cleared, oldest first.
    unpaid: Vec<Ended>,
}

fn clearing_of(act: &Act, reply: &Reply) -> Option<Clearing>
    ensures { result ≡ clearing_of act.now reply.now }
{
    let Reply::Done = reply else {
        return None;
    };
    match act {
        Act::Till {
            till,
            request: Request::Clear(point, number),
        } => Some(Clearing {
            till: *till,
            point: *point,
            number: *number,
        }),
        _ => None,
    }
}

/// Returns the unpaid transaction of a point that has this number, or `None` if there is none.
fn unpaid_at(point: &Option<Point>, number: u32) -> Option<Transaction>
    ensures found { result ≡ unpaid_at point.now number }
    ensures amount { IfSome result (λ t. t.amount ≤ 999999999) }
    ensures volume { IfSome result (λ t. t.volume ≤ 999999999) }
{
    match point {
        None => None,
        Some(point) => point.find(number),
    }
}

/// Returns the delivery that an entry ended, or `None` if it ended none.
#[tactic(auto, unfolding(crate::specs::Sales::ended_by))]
fn ended_by(entry: &Entry, change: &Change) -> Option<Ended>
    ensures { (before : SiteState) → result ≡ ended_by (record { entry = entry.now; change = change.now; before = before }) }
{
    let (Some(before), Some(after)) = (change.before, change.after) else {
        return None;
    };
    if after.last().checked_sub(before.last()) != Some(1) {
        return None;
    }
    Some(Ended {
        point: change.point,
        transaction: after.last(),
        number: entry.number,
    })
}

/// Returns whether the delivery has point `n` and this transaction number.
fn is_delivery_of(n: u32, transaction: u32, ended: &Ended) -> bool
    ensures { result ≡ is_delivery_of n transaction ended.now }
{
    ended.point == n && ended.transaction == transaction
}

/// Returns the first delivery in `unpaid` with point `n` and this transaction number, or `None` if there is none.
fn ended_of(unpaid: &[Ended], n: u32, transaction: u32) -> Option<Ended>
    ensures { result ≡ find (λ (e : Ended). is_delivery_of n transaction e) unpaid.now }
{
    unpaid
        .iter()
        .copied()
        .find(|ended| is_delivery_of(n, transaction, ended))
}

/// Returns the number of the entry that ended the delivery with point `n` and this transaction number.
fn end_of(unpaid: &[Ended], n: u32, transaction: u32) -> Option<u32>
    ensures { result ≡ end_of unpaid.now n transaction }
{
    match ended_of(unpaid, n, transaction) {
        Some(ended) => Some(ended.number),
        None => None,
    }
}

/// Returns the sale that an entry made, or `None` if it made none. `unpaid` are the deliveries that weren't cleared
/// before it.
#[tactic(auto, unfolding(crate::specs::Sales::sale_of))]
pub(crate) fn sale_of(unpaid: &[Ended], entry: &Entry, change: &Change) -> Option<Sale>
    ensures { (before : SiteState)
        → result ≡ sale_of unpaid.now (record { entry = entry.now; change = change.now; before = before }) }
{
    let clearing = clearing_of(&entry.act, &entry.reply)?;
    let paid = unpaid_at(&change.before, clearing.number)?;
    Some(Sale {
        number: entry.number,
        moment: entry.moment,
        till: clearing.till,
        point: clearing.point,
        transaction: clearing.number,
        product: paid.product,
        price: paid.price,
        amount: paid.amount as u32,
        volume: paid.volume as u32,
        ended: end_of(unpaid, clearing.point, clearing.number),
    })
}

/// Returns what a volume in centilitres costs at a price in thousandths of the currency per litre, in cents. Half a
/// cent is rounded up.
fn worth(price: u32, volume: u32) -> u64
    ensures { result ≡ worth price volume }
{
    let scaled = price as u64 * volume as u64;
    let rounded = scaled + 500;
    rounded / 1000
}

/// Returns by how many cents the amount of a sale is off what its volume costs, or `None` if its product isn't known.
pub fn off_by(sale: &Sale) -> Option<u64>
    // proved: It says by how much amount and volume disagree | sale_is_never_off
    ensures { result ≡ off_by sale.now }
{
    if sale.product == 0 {
        return None;
    }
    Some(u64::from(sale.amount).abs_diff(worth(sale.price, sale.volume)))
}

/// Returns whether a sale is off, by more than a cent. It isn't if its product isn't known.
pub(crate) fn is_off(sale: &Sale) -> bool
    ensures { result ≡ is_off sale.now }
{
    match off_by(sale) {
        None => false,
        Some(cents) => cents > 1,
    }
}

/// Removes the deliveries with point `n` and this transaction number.
fn remove(unpaid: &mut Vec<Ended>, n: u32, transaction: u32)
    ensures left { unpaid.new.items ≡ without unpaid.old.items n transaction }
    ensures room { vec_len unpaid.old < vec_capacity unpaid.old → vec_len unpaid.new < vec_capacity unpaid.new }
{
    unpaid.retain(|ended| !is_delivery_of(n, transaction, ended));
}

/// Removes the delivery of a sale.
fn clear_paid(unpaid: &mut Vec<Ended>, sale: Option<Sale>)
    ensures left { unpaid.new.items ≡ uncleared unpaid.old.items sale }
    ensures room { vec_len unpaid.old < vec_capacity unpaid.old → vec_len unpaid.new < vec_capacity unpaid.new }
{
    if let Some(sale) = sale {
        remove(unpaid, sale.point, sale.transaction);
    }
}

impl Sales {
    ghost use Rattle.day_report.specs.Sales.{no_sales, sales_value};

    /// Returns an observer that has seen nothing.
    pub fn new(alloc: Global) -> Sales
        ensures { sales_value result ≡ no_sales }
    {
        Sales {
            sales: Vec::new(alloc),
            unpaid: Vec::new(alloc),
        }
    }
}

impl Observer for Sales {
    ghost use Rattle.std.specs.Prelude.{fold};
    ghost use Rattle.day_report.specs.Sales.{no_sales, sales_after, sales_value};

    ghost has_seen = { λ s steps. sales_value s ≡ fold sales_after no_sales steps };

    ghost has_looked = { λ _ _ _. Unit {0} };

    ghost is_ready = { λ s. (vec_len s.sales < vec_capacity s.sales) × (vec_len s.unpaid < vec_capacity s.unpaid) };

    fn make_ready(&mut self) -> Result<(), AllocError> {
        self.sales.reserve(1)?;
        self.unpaid.reserve(1)
    }

    fn look(&mut self, _before: &Head, _act: &Act) {}

    #[tactic(auto, unfolding(crate::specs::Sales::sales_after))]
    fn see(&mut self, _line: &[u8], entry: &Entry, change: &Change) {
        let sale = sale_of(&self.unpaid, entry, change);
        clear_paid(&mut self.unpaid, sale);
        if let Some(sale) = sale {
            self.sales.push_reserved(sale);
        }
        if let Some(ended) = ended_by(entry, change) {
            self.unpaid.push_reserved(ended);
        }
    }
}

/// A part of the sales that is added up separately.
#[derive(Clone, Copy)]
pub enum SalesPart {
    All,
    /// The sales at the point of this number.
    Point(u32),
    /// The sales that this till cleared.
    Till(u32),
    /// The sales whose moment is in this hour of the day, 0 to 23 in UTC. A sale without a moment is in no hour.
    Hour(u32),
}

/// How many sales there are, and their totals in cents and in centilitres. A total has 128 bits, so adding up 64-bit
/// numbers can't overflow it.
#[derive(Clone, Copy)]
pub struct Sum {
    pub count: u64,
    pub cents: u128,
    pub centilitres: u128,
}
