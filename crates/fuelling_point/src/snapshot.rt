//! All values of a fuelling point as plain data, to write down and read back.

ghost use Rattle.std.specs.Prelude.{◌↔◌, IsTrue};
ghost use Rattle.fuelling_point.specs.Snapshot.{IsSnapshot, IsUnpaid};
ghost use Rattle.fuelling_point.specs.States.{is_busy};
ghost use Rattle.fuelling_point.specs.Views.{AreValidPlaces, IsFreeOrUnpaid, IsOlder};

use crate::kinds::{Order, State, Transaction};

/// The greatest cents and centilitres of a delivery.
pub const GREATEST: u64 = 999_999_999;

/// The values of a point. Fields are what the methods of `Point` with these names return.
#[derive(Clone, Copy)]
pub struct Snapshot {
    pub state: State,
    pub nozzle: u32,
    pub preset: u64,
    pub limit: u64,
    pub amount: u64,
    pub volume: u64,
    pub order: Option<Order>,
    /// Whether the dispenser has taken the `Authorise` of the current delivery.
    pub taken: bool,
    pub last: u32,
    /// The older one first.
    pub unpaid: [Option<Transaction>; 2],
}

impl Snapshot {
    /// Whether a point can have these values: `nozzle` is at most 8; amounts and volumes are at most 999,999,999;
    /// unpaid transactions are numbered from 1 to `last`, the older one smaller, and their products are at most 8;
    /// there is a newer only with an older; at most one is unpaid while a delivery is authorised or under way.
    pub fn is_of_point(&self) -> bool
        ensures { IsTrue result ↔ IsSnapshot self.now }
    {
        let [first, second] = self.unpaid;
        self.nozzle <= 8
            && self.amount <= GREATEST
            && self.volume <= GREATEST
            && are_places(first, second, self.state)
            && are_in_range(first, second, self.last)
    }
}

/// Whether these can be the older and the newer unpaid transaction in this state: no newer one; or both, numbered in
/// order, with no delivery authorised or under way. Ranges are checked by `are_in_range`.
fn are_places(first: Option<Transaction>, second: Option<Transaction>, state: State) -> bool
    ensures { IsTrue result ↔ (AreValidPlaces first second (is_busy state) × IsOlder first second) }
{
    match (first, second) {
        (_, None) => true,
        (None, Some(_)) => false,
        (Some(older), Some(newer)) => !state.is_busy() && older.number < newer.number,
    }
}

fn are_in_range(first: Option<Transaction>, second: Option<Transaction>, last: u32) -> bool
    ensures { IsTrue result ↔ (IsFreeOrUnpaid last first × IsFreeOrUnpaid last second) }
{
    is_free_or_unpaid(first, last) && is_free_or_unpaid(second, last)
}

/// Whether there is none, or its number is 1 to `last`, and product, cents and centilitres are in range.
fn is_free_or_unpaid(place: Option<Transaction>, last: u32) -> bool
    ensures { IsTrue result ↔ IsFreeOrUnpaid last place }
{
    match place {
        None => true,
        Some(t) => t.number >= 1
            && t.number <= last
            && t.product <= 8
            && t.amount <= GREATEST
            && t.volume <= GREATEST,
    }
}
