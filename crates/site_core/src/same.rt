//! Comparisons of the parts of two openings.

ghost use Rattle.std.specs.Prelude.{◌≡◌, ◌↔◌, IsTrue};

use crate::comparing::is_same_program;
use crate::version::Version;
use fuelling_point::{Order, Point, Snapshot, State, Transaction};
use verifier::Counters;

pub fn are_same_points(a: &[Point], b: &[Point]) -> bool
    ensures { IsTrue result ↔ (a.now ≡ b.now) }
{
    match (a.split_first(), b.split_first()) {
        (None, None) => true,
        (Some((first, rest)), Some((other, others))) => {
            is_same_point(first, other) && are_same_points(rest, others)
        }
        _ => false,
    }
}

fn is_same_point(a: &Point, b: &Point) -> bool
    ensures { IsTrue result ↔ (a.now ≡ b.now) }
{
    let (a, b) = (a.snapshot(), b.snapshot());
    if numbers_of(&a) != numbers_of(&b) {
        return false;
    }
    if !is_same_state(a.state, b.state) {
        return false;
    }
    if !is_same_order(a.order, b.order) {
        return false;
    }
    are_same_unpaid(a.unpaid, b.unpaid)
}

fn numbers_of(point: &Snapshot) -> (u32, u64, u64, u64, u64, u32, bool)
    ensures { result ≡ (
      point.now.nozzle,
      point.now.preset,
      point.now.limit,
      point.now.amount,
      point.now.volume,
      point.now.last,
      point.now.taken,
    ) }
{
    (
        point.nozzle,
        point.preset,
        point.limit,
        point.amount,
        point.volume,
        point.last,
        point.taken,
    )
}

// These contracts tell the prover that `==` decides whether two states or two orders are equal.
fn is_same_state(a: State, b: State) -> bool
    ensures { IsTrue result ↔ (a ≡ b) }
{
    a == b
}

fn is_same_order(a: Option<Order>, b: Option<Order>) -> bool
    ensures { IsTrue result ↔ (a ≡ b) }
{
    a == b
}

fn are_same_unpaid(a: [Option<Transaction>; 2], b: [Option<Transaction>; 2]) -> bool
    ensures { IsTrue result ↔ (a ≡ b) }
{
    if !is_same_place(a[0], b[0]) {
        return false;
    }
    is_same_place(a[1], b[1])
}

fn is_same_place(a: Option<Transaction>, b: Option<Transaction>) -> bool
    ensures { IsTrue result ↔ (a ≡ b) }
{
    match (a, b) {
        (None, None) => true,
        (Some(a), Some(b)) => {
            (a.number, a.product, a.price, a.amount, a.volume, a.holder)
                == (b.number, b.product, b.price, b.amount, b.volume, b.holder)
        }
        _ => false,
    }
}

pub fn are_same_counters(a: &Counters, b: &Counters) -> bool
    ensures { IsTrue result ↔ (a.now ≡ b.now) }
{
    // So the prover knows that there are 32 counters each.
    let _counters = (a.get(0), b.get(0));
    for c in 0..32 {
        if a.get(c) != b.get(c) || a.bound(c) != b.bound(c) {
            return false;
        }
    }
    true
}

pub fn are_same_rules(a: &[Option<Version>], b: &[Option<Version>]) -> bool
    ensures { IsTrue result ↔ (a.now ≡ b.now) }
{
    match (a.split_first(), b.split_first()) {
        (None, None) => true,
        (Some((first, rest)), Some((other, others))) => {
            is_same_rule(first, other) && are_same_rules(rest, others)
        }
        _ => false,
    }
}

fn is_same_rule(a: &Option<Version>, b: &Option<Version>) -> bool
    ensures { IsTrue result ↔ (a.now ≡ b.now) }
{
    match (a, b) {
        (None, None) => true,
        (Some(a), Some(b)) => a.number == b.number && is_same_program(&a.program, &b.program),
        _ => false,
    }
}
