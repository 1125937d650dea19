//! The parts of a decision: the checks before a run, what is granted, and the declared counters before and after.

ghost use Rattle.std.specs.Prelude.{◌≡◌, ◌<◌, ◌≤◌, IfOk, IsOk};
ghost use Rattle.site_core.specs.Decide.{has_room, asked_at, price_at, granted_amount, command_of, counts, count_of};
ghost use Rattle.bpf_model.specs.declared.limits.TheConstants.{COUNTERS};

use crate::question::{Kind, Question};
use crate::replies::{BAD_AMOUNT, TRANSACTIONS_FULL, wrong_state};
use decision_journal::Counts;
use fuelling_point::{Command, Point, State};
use std::alloc::{AllocError, Global};
use till_request::Reply;
use verifier::Counters;

/// The greatest amount of a release or a preset, in cents.
const GREATEST_AMOUNT: u64 = 999_999_999;

const PRODUCTS: u32 = 8;

/// The greatest price of a litre, in thousandths of the currency.
const GREATEST_PRICE: u64 = 9_999_999;

fn has_room(kind: Kind, point: &Point) -> bool
    ensures { result ≡ has_room kind point.now }
{
    match kind {
        Kind::Release => point.unpaid() < 2,
        Kind::Preset | Kind::Price => true,
    }
}

/// Returns the question of a release or a preset, or its refusal before a program is run.
pub fn asked_at(point: &Point, question: Question) -> Result<Question, Reply>
    ensures question { result ≡ asked_at point.now question }
    ensures same { IfOk result (λ q. q ≡ question) }
{
    if question.asked < 1 || question.asked > GREATEST_AMOUNT {
        return Err(BAD_AMOUNT);
    }
    let state = point.state();
    if !state.is_ready() {
        return Err(wrong_state(state));
    }
    if !has_room(question.kind, point) {
        return Err(TRANSACTIONS_FULL);
    }
    Ok(question)
}

/// Returns the question of a price change, or its refusal before a program is run. `busy` is the state of the first
/// point that has a delivery authorised or under way.
pub fn price_at(busy: Option<State>, question: Question) -> Result<Question, Reply>
    ensures question { result ≡ price_at busy question }
    ensures fits { IfOk result (λ q. (1 ≤ q.product) × (q.product ≤ PRODUCTS) × (q.asked ≤ GREATEST_PRICE)) }
{
    let (product, price) = (question.product, question.asked);
    if product < 1 || product > PRODUCTS || price < 1 || price > GREATEST_PRICE {
        return Err(BAD_AMOUNT);
    }
    match busy {
        Some(state) => Err(wrong_state(state)),
        None => Ok(question),
    }
}

/// Returns what is granted if the program answered `r0`: cents, or thousandths for a price. A `preset` of 0 is none.
pub fn granted_amount(kind: Kind, asked: u64, r0: u64, preset: u64) -> u64
    ensures { result ≡ granted_amount kind asked r0 preset }
{
    match kind {
        Kind::Release if preset == 0 => asked.min(r0),
        Kind::Release => asked.min(r0).min(preset),
        Kind::Preset => asked.min(r0),
        Kind::Price => asked,
    }
}

/// Returns the command of a granted release or preset. For a price it has no meaning.
pub fn command_of(kind: Kind, granted: u64) -> Command
    ensures { result ≡ command_of kind granted }
{
    match kind {
        Kind::Release => Command::Release(granted),
        Kind::Preset | Kind::Price => Command::Preset(granted),
    }
}

fn count_of(mask: u32, before: &Counters, after: &Counters, c: u32) -> Option<(u64, u64)>
    requires { c < COUNTERS }
    ensures { result ≡ count_of mask before.now after.now c }
{
    if (mask >> c) % 2 == 1 {
        Some((before.get(c), after.get(c)))
    } else {
        None
    }
}

pub fn note_counts(
    alloc: Global,
    mask: u32,
    before: &Counters,
    after: &Counters,
) -> Result<Counts, AllocError>
    ensures noted { IfOk result (λ noted. noted ≡ counts mask before.now after.now) }
    ensures none { mask ≡ 0 → IsOk result }
{
    if mask == 0 {
        return Ok(Counts::none(alloc));
    }
    let mut counts = Counts::with_room(alloc, mask.count_ones() as usize)?;
    for c in 0..32 {
        // No counter from `c` on is declared.
        if mask >> c == 0 {
            return Ok(counts);
        }
        if let Some((was, now)) = count_of(mask, before, after, c) {
            counts.push(c, was, now)?;
        }
    }
    Ok(counts)
}
