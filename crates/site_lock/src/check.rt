//! The comparison of a history with the receipts of the passes.
ghost use Rattle.std.specs.Prelude.{◌≡◌, ◌↔◌, IsTrue, IfNone, IfSome, All, Any, count_by, ◌==◌};
ghost use Rattle.std.specs.Prelude.{◌≤◌, ℕ, length, drop};
ghost use Rattle.site_lock.specs.Merge.{Matches, IsEntryOf, AgreesFrom, FailsFrom, HasNumber, Covers, Covered, IsMerge};
ghost use Rattle.site_lock.specs.Merge.{IsMergeSince, IsFault, IsFaultSince, AreAll};

use super::pass::{Pass, Receipt, SiteLedger};
use decision_journal::Entry;

fn matches(id: u32, receipt: &Receipt, entry: &Entry) -> bool
    ensures { IsTrue result ↔ Matches id receipt.now entry.now }
{
    if entry.number != receipt.number || entry.pass != id || entry.moment != receipt.moment {
        return false;
    }
    entry.act == receipt.act && entry.reply == receipt.reply
}

// Whether the entry at the receipt's number, counted from 1, is the receipt's.
fn agrees_with_entry(history: &[Entry], id: u32, receipt: &Receipt) -> bool
    ensures { IsTrue result ↔ IsEntryOf history.now id receipt.now }
{
    if receipt.number == 0 {
        return false;
    }
    match history.get(receipt.number as usize - 1) {
        None => false,
        Some(entry) => matches(id, receipt, entry),
    }
}

// The number of the first wrong receipt (see `Receipt`) of the pass `id`.
fn wrong_receipt(history: &[Entry], base: u32, id: u32, receipts: &[Receipt]) -> Option<u32>
    ensures none { IfNone result (AgreesFrom history.now id base receipts.now) }
    ensures some { IfSome result (λ n. FailsFrom history.now id base receipts.now n) }
{
    let mut last = base;
    let mut rest = receipts;
    while let Some((receipt, tail)) = rest.split_first() {
        if receipt.number <= last || !agrees_with_entry(history, id, receipt) {
            return Some(receipt.number);
        }
        last = receipt.number;
        rest = tail;
    }
    None
}

fn wrong_pass<L: SiteLedger>(history: &[Entry], base: u32, passes: &[Pass<L>]) -> Option<(u32, u32)>
    ensures none { IfNone result (All (λ p. AgreesFrom history.now p.id base p.receipts) passes.now) }
    ensures some { IfSome result
        (λ x. Any (λ p. (p.id ≡ x.0) × FailsFrom history.now p.id base p.receipts x.1) passes.now) }
{
    for pass in passes {
        if let Some(number) = wrong_receipt(history, base, pass.id(), pass.receipts()) {
            return Some((pass.id(), number));
        }
    }
    None
}

fn has_number(receipts: &[Receipt], number: u32) -> bool
    ensures { IsTrue result ↔ HasNumber receipts.now number }
{
    receipts.iter().any(|receipt| receipt.number == number)
}

/// Where each pass's next receipt is likely to be, by the pass's id modulo 64. Entries and receipts come in the same
/// order, so most are found there at once.
#[derive(Drop)]
struct Places {
    next: [usize; 64],
}

impl Places {
    /// Whether the likely receipt of this pass has the number. Then the one behind it is the next.
    fn has_next(&mut self, id: u32, receipts: &[Receipt], number: u32) -> bool
        ensures { IsTrue result → HasNumber receipts.now number }
    {
        let place = (id % 64) as usize;
        let at = self.next[place];
        if at < receipts.len() && receipts[at].number == number {
            self.next[place] = at + 1;
            true
        } else {
            false
        }
    }
}

// By a binary search, so it can be false if the numbers of the receipts don't rise.
fn has_rising_number(receipts: &[Receipt], number: u32) -> bool
    ensures { IsTrue result → HasNumber receipts.now number }
{
    match receipts.binary_search_by_key(&number, |receipt| receipt.number) {
        Ok(at) => receipts[at].number == number,
        Err(_) => false,
    }
}

fn covers<L: SiteLedger>(pass: &Pass<L>, entry: &Entry) -> bool
    ensures { IsTrue result ↔ Covers entry.now pass.now }
{
    pass.id() == entry.pass && has_number(pass.receipts(), entry.number)
}

fn is_covered<L: SiteLedger>(passes: &[Pass<L>], entry: &Entry) -> bool
    ensures { IsTrue result ↔ Covered passes.now entry.now }
{
    for pass in passes {
        if covers(pass, entry) {
            return true;
        }
    }
    false
}

/// Like `covers`, but it can be false if the numbers of the pass's receipts don't rise.
fn covers_fast<L: SiteLedger>(places: &mut Places, pass: &Pass<L>, entry: &Entry) -> bool
    ensures { IsTrue result → Covers entry.now pass.now }
{
    if pass.id() != entry.pass {
        return false;
    }
    let (id, receipts, number) = (pass.id(), pass.receipts(), entry.number);
    places.has_next(id, receipts, number) || has_rising_number(receipts, number)
}

// It can be false if the numbers of the pass's receipts don't rise.
fn is_covered_fast<L: SiteLedger>(places: &mut Places, passes: &[Pass<L>], entry: &Entry) -> bool
    ensures { IsTrue result → Covered passes.now entry.now }
{
    for pass in passes {
        if covers_fast(places, pass, entry) {
            return true;
        }
    }
    false
}

fn is_covered_any_order<L: SiteLedger>(
    places: &mut Places,
    passes: &[Pass<L>],
    entry: &Entry,
) -> bool
    ensures { IsTrue result ↔ Covered passes.now entry.now }
{
    is_covered_fast(places, passes, entry) || is_covered(passes, entry)
}

fn uncovered<L: SiteLedger>(history: &[Entry], passes: &[Pass<L>]) -> Option<(u32, u32)>
    ensures none { IfNone result (All (Covered passes.now) history.now) }
    ensures some { IfSome result
        (λ x. Any (λ e. (e.pass ≡ x.0) × (e.number ≡ x.1) × ¬ Covered passes.now e) history.now) }
{
    let mut places = Places { next: [0; 64] };
    for entry in history {
        if !is_covered_any_order(&mut places, passes, entry) {
            return Some((entry.pass, entry.number));
        }
    }
    None
}

pub(super) fn behind(base: u32, history: &[Entry]) -> &[Entry]
    requires { base ≤ length history.now }
    ensures { result.now ≡ drop base history.now }
{
    &history[base as usize..]
}

fn uncovered_since<L: SiteLedger>(
    base: u32,
    history: &[Entry],
    passes: &[Pass<L>],
) -> Option<(u32, u32)>
    requires { base ≤ length history.now }
    ensures none { IfNone result (All (Covered passes.now) (drop base history.now)) }
    ensures some { IfSome result
        (λ x. Any (λ e. (e.pass ≡ x.0) × (e.number ≡ x.1) × ¬ Covered passes.now e) (drop base history.now)) }
{
    uncovered(behind(base, history), passes)
}

/// Compares a history with the receipts of the passes. Returns `None` if they agree, or else a pass with the number of
/// its first wrong receipt (see `Receipt`), or of an entry of this pass that has no receipt.
pub fn fault<L: SiteLedger>(history: &[Entry], passes: &[Pass<L>]) -> Option<(u32, u32)>
    // proved none, some: It says what is wrong with receipts | fault_looks_at_no_receipts
    ensures none { IfNone result (IsMerge history.now passes.now) }
    ensures some { IfSome result (λ x. IsFault history.now passes.now x.0 x.1) }
{
    fault_since(0, history, passes)
}

/// Like `fault`, but the first `base` entries are older than the passes: a receipt of one is wrong, and they need none.
pub fn fault_since<L: SiteLedger>(
    base: u32,
    history: &[Entry],
    passes: &[Pass<L>],
) -> Option<(u32, u32)>
    requires within { base ≤ length history.now }
    ensures none { IfNone result (IsMergeSince base history.now passes.now) }
    ensures some { IfSome result (λ x. IsFaultSince base history.now passes.now x.0 x.1) }
{
    match wrong_pass(history, base, passes) {
        Some(x) => Some(x),
        None => uncovered_since(base, history, passes),
    }
}

fn count_of<L: SiteLedger>(passes: &[Pass<L>], id: u32) -> usize
    ensures { result ≡ count_by (λ p. p.id == id) passes.now }
{
    passes.iter().filter(|pass| pass.id() == id).count()
}

/// Whether these are the passes 1 to `number`, each once, in any order.
pub fn are_all<L: SiteLedger>(number: u32, passes: &[Pass<L>]) -> bool
    ensures { IsTrue result ↔ AreAll number passes.now }
{
    if passes.len() != number as usize {
        return false;
    }
    for before in 0..number {
        if count_of(passes, before + 1) != 1 {
            return false;
        }
    }
    true
}
