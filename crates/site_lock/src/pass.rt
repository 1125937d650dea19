//! Passes: the rights of callers to call a forecourt, with the receipts of what they were answered.
ghost use Rattle.std.specs.Prelude.{◌≡◌, ◌+◌, ◌<◌, ◌≤◌, length, [], None, false};
ghost use Rattle.site_core.specs.declared.site.TheConstants.{ENTRIES};
ghost use Rattle.site_lock.specs.Calls.{count_after};

use super::enter_fault::EnterFault;
use site_core::{CallFault, DraftMemory};
use std::alloc::Global;
use std::marker::{Brand, Model};
use std::sync::ledger::{Blank, Book, Ledger, Share};
use till_request::{Act, Reply};

/// The ledger of a forecourt's answered calls, for proofs alone, with one part for each pass.
///
/// A forecourt is made, used and closed in one function that is generic over its ledger. So the passes of two
/// forecourts have different types, and code that mixes them doesn't compile. At run time the ledger is `Brand`, which
/// holds nothing.
pub trait SiteLedger: Ledger {
    ghost use Rattle.std.specs.Prelude.{List, Option, ℕ};
    ghost use Rattle.decision_journal.specs.declared.entries.Entry.{Entry};
    ghost use Rattle.site_core.specs.Limits.{ConfigValue};

    ghost config: { ConfigValue };

    /// The history that the forecourt starts from, the oldest entry first.
    ghost base: { List Entry };

    /// The bytes that the journal had taken by then, if they are known.
    ghost taken: { Option (List ℕ) };
}

impl SiteLedger for Brand {
    ghost config = { record { tills = 1; price_slot = 0; prices = []; points = []; counters = []; opening = None } };

    ghost base = { [] };

    ghost taken = { None };
}

/// What a pass was answered: the entry's number, its moment (0 but for a till's request), the act, and the reply. It is
/// wrong where the entry of that number, counted from 1, has something else, or the receipt before it no lesser number.
#[derive(Drop)]
pub struct Receipt {
    pub number: u32,
    pub moment: u64,
    pub act: Act,
    pub reply: Reply,
}

/// What an answer that the history is full adds to the ledger: more than all passes can have receipts, so that one
/// number counts both.
pub(super) const FULL_MARK: u64 = u64::MAX;

/// A pass's answered calls, and whether one was answered that the history is full. It takes no bytes. The calls are no
/// more than the history has room for behind its first `base` entries.
#[derive(Drop)]
pub(super) struct CallCount<L: SiteLedger> {
    pub(super) share: Share<L>,
    /// For proofs alone: it has 1 part if a call was answered that the history is full, else 0.
    told_full: Blank,
}

impl<L: SiteLedger> Model for CallCount<L> {
    ghost use Rattle.std.specs.Prelude.{◌≡◌, ◌==◌, ◌+◌, ◌<◌, ◌≤◌, length, true};
    ghost use Rattle.site_core.specs.declared.site.TheConstants.{ENTRIES};
    ghost use Rattle.site_lock.specs.declared.pass.TheConstants.{FULL_MARK};
    ghost use Rattle.site_lock.specs.Passes.{CountView, calls_in};

    ghost Value = { CountView };

    ghost view = { λ c. record { amount = calls_in c.share.amount; was_full = c.told_full.parts == 1 } };

    ghost invariant = { λ c. (c.share.parts ≡ 1) × ((c.told_full.parts == 1) ≡ true → FULL_MARK ≤ c.share.amount)
        × (0 < calls_in c.share.amount → length L.base + calls_in c.share.amount ≤ ENTRIES) };
}

impl<L: SiteLedger> CallCount<L> {
    fn new(share: Share<L>) -> CallCount<L>
        requires { (share.parts ≡ 1) × (share.amount ≡ 0) }
        ensures { result ≡ record { amount = 0; was_full = false } }
    {
        CallCount {
            share,
            told_full: Blank::new(0),
        }
    }

    pub(super) fn add(&mut self, calls: &mut Book<L>)
        requires unmarked { calls.old.total + 1 < FULL_MARK }
        requires room { length L.base + calls.old.total < ENTRIES }
        ensures total { calls.new.total ≡ calls.old.total + 1 }
        ensures amount { self.new.amount ≡ self.old.amount + 1 }
        ensures was_full { self.new.was_full ≡ self.old.was_full }
        ensures bound { self.new.amount ≤ calls.new.total }
    {
        calls.add(&mut self.share, 1);
        calls.audit(&mut self.share);
    }

    /// Changes nothing. A law: the calls of this caller are among all of them, which are known as long as nobody was
    /// told that the history is full, and the history has room for them.
    pub(super) fn audit(&mut self, calls: &mut Book<L>)
        ensures same { self.new ≡ self.old }
        ensures total { calls.new.total ≡ calls.old.total }
        ensures bound { calls.old.total < FULL_MARK → self.old.amount ≤ calls.old.total }
        ensures room { 0 < self.old.amount → length L.base + self.old.amount ≤ ENTRIES }
    {
        calls.audit(&mut self.share);
    }

    /// The error of a call that wasn't entered. That the history is full is marked.
    pub(super) fn told(&mut self, calls: &mut Book<L>, fault: CallFault) -> EnterFault
        ensures result { result ≡ EnterFault.Call fault }
        ensures after { self.new ≡ count_after result self.old }
        ensures full { fault ≡ CallFault.JournalFull → calls.new.total ≡ calls.old.total + FULL_MARK }
        ensures memory { fault ≡ CallFault.OutOfMemory → calls.new.total ≡ calls.old.total }
    {
        match fault {
            CallFault::JournalFull => {
                calls.add(&mut self.share, FULL_MARK);
                self.told_full = Blank::new(1);
                EnterFault::Call(CallFault::JournalFull)
            }
            CallFault::OutOfMemory => EnterFault::Call(CallFault::OutOfMemory),
        }
    }
}

/// A caller's right to call the forecourt: its number, counted from 1, and the receipts of its answers, the oldest
/// first. It also keeps the memory of the last run for the next one.
#[derive(Drop)]
pub struct Pass<L: SiteLedger> {
    pub(super) id: u32,
    pub(super) calls: CallCount<L>,
    pub(super) receipts: Vec<Receipt>,
    pub(super) draft_memory: Option<DraftMemory>,
}

impl<L: SiteLedger> Model for Pass<L> {
    ghost use Rattle.std.specs.Prelude.{◌≡◌, ◌<◌, ◌^◌, length};
    ghost use Rattle.site_lock.specs.Passes.{PassView};

    ghost Value = { PassView };

    ghost view = { λ p. record {
      id = p.id;
      amount = p.calls.amount;
      was_full = p.calls.was_full;
      receipts = p.receipts.items;
    } };

    ghost invariant = { λ p. (p.calls.amount ≡ length p.receipts.items) × (length p.receipts.items < 2 ^ 32) };
}

impl<L: SiteLedger> Pass<L> {
    ghost use Rattle.site_lock.specs.Passes.{new_pass};

    pub(super) fn new(alloc: Global, id: u32, share: Share<L>) -> Pass<L>
        requires { (share.parts ≡ 1) × (share.amount ≡ 0) }
        ensures { result ≡ new_pass id }
    {
        Pass {
            id,
            calls: CallCount::new(share),
            receipts: Vec::new(alloc),
            draft_memory: None,
        }
    }

    pub(super) fn keep(&mut self, draft_memory: DraftMemory)
        ensures { self.new ≡ self.old }
    {
        self.draft_memory = Some(draft_memory);
    }

    pub fn id(&self) -> u32
        ensures { result ≡ self.now.id }
    {
        self.id
    }

    pub fn receipts(&self) -> &[Receipt]
        ensures receipts { result.now ≡ self.now.receipts }
        ensures counted { self.now.amount ≡ length self.now.receipts }
    {
        self.receipts.as_slice()
    }
}
