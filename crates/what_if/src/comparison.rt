//! What another rule would have answered, found while a history is replayed.

ghost use Rattle.std.specs.Prelude.{◌≡◌, ◌<◌, ◌↔◌, IsTrue, vec_capacity, vec_len};
ghost use Rattle.bpf_model.specs.Layouts.{layout_of};
ghost use Rattle.what_if.specs.Rows.{after_any, after_decision, answer_on, counters_at, first_of, is_same_layout, taken_over};

use crate::decisions::{Decision, decision_in};
use crate::rows::{Row, preset_of, row_of};
use bpf_model::context::{Context, Layout};
use decision_journal::Entry;
use interp::run;
use site_core::{Change, Head, Observer};
use std::alloc::{AllocError, Global};
use till_request::Act;
use verifier::{Counters, PointView, Program, View};

/// With which counters the other rule is run at a decision.
#[derive(Clone, Copy)]
pub enum Reading {
    /// The site's counters, as they were.
    AsTheyWere,
    /// Those that the rule declares run on: they are what its own earlier runs left. All others are the site's.
    Carried,
}

/// Finds what a rule would have answered at each decision of a slot, while a history is replayed.
#[derive(Drop)]
pub struct Comparison<'a> {
    rule: &'a Program,
    slot: u32,
    reading: Reading,
    rows: Vec<Row>,
    /// The counters that the rule's last run left.
    own: Option<Counters>,
    /// The first entry that was decided on a context of another layout than the rule wants.
    misfit: Option<u32>,
    /// What the site showed before the act that is entered next.
    view: View,
    counters: Counters,
}

const NO_POINT: PointView = PointView {
    state: 0,
    nozzle: 0,
    amount: 0,
};

pub(crate) fn is_same_layout(a: Layout, b: Layout) -> bool
    ensures same { result ≡ is_same_layout a b }
    ensures equal { IsTrue result → a ≡ b }
{
    match (a, b) {
        (Layout::One, Layout::One) | (Layout::Two, Layout::Two) => true,
        _ => false,
    }
}

/// Returns the site's counters, with those that the mask declares as in `own`.
fn taken_over(declared: u32, own: &Counters, site: &Counters) -> Counters
    ensures { result ≡ taken_over declared own.now site.now }
{
    let mut counters = *site;
    counters.adopt(declared, own);
    // So the prover knows that there are 32.
    let _first = counters.get(0);
    counters
}

fn counters_at(reading: Reading, declared: u32, own: &Option<Counters>, site: &Counters) -> Counters
    ensures { result ≡ counters_at reading declared own.now site.now }
{
    match (reading, own) {
        (Reading::Carried, Some(own)) => taken_over(declared, own, site),
        _ => *site,
    }
}

/// Runs the rule, and leaves the counters that the run leaves.
fn answer_on(rule: &Program, context: &Context, view: &View, counters: &mut Counters) -> u64
    requires { layout_of context.now ≡ rule.now.layout }
    ensures { answer_on rule.now context.now view.now counters.old ≡ (result, counters.new) }
{
    run(rule, context, view, counters)
}

fn first_of(first: Option<u32>, number: u32) -> Option<u32>
    ensures { result ≡ first_of first number }
{
    match first {
        None => Some(number),
        Some(first) => Some(first),
    }
}

impl<'a> Comparison<'a> {
    ghost use Rattle.std.specs.Prelude.{[], List, None, Some};
    ghost use Rattle.what_if.specs.Comparisons.{HasFound, found_by};
    ghost use Rattle.site_core.specs.Steps.{StepValue};
    ghost use Rattle.what_if.specs.Rows.{rows_of};

    /// Returns a comparison that has seen nothing.
    pub fn new(alloc: Global, rule: &'a Program, slot: u32, reading: Reading) -> Comparison<'a>
        ensures found { HasFound result [] }
        ensures rule { result.rule.now ≡ rule.now }
        ensures slot { result.slot ≡ slot }
        ensures reading { result.reading ≡ reading }
    {
        Comparison {
            rule,
            slot,
            reading,
            rows: Vec::new(alloc),
            own: None,
            misfit: None,
            view: View {
                count: 0,
                points: [NO_POINT; 32],
                prices: [0; 8],
            },
            counters: Counters::new([(0, 0); 32]),
        }
    }

    /// Returns what the rule would have answered at each decision, oldest first.
    pub fn rows(&self) -> &[Row]
        ensures same { result.now ≡ self.now.rows.items }
        // proved: A row is what the rule's run answers on the site of its decision
        ensures found { (steps : List StepValue) → HasFound self.now steps
            → result.now ≡ rows_of self.now.rule.now self.now.slot self.now.reading steps }
    {
        self.rows.as_slice()
    }

    /// Returns the rows, like `rows`.
    pub fn into_rows(self) -> Vec<Row>
        ensures { result.items ≡ self.entry.rows.items }
    {
        self.rows
    }

    /// Returns the number of the first entry that was decided on a context of another layout than the rule wants.
    pub fn misfit(&self) -> Option<u32>
        ensures { result ≡ self.now.misfit }
    {
        self.misfit
    }

    pub(crate) fn rule(&self) -> &Program
        ensures { result.now ≡ self.now.rule.now }
    {
        self.rule
    }

    pub(crate) fn slot(&self) -> u32
        ensures { result ≡ self.now.slot }
    {
        self.slot
    }

    pub(crate) fn reading(&self) -> Reading
        ensures { result ≡ self.now.reading }
    {
        self.reading
    }

    pub fn layout(&self) -> Layout
        ensures { result ≡ self.now.rule.now.layout }
    {
        self.rule.layout()
    }

    /// Runs the rule on a decision.
    fn answer(&mut self, decision: &Decision, preset: u64)
        requires room { vec_len self.old.rows < vec_capacity self.old.rows }
        requires layout { layout_of decision.now.context ≡ self.old.rule.now.layout }
        ensures found { found_by self.new
            ≡ after_decision self.old.rule.now self.old.reading self.old.view self.old.counters preset (found_by self.old) decision.now }
        ensures rule { self.new.rule.now ≡ self.old.rule.now }
        ensures slot { self.new.slot ≡ self.old.slot }
        ensures reading { self.new.reading ≡ self.old.reading }
    {
        let declared = self.rule.declared();
        let mut counters = counters_at(self.reading, declared, &self.own, &self.counters);
        let answer = answer_on(self.rule, &decision.context, &self.view, &mut counters);
        self.rows.push_reserved(row_of(decision, answer, preset));
        self.own = Some(counters);
    }

    fn take(&mut self, decision: Option<Decision>, preset: u64)
        requires { vec_len self.old.rows < vec_capacity self.old.rows }
        ensures found { found_by self.new
            ≡ after_any self.old.rule.now self.old.reading self.old.view self.old.counters preset (found_by self.old) decision }
        ensures rule { self.new.rule.now ≡ self.old.rule.now }
        ensures slot { self.new.slot ≡ self.old.slot }
        ensures reading { self.new.reading ≡ self.old.reading }
    {
        match decision {
            None => {}
            Some(decision) => {
                if is_same_layout(decision.context.layout(), self.rule.layout()) {
                    self.answer(&decision, preset);
                } else {
                    self.misfit = first_of(self.misfit, decision.number);
                }
            }
        }
    }
}

impl Observer for Comparison<'_> {
    ghost use Rattle.what_if.specs.Comparisons.{HasFound, HasLookedAt};

    ghost has_seen = { HasFound };

    ghost has_looked = { λ c before _. HasLookedAt c before };

    ghost is_ready = { λ c. vec_len c.rows < vec_capacity c.rows };

    fn make_ready(&mut self) -> Result<(), AllocError> {
        self.rows.reserve(1)
    }

    fn look(&mut self, before: &Head, _act: &Act) {
        self.view = *before.view();
        self.counters = *before.counters();
    }

    fn see(&mut self, _line: &[u8], entry: &Entry, change: &Change) {
        let decision = decision_in(self.slot, entry);
        self.take(decision, preset_of(&change.before));
    }
}
