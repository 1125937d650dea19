//! The station: the state of a site between two events.

ghost use Rattle.std.specs.Prelude.{option_copied, ◌≡◌, ℕ, ◌+◌, ◌<◌, ◌≤◌, IfOk, IsOk, OnOk, OnErr, length, Some, None};
ghost use Rattle.std.specs.Bool.{OnTrue, OnFalse};
ghost use Rattle.site_core.specs.State.{opening_state, fresh_state, opened_state, at_number, price_of, busy_points, open_points, first_busy};
ghost use Rattle.site_core.specs.State.{view_of, counter_of};
ghost use Rattle.bpf_model.specs.Layouts.{layout_of, bytes_of};
ghost use Rattle.bpf_model.specs.Runs.{Ended};
ghost use Rattle.bpf_model.specs.Program.{outcome};
ghost use Rattle.bpf_model.specs.declared.limits.TheConstants.{POINTS};
ghost use Rattle.site_core.specs.Bounds.{Bounded, HasRoom};
ghost use Rattle.site_core.specs.Context.{context, fields, product_of, field_or_zero};
ghost use Rattle.site_core.specs.Asked.{FitsContext};
ghost use Rattle.site_core.specs.Decide.{replied, counts, grant, HasPointOrValidPrice, admitted, asked_at_point};
ghost use Rattle.site_core.specs.Draft.{routed_to};
ghost use Rattle.site_core.specs.declared.question.RequestAction.TheVariants as RequestAction;
ghost use Rattle.site_core.specs.SiteInvariant.{applied_answer, with_counters};
ghost use Rattle.site_core.specs.Step.{till_command_effect, dispenser_effect, show_reply};
ghost use Rattle.interp.specs.Depends.{Agrees};
ghost use Rattle.fuelling_point.specs.States.{state_number};

use crate::config::Config;
use crate::context::{Field, kind_number, lay};
use crate::decision::{asked_at, command_of, granted_amount, note_counts, price_at};
use crate::opening::Opening;
use crate::question::{Kind, Question};
use crate::replies::{NO_SUCH_POINT, denied, event_reply, fault_reply};
use crate::seeing::{seen, seen_points, set_if_changed};
use bpf_model::context::{Context, Layout};
use decision_journal::Counts;
use fuelling_point::{Command, DispenserEvent, Point, State};
use interp::rebasing::rebase;
use interp::run;
use std::alloc::{AllocError, Global};
use std::marker::Model;
use till_request::Reply;
use verifier::{Counters, Program, View};

/// The state of a site. `cleared` is the total of all cleared amounts in cents, `clears` the number of these clears.
#[derive(Drop)]
pub struct Station {
    alloc: Global,
    points: Vec<Point>,
    /// The points, updated whenever one changes, and the prices.
    view: View,
    counters: Counters,
    cleared: u64,
    clears: u64,
}

impl Model for Station {
    ghost use Rattle.std.specs.Prelude.{◌≡◌, ◌≤◌, length};
    ghost use Rattle.site_core.specs.State.{SiteState, seen_points};
    ghost use Rattle.bpf_model.specs.declared.limits.TheConstants.{POINTS};

    ghost Value = { SiteState };

    ghost view = { λ s. record {
      points = s.points.items;
      prices = s.view.prices;
      counters = s.counters;
      cleared = s.cleared;
      clears = s.clears;
    } };

    ghost invariant = { λ s. (length s.points.items ≤ POINTS) × (length s.view.prices ≡ 8)
        × (s.view.count ≡ length s.points.items) × (s.view.points ≡ seen_points s.points.items) };
}

impl Station {
    pub fn start(alloc: Global, config: &Config) -> Result<Station, AllocError>
        ensures { IfOk result (λ s. s ≡ opening_state config.now) }
    {
        match config.opening() {
            None => Station::fresh(alloc, config),
            Some(opening) => Station::opened(alloc, opening),
        }
    }

    fn fresh(alloc: Global, config: &Config) -> Result<Station, AllocError>
        ensures { IfOk result (λ s. s ≡ fresh_state config.now) }
    {
        let mut points = Vec::new(alloc);
        for _point in config.points() {
            points.push(Point::new())?;
        }
        let view = View {
            count: points.len() as u32,
            points: seen_points(points.as_slice()),
            prices: config.prices(),
        };
        Ok(Station {
            alloc,
            points,
            view,
            counters: Counters::new(config.counters()),
            cleared: 0,
            clears: 0,
        })
    }

    fn opened(alloc: Global, opening: &Opening) -> Result<Station, AllocError>
        requires { length opening.now.points ≤ POINTS }
        ensures { IfOk result (λ s. s ≡ opened_state opening.now) }
    {
        let points = Vec::from_slice(alloc, opening.points.as_slice())?;
        let view = View {
            count: points.len() as u32,
            points: seen_points(points.as_slice()),
            prices: opening.prices(),
        };
        Ok(Station {
            alloc,
            points,
            view,
            counters: opening.counters,
            cleared: opening.cleared,
            clears: opening.clears,
        })
    }

    pub(crate) fn alloc(&self) -> Global {
        self.alloc
    }

    fn has_point(&self, n: u32) -> bool
        ensures there { OnTrue result ((1 ≤ n) × (n ≤ length self.now.points)) }
        ensures none { OnFalse result (at_number self.now.points n ≡ None) }
    {
        n >= 1 && n as usize <= self.points.len()
    }

    /// Carries out a till's command at point `n`, counted from 1. A refused command changes nothing. Whether the site
    /// has such a till isn't checked.
    pub fn command(&mut self, till: u32, n: u32, command: Command) -> Reply
        requires bounded { HasRoom self.old }
        requires till { 0 < till }
        ensures effect { till_command_effect self.old till n command ≡ replied result self.new }
        ensures bounded { (k : ℕ) → Bounded k self.old → Bounded (k + 1) self.new }
        ensures points { length self.new.points ≡ length self.old.points }
    {
        if !self.has_point(n) {
            return NO_SUCH_POINT;
        }
        let price = self.lifted_price(n);
        let point = &mut self.points[n as usize - 1];
        let outcome = point.on_command(till, command, price);
        set_if_changed(&mut self.view.points[n as usize - 1], seen(point));
        match outcome {
            Err(fault) => fault_reply(fault),
            Ok(None) => Reply::Done,
            Ok(Some(amount)) => {
                self.cleared += amount;
                self.clears += 1;
                Reply::Done
            }
        }
    }

    /// Carries out a dispenser's event at point `n`, counted from 1. A refused event changes nothing.
    pub fn report(&mut self, n: u32, event: DispenserEvent) -> Reply
        requires { HasRoom self.old }
        ensures effect { dispenser_effect self.old n event ≡ replied result self.new }
        ensures bounded { (k : ℕ) → Bounded k self.old → Bounded (k + 1) self.new }
        ensures points { length self.new.points ≡ length self.old.points }
    {
        if !self.has_point(n) {
            return NO_SUCH_POINT;
        }
        let price = self.lifted_price(n);
        let point = &mut self.points[n as usize - 1];
        let outcome = point.on_event(event, price);
        set_if_changed(&mut self.view.points[n as usize - 1], seen(point));
        event_reply(outcome)
    }

    /// Returns the reply to a till's request to show point `n`, counted from 1.
    pub fn show(&self, n: u32) -> Reply
        ensures { result ≡ show_reply self.now n }
    {
        if !self.has_point(n) {
            return NO_SUCH_POINT;
        }
        let point = &self.points[n as usize - 1];
        Reply::Point {
            state: point.state().number(),
            nozzle: point.nozzle(),
            amount: point.amount(),
            volume: point.volume(),
            limit: point.limit(),
            preset: point.preset(),
            unpaid: point.unpaid(),
        }
    }

    /// Returns point `n`, counted from 1.
    pub fn point(&self, n: u32) -> Option<&Point>
        ensures { option_copied result ≡ at_number self.now.points n }
    {
        if n == 0 {
            return None;
        }
        self.points.get(n as usize - 1)
    }

    /// Returns the question, or its refusal in the current state.
    pub fn admitted(&self, question: Question) -> Result<Question, Reply>
        ensures question { result ≡ admitted self.now question }
        ensures asked { IfOk result (λ q. HasPointOrValidPrice self.now q) }
    {
        match question.kind {
            Kind::Price => price_at(self.first_busy(), question),
            Kind::Release | Kind::Preset => self.asked_at_point(question),
        }
    }

    fn asked_at_point(&self, question: Question) -> Result<Question, Reply>
        ensures question { result ≡ asked_at_point self.now question }
        ensures asked { IfOk result (λ q. HasPointOrValidPrice self.now q) }
    {
        match self.point(question.point) {
            None => Err(NO_SUCH_POINT),
            Some(point) => asked_at(point, question),
        }
    }

    /// Returns the question, even if the current state refuses it; `None` for a point that the site doesn't have.
    #[tactic(auto, unfolding(crate::specs::Draft::at_point))]
    pub fn routed(&self, question: Question) -> Option<Question>
        ensures { result ≡ routed_to self.now (RequestAction.Decision question) }
    {
        match question.kind {
            Kind::Price => Some(question),
            Kind::Release | Kind::Preset => {
                let _point = self.point(question.point)?;
                Some(question)
            }
        }
    }

    /// Returns the state of the first point that has a delivery authorised or under way.
    #[tactic(auto, unfolding(crate::specs::State::first_busy))]
    fn first_busy(&self) -> Option<State>
        ensures { result ≡ first_busy self.now }
    {
        for point in &self.points {
            let state = point.state();
            if state.is_busy() {
                return Some(state);
            }
        }
        None
    }

    #[tactic(auto, unfolding(crate::specs::State::busy_points))]
    fn busy_points(&self) -> u32
        ensures { result ≡ busy_points self.now }
    {
        let mut count = 0;
        for point in &self.points {
            if point.state().is_busy() {
                count += 1;
            }
        }
        count
    }

    #[tactic(auto, unfolding(crate::specs::State::open_points))]
    fn open_points(&self) -> u32
        ensures { result ≡ open_points self.now }
    {
        let mut count = 0;
        for point in &self.points {
            if point.state().number() >= 3 {
                count += 1;
            }
        }
        count
    }

    fn price_of(&self, product: u32) -> u32
        ensures { result ≡ price_of self.now product }
    {
        if product >= 1 && product <= 8 {
            self.view.prices[product as usize - 1]
        } else {
            0
        }
    }

    /// Returns the price of the product that the lifted nozzle of point `n` carries, or 0.
    fn lifted_price(&self, n: u32) -> u32
        ensures { result ≡ field_or_zero (at_number self.now.points n) (λ p. price_of self.now p.nozzle) }
    {
        match self.point(n) {
            None => 0,
            Some(point) => self.price_of(point.nozzle()),
        }
    }

    pub fn view(&self) -> &View
        ensures view { result.now ≡ view_of self.now }
        ensures within_point_limit { length self.now.points ≤ POINTS }
    {
        &self.view
    }

    pub fn counter(&self, c: u32) -> Option<(u64, u64)>
        ensures { result ≡ counter_of self.now c }
    {
        if c < 32 {
            Some((self.counters.get(c), self.counters.bound(c)))
        } else {
            None
        }
    }

    pub fn points(&self) -> &[Point]
        ensures { result.now ≡ self.now.points }
    {
        self.points.as_slice()
    }

    /// Returns the total of all cleared amounts in cents, and how many transactions were cleared.
    pub fn totals(&self) -> (u64, u64)
        ensures { result ≡ (self.now.cleared, self.now.clears) }
    {
        (self.cleared, self.clears)
    }

    pub fn counters(&self) -> &Counters
        ensures { result.now ≡ self.now.counters }
    {
        &self.counters
    }

    /// Makes the context that a program is run on for a question.
    #[inline(always)]
    pub fn context(&self, layout: Layout, till: u32, moment: u64, question: &Question) -> Context
        ensures context { result ≡ context layout self.now till moment question.now }
        ensures layout { layout_of result ≡ layout }
        ensures fits { FitsContext self.now question.now }
    {
        let fields = self.fields(till, moment, question);
        match layout {
            Layout::One => {
                let mut bytes = [0; 64];
                lay(&fields[..13], &mut bytes);
                Context::One(bytes)
            }
            Layout::Two => {
                let mut bytes = [0; 80];
                lay(&fields, &mut bytes);
                Context::Two(bytes)
            }
        }
    }

    /// Returns the fields of a context in their order. Both layouts have the first 13.
    fn fields(&self, till: u32, moment: u64, question: &Question) -> [Field; 16]
        ensures fields { result ≡ fields Layout.Two self.now till moment question.now }
        ensures fits { FitsContext self.now question.now }
    {
        let (state, nozzle, unpaid) = self.point_fields(question.point);
        let product = self.product_of(question);
        [
            Field::Four(till),
            Field::Four(question.point),
            Field::Four(kind_number(question.kind)),
            Field::Four(state),
            Field::Four(nozzle),
            Field::Four(product),
            Field::Eight(question.asked),
            Field::Eight(moment),
            Field::Four(self.price_of(product)),
            Field::Four(self.busy_points()),
            Field::Four(unpaid),
            Field::Four(question.slot),
            Field::Eight(self.cleared),
            Field::Eight(self.clears),
            Field::Four(self.open_points()),
            Field::Four(0),
        ]
    }

    /// Returns the product whose price is to change, else that of the point's lifted nozzle, or 0.
    fn product_of(&self, question: &Question) -> u32
        ensures { result ≡ product_of self.now question.now }
    {
        match question.kind {
            Kind::Price => question.product,
            Kind::Release | Kind::Preset => self.point_fields(question.point).1,
        }
    }

    /// Runs a program, and returns its answer with the counts of the counters that it declares. After an error the
    /// station is unchanged.
    pub fn run(&mut self, program: &Program, given: &Context) -> Result<(u64, Counts), AllocError>
        requires { layout_of given.now ≡ program.now.layout }
        ensures run_result { IfOk result (λ r. outcome program.now (bytes_of given.now) (view_of self.old)
            self.old.counters
            ≡ Ended r.0 self.new.counters) }
        ensures noted { IfOk result (λ r. r.1 ≡ counts program.now.declared self.old.counters self.new.counters) }
        ensures rest { self.new ≡ with_counters self.old self.new.counters }
        ensures unchanged { OnErr result (self.new ≡ self.old) }
        ensures none { program.now.declared ≡ 0 → IsOk result }
    {
        let mask = program.declared();
        if mask == 0 {
            // Nothing can fail after such a run, so it needs no copy of the counters.
            let counts = note_counts(self.alloc, mask, &self.counters, &self.counters)?;
            let r0 = run(program, given, &self.view, &mut self.counters);
            return Ok((r0, counts));
        }
        let before = self.counters;
        let r0 = run(program, given, &self.view, &mut self.counters);
        match note_counts(self.alloc, mask, &before, &self.counters) {
            Ok(counts) => Ok((r0, counts)),
            Err(error) => {
                self.counters = before;
                Err(error)
            }
        }
    }

    /// Takes over the declared counters from a run on a draft, which had `before` and `after`, the current view and the
    /// current values of these counters. After an error the station is unchanged.
    pub fn adopt(
        &mut self,
        program: &Program,
        given: &Context,
        before: &Counters,
        after: &Counters,
    ) -> Result<Counts, AllocError>
        requires layout { layout_of given.now ≡ program.now.layout }
        requires agree { Agrees program.now.declared before.now self.old.counters }
        ensures run_result { OnOk result ((r0 : ℕ)
            → outcome program.now (bytes_of given.now) (view_of self.old) before.now ≡ Ended r0 after.now
            → outcome program.now (bytes_of given.now) (view_of self.old) self.old.counters
            ≡ Ended r0 self.new.counters) }
        ensures noted { IfOk result (λ noted. noted ≡ counts program.now.declared self.old.counters self.new.counters) }
        ensures rest { self.new ≡ with_counters self.old self.new.counters }
        ensures unchanged { OnErr result (self.new ≡ self.old) }
        ensures none { program.now.declared ≡ 0 → IsOk result }
    {
        let declared = program.declared();
        let counts = match note_counts(self.alloc, declared, &self.counters, after) {
            Ok(counts) => counts,
            Err(error) => return Err(error),
        };
        let current = &mut self.counters;
        rebase(program, given, &self.view, before, after, current);
        Ok(counts)
    }

    /// Carries out a program's answer `r0`, where 0 is a denial, and returns the reply.
    pub fn apply_answer(&mut self, till: u32, question: &Question, version: u32, r0: u64) -> Reply
        requires bounded { HasRoom self.old }
        requires till { 0 < till }
        requires asked { HasPointOrValidPrice self.old question.now }
        ensures applied_answer { applied_answer self.old till question.now version r0 ≡ (result, self.new) }
        ensures bounded { (k : ℕ) → Bounded k self.old → Bounded (k + 1) self.new }
        ensures points { length self.new.points ≡ length self.old.points }
    {
        if r0 == 0 {
            return denied(version);
        }
        Reply::Granted(self.grant(till, question, r0), version)
    }

    /// Gives the question's point the command for the granted amount, or sets the price if there is no such point.
    /// Returns what was granted: cents, or thousandths for a price.
    fn grant(&mut self, till: u32, question: &Question, r0: u64) -> u64
        requires bounded { HasRoom self.old }
        requires till { 0 < till }
        requires asked { HasPointOrValidPrice self.old question.now }
        ensures grant { grant self.old till question.now r0 ≡ (result, self.new) }
        ensures bounded { (k : ℕ) → Bounded k self.old → Bounded (k + 1) self.new }
        ensures points { length self.new.points ≡ length self.old.points }
    {
        let n = question.point;
        if !self.has_point(n) {
            self.view.prices[question.product as usize - 1] = question.asked as u32;
            return question.asked;
        }
        let price = self.lifted_price(n);
        let point = &mut self.points[n as usize - 1];
        let granted = granted_amount(question.kind, question.asked, r0, point.preset());
        let _ = point.on_command(till, command_of(question.kind, granted), price);
        set_if_changed(&mut self.view.points[n as usize - 1], seen(point));
        granted
    }

    /// Returns the number of a point's state, its lifted nozzle and how many transactions are unpaid; all 0 for no
    /// point.
    fn point_fields(&self, n: u32) -> (u32, u32, u32)
        ensures state { result.0 ≡ field_or_zero (at_number self.now.points n) (λ p. state_number p.state) }
        ensures nozzle { result.1 ≡ field_or_zero (at_number self.now.points n) (λ p. p.nozzle) }
        ensures unpaid { result.2 ≡ field_or_zero (at_number self.now.points n) (λ p. length p.unpaid) }
    {
        match self.point(n) {
            None => (0, 0, 0),
            Some(point) => (point.state().number(), point.nozzle(), point.unpaid()),
        }
    }
}
