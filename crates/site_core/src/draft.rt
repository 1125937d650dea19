//! Drafts: each is made with the site's lock, run without it, and committed with it.

ghost use Rattle.std.specs.Prelude.{◌≡◌, ◌≤◌, IfOk, IsOk, OnErr, None, length};
ghost use Rattle.std.specs.Arc.{arc_value};
ghost use Rattle.bpf_model.specs.declared.limits.TheConstants.{POINTS};
ghost use Rattle.site_core.specs.State.{view_of};

use crate::comparing::{
    first_byte, first_counter, first_point, first_price, greater_point_count, is_same_program,
    is_version,
};
use crate::config::Config;
use crate::events::{Answered, point_asked};
use crate::perform::{asked_question, routed};
use crate::question::Question;
use crate::slots::Slots;
use crate::station::Station;
use crate::why::{CommitFault, Why};
use bpf_model::context::Context;
use decision_journal::{Entry, Run};
use interp::run;
use std::alloc::AllocError;
use std::marker::Model;
use std::sync::Arc;
use till_request::{Act, Request};
use verifier::{Counters, Program, View};

#[derive(Clone, Copy)]
struct Input {
    context: Context,
    view: View,
}

/// All that a program's run for a till's request needs of a site. The largest parts are behind pointers, as a draft is
/// moved often.
#[derive(Drop)]
pub struct Draft {
    till: u32,
    moment: u64,
    request: Request,
    version: u32,
    program: Arc<Program>,
    input: Box<Input>,
    counters: Box<Counters>,
}

impl Model for Draft {
    ghost use Rattle.std.specs.Arc.{arc_value};
    ghost use Rattle.std.specs.Prelude.{◌≡◌};
    ghost use Rattle.bpf_model.specs.Layouts.{bytes_of, layout_of};
    ghost use Rattle.site_core.specs.Draft.{DraftValue};
    ghost use Rattle.site_core.specs.Asked.{WasDrafted};

    ghost Value = { DraftValue };

    ghost view = { λ d. record {
      till = d.till;
      moment = d.moment;
      request = d.request;
      version = record { number = d.version; program = arc_value d.program };
      context = bytes_of d.input.value.context;
      view = d.input.value.view;
      counters = d.counters.value;
    } };

    ghost invariant = { λ d. (layout_of d.input.value.context ≡ (arc_value d.program).layout) × WasDrafted (record {
      till = d.till;
      moment = d.moment;
      request = d.request;
      version = record { number = d.version; program = arc_value d.program };
      context = bytes_of d.input.value.context;
      view = d.input.value.view;
      counters = d.counters.value;
    }) };
}

impl Station {
    ghost use Rattle.site_core.specs.Asked.{Drafts, WouldRun};
    ghost use Rattle.site_core.specs.Decide.{asked_question};
    ghost use Rattle.site_core.specs.Outside.{drafted};

    /// Makes the draft of a request, in the memory of `draft_memory` if there is some. Only `Direct` leaves that there.
    pub(crate) fn draft(
        &self,
        config: &Config,
        slots: &Slots,
        till: u32,
        moment: u64,
        request: &Request,
        draft_memory: &mut Option<DraftMemory>,
    ) -> Result<Begin, AllocError>
        requires { length self.now.points ≡ length config.now.points }
        ensures made { IfOk result (λ b. Drafts config.now self.now slots.now till moment request.now (drafted b)) }
        ensures none { asked_question config.now self.now till request.now ≡ None → IsOk result }
        ensures memory { OnErr result (WouldRun config.now self.now slots.now till request.now) }
    {
        let Some(question) = asked_question(config, self, till, request) else {
            return Ok(Begin::Direct);
        };
        let Some((version, program)) = slots.in_slot(question.slot) else {
            return Ok(Begin::Direct);
        };
        let context = self.context(program.layout(), till, moment, &question);
        match DraftMemory::made(draft_memory, program, context, self) {
            Ok(
                DraftMemory {
                    program,
                    input,
                    counters,
                },
            ) => Ok(Begin::Run(Draft {
                till,
                moment,
                request: *request,
                version,
                program,
                input,
                counters,
            })),
            Err(refused) => Err(refused),
        }
    }
}

impl Draft {
    ghost use Rattle.bpf_model.specs.Layouts.{bytes_of, layout_of};
    ghost use Rattle.site_core.specs.Asked.{Compares};

    /// Returns the number of the version that answers.
    pub fn version(&self) -> u32
        ensures { result ≡ self.now.version.number }
    {
        self.version
    }

    pub fn program(&self) -> &Program
        ensures { result.now ≡ self.now.version.program }
    {
        &self.program
    }

    pub fn context(&self) -> &Context
        ensures bytes { bytes_of result.now ≡ self.now.context }
        ensures layout { layout_of result.now ≡ self.now.version.program.layout }
    {
        &self.input.context
    }

    pub fn view(&self) -> &View
        ensures { result.now ≡ self.now.view }
    {
        &self.input.view
    }

    pub fn counters(&self) -> &Counters
        ensures { result.now ≡ self.now.counters }
    {
        &self.counters
    }

    /// Allocates no memory.
    pub fn run(self) -> Ready
        // proved: It returns the draft with its result | ready_of_another_till
        ensures { result.draft ≡ self }
    {
        let input: &Input = &self.input;
        let counters: &Counters = &self.counters;
        let mut after = *counters;
        let r0 = run(&self.program, &input.context, &input.view, &mut after);
        Ready {
            draft: self,
            r0,
            after,
        }
    }

    /// Returns the question of the draft's request, if nothing that the run depends on differs at the site now.
    fn compare(&self, config: &Config, station: &Station, slots: &Slots) -> Result<Question, Why>
        requires { length station.now.points ≡ length config.now.points }
        ensures { Compares config.now station.now slots.now self.now result }
    {
        let Some(question) = routed(config, station, self.till, &self.request) else {
            return Err(Why::Version(None));
        };
        if let Err(now) = is_version(slots, question.slot, self.version, &self.program) {
            return Err(Why::Version(now));
        }
        let input: &Input = &self.input;
        let layout = self.program.layout();
        let context = station.context(layout, self.till, self.moment, &question);
        if let Some(at) = first_byte(context.bytes(), input.context.bytes()) {
            return Err(Why::Context(at));
        }
        let view = station.view();
        let count = greater_point_count(view, &input.view);
        if let Some(place) = first_point(count, &view.points, &input.view.points) {
            return Err(Why::PointDiffers(place + 1));
        }
        if let Some(place) = first_price(&view.prices, &input.view.prices) {
            return Err(Why::PriceDiffers(place + 1));
        }
        let drafted: &Counters = &self.counters;
        let counters = station.counters();
        if let Some(c) = first_counter(self.program.declared(), counters, drafted) {
            return Err(Why::Counter(c, counters.get(c)));
        }
        Ok(question)
    }
}

/// The memory of an ended run, and its program. The next draft then needs no allocation, nor a new owner of the same
/// program's `Arc`: if each draft changed their count, the threads would have to wait for one another.
#[derive(Drop)]
pub struct DraftMemory {
    program: Arc<Program>,
    input: Box<Input>,
    counters: Box<Counters>,
}

impl DraftMemory {
    fn made(
        draft_memory: &mut Option<DraftMemory>,
        program: &Arc<Program>,
        context: Context,
        station: &Station,
    ) -> Result<DraftMemory, AllocError>
        ensures program { IfOk result (λ made. arc_value made.program ≡ arc_value program.now) }
        ensures context { IfOk result (λ made. made.input.value.context ≡ context) }
        ensures view { IfOk result (λ made. made.input.value.view ≡ view_of station.now) }
        ensures within_point_limit { IfOk result (λ _. length station.now.points ≤ POINTS) }
        ensures counters { IfOk result (λ made. made.counters.value ≡ station.now.counters) }
    {
        match draft_memory.take() {
            Some(draft_memory) => draft_memory.filled(program, context, station),
            None => DraftMemory::new(program, context, station),
        }
    }

    fn new(
        program: &Arc<Program>,
        context: Context,
        station: &Station,
    ) -> Result<DraftMemory, AllocError>
        ensures program { IfOk result (λ made. arc_value made.program ≡ arc_value program.now) }
        ensures context { IfOk result (λ made. made.input.value.context ≡ context) }
        ensures view { IfOk result (λ made. made.input.value.view ≡ view_of station.now) }
        ensures within_point_limit { IfOk result (λ _. length station.now.points ≤ POINTS) }
        ensures counters { IfOk result (λ made. made.counters.value ≡ station.now.counters) }
    {
        let program = Arc::try_clone(program)?;
        let input = Input {
            context,
            view: *station.view(),
        };
        let Ok(input) = Box::new(station.alloc(), input) else {
            return Err(AllocError);
        };
        match Box::new(station.alloc(), *station.counters()) {
            Ok(counters) => Ok(DraftMemory {
                program,
                input,
                counters,
            }),
            Err(_) => Err(AllocError),
        }
    }

    fn filled(
        self,
        program: &Arc<Program>,
        context: Context,
        station: &Station,
    ) -> Result<DraftMemory, AllocError>
        ensures program { IfOk result (λ made. arc_value made.program ≡ arc_value program.now) }
        ensures context { IfOk result (λ made. made.input.value.context ≡ context) }
        ensures view { IfOk result (λ made. made.input.value.view ≡ view_of station.now) }
        ensures within_point_limit { IfOk result (λ _. length station.now.points ≤ POINTS) }
        ensures counters { IfOk result (λ made. made.counters.value ≡ station.now.counters) }
    {
        let DraftMemory {
            program: held,
            mut input,
            mut counters,
        } = self;
        let program = if is_same_program(&held, program) {
            held
        } else {
            Arc::try_clone(program)?
        };
        let room: &mut Input = &mut input;
        room.context = context;
        room.view = *station.view();
        *counters = *station.counters();
        Ok(DraftMemory {
            program,
            input,
            counters,
        })
    }
}

/// A draft that was run, with the program's answer and the counters after the run.
#[derive(Drop)]
pub struct Ready {
    draft: Draft,
    r0: u64,
    after: Counters,
}

impl Model for Ready {
    ghost use Rattle.site_core.specs.Draft.{ReadyValue, IsRunResult};

    ghost Value = { ReadyValue };

    ghost view = { λ r. record { draft = r.draft; r0 = r.r0; after = r.after } };

    ghost invariant = { λ r. IsRunResult r.draft r.r0 r.after };
}

impl Ready {
    ghost use Rattle.std.specs.Prelude.{MatchResult, IfOk, OnErr, ◌≡◌, ℕ, ◌+◌, List};
    ghost use Rattle.decision_journal.specs.declared.entries.Entry.{Entry};
    ghost use Rattle.till_request.specs.declared.act.Act.TheVariants as act;
    ghost use Rattle.site_core.specs.Bounds.{Bounded, HasRoom};
    ghost use Rattle.site_core.specs.SiteInvariant.{Agrees, Performs};
    ghost use Rattle.site_core.specs.Differences.{IsFresh};
    ghost use Rattle.site_core.specs.Asked.{DiffersIfStale, basis_in};
    ghost use Rattle.site_core.specs.Outside.{IsRunOf};
    ghost use Rattle.site_core.specs.Steps.{point_asked};

    /// Returns 0 if the request names no point.
    pub fn point(&self) -> u32
        ensures { result ≡ point_asked self.now.draft.request }
    {
        point_asked(&self.draft.request)
    }

    /// Returns the memory and the program of the run, for another draft.
    pub fn into_draft_memory(self) -> DraftMemory {
        let Ready { draft, .. } = self;
        let Draft {
            program,
            input,
            counters,
            ..
        } = draft;
        DraftMemory {
            program,
            input,
            counters,
        }
    }

    /// Carries out the program's answer and returns the decision's entry, unless something that the run depends on
    /// differs. Counters that the program doesn't declare keep their values, and a preset bounds a release as it is
    /// now. After an error the station is unchanged.
    pub(crate) fn apply_answer(
        &self,
        config: &Config,
        station: &mut Station,
        slots: &Slots,
        number: u32,
        pass: u32,
    ) -> Result<Entry, CommitFault>
        requires points { length station.old.points ≡ length config.now.points }
        requires bounded { HasRoom station.old }
        ensures number { IfOk result (λ entry. entry.number ≡ number) }
        ensures pass { IfOk result (λ entry. entry.pass ≡ pass) }
        ensures performed { MatchResult result
            (λ entry. IsFresh (basis_in config.now station.old slots.now self.now.draft) self.now.draft
            × ((past : List Entry) → Agrees config.now slots.now past →
            Performs config.now past station.old self.now.draft.moment
            (act.Till self.now.draft.till self.now.draft.request) entry station.new slots.now))
            (DiffersIfStale (basis_in config.now station.old slots.now self.now.draft) self.now.draft) }
        ensures run { IfOk result (λ entry. IsRunOf self.now entry.run) }
        ensures unchanged { OnErr result (station.new ≡ station.old) }
        ensures bounded { (k : ℕ) → Bounded k station.old → Bounded (k + 1) station.new }
        ensures points { length station.new.points ≡ length station.old.points }
    {
        let draft = &self.draft;
        let question = match draft.compare(config, station, slots) {
            Ok(question) => question,
            Err(why) => return Err(CommitFault::Stale(why)),
        };
        let input: &Input = &draft.input;
        let counters: &Counters = &draft.counters;
        let adopted = station.adopt(&draft.program, &input.context, counters, &self.after);
        let counts = match adopted {
            Ok(counts) => counts,
            Err(_) => return Err(CommitFault::OutOfMemory),
        };
        let reply = station.apply_answer(draft.till, &question, draft.version, self.r0);
        Ok(Entry {
            number,
            pass,
            moment: draft.moment,
            act: Act::Till {
                till: draft.till,
                request: draft.request,
            },
            reply,
            run: Some(Run {
                slot: question.slot,
                version: draft.version,
                r0: self.r0,
                context: input.context,
                counts,
            }),
        })
    }
}

/// `Direct`: no draft is made, because no program would be run or the history is full.
#[derive(Drop)]
pub enum Begin {
    Direct,
    Run(Draft),
}

/// `Stale`: something that the run depends on differs now, and nothing was entered.
#[derive(Clone, Copy)]
pub enum Commit {
    Done(Answered),
    Stale(Why),
}
