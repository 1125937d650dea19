//! The effects of an event on the station and the slots.

ghost use Rattle.std.specs.Prelude.{◌≡◌, ℕ, ◌+◌, ◌<◌, IfOk, IsOk, OnErr, length, List, None, Ok, Some};
ghost use Rattle.std.specs.Arc.{arc_value};
ghost use Rattle.decision_journal.specs.declared.entries.Entry.{Entry};
ghost use Rattle.till_request.specs.declared.act.Act.TheVariants as act;
ghost use Rattle.site_core.specs.Limits.{ConfigValue};
ghost use Rattle.site_core.specs.Bounds.{Bounded, HasRoom};
ghost use Rattle.site_core.specs.Decide.{admitted, asked_question, decided};
ghost use Rattle.site_core.specs.Asked.{TakesMemory};
ghost use Rattle.site_core.specs.Slots.{version_in};
ghost use Rattle.site_core.specs.SlotsValue.{Version};
ghost use Rattle.site_core.specs.declared.question.Question.{Question as AskedQuestion};
ghost use Rattle.site_core.specs.Draft.{routed};
ghost use Rattle.site_core.specs.SiteInvariant.{Agrees, Performs, Loads};
ghost use Rattle.site_core.specs.Site.{act_of};
ghost use Rattle.site_core.specs.Step.{effect};

use crate::config::Config;
use crate::events::{Event, What};
use crate::question::{Question, RequestAction, request_action};
use crate::replies::{NO_SUCH_SLOT, NO_SUCH_TILL, VERSIONS_FULL, no_program};
use crate::slots::{SlotFault, Slots};
use crate::station::Station;
use decision_journal::{Entry, Run};
use std::alloc::{AllocError, Global};
use std::sync::Arc;
use till_request::{Act, Bytes, Reply, Request};
use verifier::Program;

/// Carries out an event, and returns its entry. After an error the station and the slots are unchanged.
#[inline(always)]
pub fn perform(
    alloc: Global,
    config: &Config,
    station: &mut Station,
    slots: &mut Slots,
    number: u32,
    event: Event,
) -> Result<Entry, AllocError>
    requires points { length station.old.points ≡ length config.now.points }
    requires bounded { HasRoom station.old }
    ensures performed { IfOk result (λ entry. (past : List Entry) → Agrees config.now slots.old past →
        Performs config.now past station.old event.moment (act_of event.what) entry station.new slots.new) }
    ensures number { IfOk result (λ entry. entry.number ≡ number) }
    ensures pass { IfOk result (λ entry. entry.pass ≡ event.pass) }
    ensures bounded { (k : ℕ) → Bounded k station.old → Bounded (k + 1) station.new }
    ensures points { length station.new.points ≡ length station.old.points }
    ensures station { OnErr result (station.new ≡ station.old) }
    ensures slots { OnErr result (slots.new ≡ slots.old) }
    ensures memory { OnErr result (TakesMemory config.now station.old (act_of event.what)) }
{
    let Event { pass, moment, what } = event;
    match what {
        What::Till { till, request } => {
            let (reply, run) = ask(config, station, slots, till, moment, request)?;
            Ok(Entry {
                number,
                pass,
                moment,
                act: Act::Till { till, request },
                reply,
                run,
            })
        }
        What::Dispenser { point, event } => {
            let reply = station.report(point, event);
            Ok(entry_without_run(number, pass, Act::Dispenser { point, event }, reply))
        }
        What::Load { slot, program } => {
            let bytes = Bytes::from_slice(alloc, program.bytes())?;
            let (mask, layout) = (program.declared(), program.layout());
            let reply = load(slots, slot, program, number)?;
            let act = Act::Load {
                slot,
                mask,
                layout,
                bytes,
            };
            Ok(entry_without_run(number, pass, act, reply))
        }
    }
}

/// Makes the entry of an act without a run, of moment 0.
pub fn entry_without_run(number: u32, pass: u32, act: Act, reply: Reply) -> Entry
    ensures { result ≡ record {
      number = number;
      pass = pass;
      moment = 0;
      act = act;
      reply = reply;
      run = None;
    } }
{
    Entry {
        number,
        pass,
        moment: 0,
        act,
        reply,
        run: None,
    }
}

// `number` is that of the load's entry.
fn load(
    slots: &mut Slots,
    slot: u32,
    program: Arc<Program>,
    number: u32,
) -> Result<Reply, AllocError>
    ensures reply { IfOk result (λ reply. (config : ConfigValue) (past : List Entry) → Agrees config slots.old past
        → Loads config slot (arc_value program) past number reply slots.new) }
    ensures unchanged { OnErr result (slots.new ≡ slots.old) }
    ensures memory { OnErr result ((slot < 16) × (length slots.old.programs < 4096)) }
{
    match slots.install(slot, program, number) {
        Ok(version) => Ok(Reply::Version(version)),
        Err(SlotFault::NoSuchSlot) => Ok(NO_SUCH_SLOT),
        Err(SlotFault::VersionsFull) => Ok(VERSIONS_FULL),
        Err(SlotFault::OutOfMemory) => Err(AllocError),
    }
}

#[inline(always)]
fn ask(
    config: &Config,
    station: &mut Station,
    slots: &Slots,
    till: u32,
    moment: u64,
    request: Request,
) -> Result<(Reply, Option<Run>), AllocError>
    requires points { length station.old.points ≡ length config.now.points }
    requires bounded { HasRoom station.old }
    ensures effect { IfOk result (λ made. (past : List Entry) → Agrees config.now slots.now past →
        effect config.now past station.old moment (act.Till till request) ≡ record {
          reply = made.0;
          run = made.1;
          after = station.new;
        }) }
    ensures unchanged { OnErr result (station.new ≡ station.old) }
    ensures memory { OnErr result (TakesMemory config.now station.old (act.Till till request)) }
    ensures bounded { (k : ℕ) → Bounded k station.old → Bounded (k + 1) station.new }
    ensures points { length station.new.points ≡ length station.old.points }
{
    if !config.has_till(till) {
        return Ok((NO_SUCH_TILL, None));
    }
    match request_action(config, &request) {
        RequestAction::Decision(question) => decide(station, slots, till, moment, question),
        RequestAction::Command(n, command) => Ok((station.command(till, n, command), None)),
        RequestAction::Show(n) => Ok((station.show(n), None)),
    }
}

/// Returns the question that a request asks a program; `None` if it is refused before, or asks none.
pub fn asked_question(
    config: &Config,
    station: &Station,
    till: u32,
    request: &Request,
) -> Option<Question>
    requires { length station.now.points ≡ length config.now.points }
    ensures { result ≡ asked_question config.now station.now till request.now }
{
    if !config.has_till(till) {
        return None;
    }
    match request_action(config, request) {
        RequestAction::Decision(question) => station.admitted(question).ok(),
        RequestAction::Command(_, _) | RequestAction::Show(_) => None,
    }
}

/// Returns the question that a request asks a program, even if the current state refuses it.
pub fn routed(config: &Config, station: &Station, till: u32, request: &Request) -> Option<Question>
    ensures { result ≡ routed config.now station.now till request.now }
{
    if !config.has_till(till) {
        return None;
    }
    match request_action(config, request) {
        RequestAction::Decision(question) => station.routed(question),
        RequestAction::Command(_, _) | RequestAction::Show(_) => None,
    }
}

fn decide(
    station: &mut Station,
    slots: &Slots,
    till: u32,
    moment: u64,
    question: Question,
) -> Result<(Reply, Option<Run>), AllocError>
    requires bounded { HasRoom station.old }
    requires till { 0 < till }
    ensures effect { IfOk result (λ made. (config : ConfigValue) (past : List Entry) → Agrees config slots.now past →
        decided config past station.old till moment (admitted station.old question) ≡ record {
          reply = made.0;
          run = made.1;
          after = station.new;
        }) }
    ensures unchanged { OnErr result (station.new ≡ station.old) }
    ensures memory { OnErr result (IsOk (admitted station.old question)) }
    ensures program { OnErr result ((q : AskedQuestion) × (version : Version) × (admitted station.old question ≡ Ok q)
        × (version_in slots.now q.slot ≡ Some version)) }
    ensures bounded { (k : ℕ) → Bounded k station.old → Bounded (k + 1) station.new }
    ensures points { length station.new.points ≡ length station.old.points }
{
    let question = match station.admitted(question) {
        Ok(question) => question,
        Err(refusal) => return Ok((refusal, None)),
    };
    let Some((version, program)) = slots.in_slot(question.slot) else {
        return Ok((no_program(question.slot), None));
    };
    let layout = program.layout();
    let context = station.context(layout, till, moment, &question);
    let (r0, counts) = station.run(program, &context)?;
    let run = Run {
        slot: question.slot,
        version,
        r0,
        context,
        counts,
    };
    Ok((
        station.apply_answer(till, &question, version, r0),
        Some(run),
    ))
}
