//! A desk that calls a forecourt with a pass.
ghost use Rattle.std.specs.Prelude.{◌≡◌, ◌++◌, ◌⊎◌, ℕ, Err, IfErr, IfOk, IsOk, OnOk};
ghost use Rattle.till_request.specs.Looks.{sight_line};
ghost use Rattle.till_request.specs.declared.act.Act.{Act};
ghost use Rattle.verifier.specs.RefusedPrograms.{IsRefusal};
ghost use Rattle.site_core.specs.Audit.{IsRefusedAct};
ghost use Rattle.site_core.specs.Histories.{load_refusal};
ghost use Rattle.site_core.specs.Limits.{ConfigValue};
ghost use Rattle.site_lock.specs.Passes.{PassView};
ghost use Rattle.site_lock.specs.Desks.{CallsGate, DeskAnswers, DeskDecides, answer_of_call};

use super::enter_fault::EnterFault;
use super::forecourt::Forecourt;
use super::gate::Gate;
use super::journal::{Journal, NoJournal};
use super::pass::{Pass, SiteLedger};
use line_session::Desk;
use site_core::auditing::event_of;
use site_core::{Answered, CallFault};
use std::alloc::Global;
use std::sync::Wait;
use till_request::look::put_sight;
use till_request::{Act, Answer, LookAt, Sight};
use verifier::Refusal;

/// Calls a forecourt with one pass and one gate. A load's program is verified before the lock is taken; where it is
/// refused, no event reaches the forecourt. Looks tell `day`, from 1, as the number of the day.
///
/// Once the journal has failed, an event is answered with `JournalFailed`, or with `OutOfMemory` if memory runs out
/// before the lock is taken. No line is written for `JournalFailed`, and the session ends.
#[derive(Drop)]
pub struct PassDesk<'a, L: SiteLedger, R: Wait, G: Gate + Drop, J: Journal = NoJournal> {
    rt: &'a R,
    alloc: Global,
    forecourt: &'a Forecourt<L, J>,
    pass: Pass<L>,
    gate: G,
    day: u32,
}

impl<'a, L: SiteLedger, R: Wait, G: Gate + Drop, J: Journal> PassDesk<'a, L, R, G, J> {
    pub fn new(
        rt: &'a R,
        alloc: Global,
        forecourt: &'a Forecourt<L, J>,
        pass: Pass<L>,
        gate: G,
        day: u32,
    ) -> PassDesk<'a, L, R, G, J>
        ensures pass { result.pass ≡ pass }
        ensures gate { result.gate ≡ gate }
        ensures day { result.day ≡ day }
    {
        PassDesk {
            rt,
            alloc,
            forecourt,
            pass,
            gate,
            day,
        }
    }

    /// Returns the pass, with the receipts that it got at the desk.
    pub fn into_pass(self) -> Pass<L>
        ensures { result ≡ self.entry.pass }
    {
        self.pass
    }
}

impl<L: SiteLedger, R: Wait, G: Gate + Drop, J: Journal> Desk for PassDesk<'_, L, R, G, J> {
    ghost use Rattle.site_lock.specs.Calls.{RoseWithin};
    ghost use Rattle.std.specs.Prelude.{◌≡◌};
    ghost use Rattle.site_lock.specs.Desks.{DeskAnswers, DeskDecides, DeskLooks, CallsGate};

    ghost step = { λ desk act moment answer after. DeskAnswers L.config J.may_fail desk.pass
        after.pass act moment answer
        × RoseWithin 0 2 (G.calls desk.gate) (G.calls after.gate)
        × CallsGate (G.calls desk.gate) (G.calls after.gate) answer act
        × DeskDecides G.makes L.config desk.pass.id moment desk.gate after.gate answer act
        × (after.day ≡ desk.day) };

    ghost looks = { λ desk look _ answer after. DeskLooks
        (record { config = L.config; passes = L.parts; base = L.base; taken = L.taken }) J.may_fail desk.day desk.pass
        after.pass look answer
        × (after.day ≡ desk.day)
        × (after.gate ≡ desk.gate) };

    fn answer(&mut self, act: Act, moment: u64) -> Answer {
        let (rt, alloc, forecourt) = (self.rt, self.alloc, self.forecourt);
        let (pass, gate) = (&mut self.pass, &mut self.gate);
        // Tells the prover that the forecourt's configuration is `L.config`.
        let _ = forecourt.config();
        match &act {
            Act::Till { till, request } => answer_of(forecourt.ask(
                rt, pass, gate, *till, moment, *request,
            )),
            Act::Dispenser { point, event } => answer_of(forecourt.report(
                rt, pass, *point, *event,
            )),
            Act::Load { .. } => match event_of(alloc, &act) {
                Ok(what) => answer_of(forecourt.enter_event(rt, pass, 0, act, what)),
                Err(refusal) => refused::<G, J>(refusal),
            },
        }
    }

    fn look(&mut self, look: LookAt, _moment: u64, text: &mut Vec<u8>) -> Result<(), Answer> {
        // Tells the prover that the ledger names the forecourt's configuration and its first history.
        let _ = self.forecourt.config();
        text.clear();
        let (rt, pass) = (self.rt, &mut self.pass);
        let seen = self.forecourt.sight(rt, pass, look, self.day);
        put_seen(text, seen)
    }
}

fn answer_of(called: Result<Answered, EnterFault>) -> Answer
    ensures { result ≡ answer_of_call called }
{
    match called {
        Ok(answered) => Answer::Entered {
            number: answered.number,
            reply: answered.reply,
        },
        Err(EnterFault::Call(CallFault::JournalFull)) => Answer::JournalFull,
        Err(EnterFault::Call(CallFault::OutOfMemory)) => Answer::OutOfMemory,
        Err(EnterFault::Journal) => Answer::JournalFailed,
    }
}

// Appends the line of a look's answer. A look that failed, or that memory ran out for, is answered in its place.
fn put_seen(text: &mut Vec<u8>, seen: Result<Sight, EnterFault>) -> Result<(), Answer>
    requires { IfErr seen (λ fault. (fault ≡ EnterFault.Journal) ⊎ (fault ≡ EnterFault.Call CallFault.OutOfMemory)) }
    ensures ok { OnOk result (IfOk seen (λ sight. text.new.items ≡ text.old.items ++ sight_line sight)) }
    ensures seen { OnOk result (IsOk seen) }
    ensures err { IfErr result
        (λ a. (a ≡ Answer.OutOfMemory) ⊎ ((a ≡ Answer.JournalFailed) × (seen ≡ Err EnterFault.Journal))) }
{
    let sight = match seen {
        Ok(sight) => sight,
        Err(EnterFault::Call(_)) => return Err(Answer::OutOfMemory),
        Err(EnterFault::Journal) => return Err(Answer::JournalFailed),
    };
    match put_sight(text, &sight) {
        Ok(()) => Ok(()),
        Err(_) => Err(Answer::OutOfMemory),
    }
}

// The answer to a load whose program was refused: the numbers of the refusal, of its unit, and of its register or
// argument, where it names them.
fn refused<G: Gate, J: Journal>(refusal: Refusal) -> Answer
    ensures answers { (config : ConfigValue) (pass : PassView) (act : Act) (moment : ℕ) → IsRefusedAct act refusal
        → IsRefusal (load_refusal act) refusal → DeskAnswers config J.may_fail pass pass act moment result }
    ensures asks { (calls : ℕ) (act : Act) → CallsGate calls calls result act }
    ensures decides { (config : ConfigValue) (pass moment : ℕ) (gate : G) (act : Act)
        → DeskDecides G.makes config pass moment gate gate result act }
{
    match refusal.fault_numbers() {
        Some((number, unit, part)) => Answer::Program(number, unit, part),
        None => Answer::OutOfMemory,
    }
}
