//! Enters the acts of a script in a site.
ghost use Rattle.std.specs.Prelude.{◌≡◌, ℕ, None, Option, Some};
ghost use Rattle.verifier.specs.Refusals.{refusal_numbers};
ghost use Rattle.bpf_model.specs.Program.{ProgramText, as_loaded};
ghost use Rattle.verifier.specs.RefusedPrograms.{IsRefused, IsRefusal, MayRunOutOfMemory, refusal_of};
ghost use Rattle.site_core.specs.Site.{SiteValue, act_of};
ghost use Rattle.file_jobs.specs.Loading.{IsLoadRefusal};
ghost use Rattle.file_jobs.specs.Play.{EventAnswered, LoadAnswered, ActAnswered};

use site_core::auditing::event_of;
use site_core::{CallFault, Event, Site, What};
use std::alloc::Global;
use till_request::{Act, Answer};
use verifier::Refusal;

/// The number of the pass with which all acts of a script are entered.
const PASS: u32 = 1;

/// Applies an event to a site, which stays as it was if the journal is full or memory runs out.
fn enter_event(site: &mut Site, moment: u64, what: What) -> Answer
    ensures { EventAnswered site.old moment (act_of what) result site.new }
{
    let event = Event {
        pass: PASS,
        moment,
        what,
    };
    match site.apply(event) {
        Ok(answered) => Answer::Entered {
            number: answered.number,
            reply: answered.reply,
        },
        Err(CallFault::JournalFull) => Answer::JournalFull,
        Err(CallFault::OutOfMemory) => Answer::OutOfMemory,
    }
}

/// The answer to an act, and why the verifier refuses the program of a load, if it does.
#[derive(Clone, Copy)]
pub struct Entered {
    pub answer: Answer,
    pub refusal: Option<Refusal>,
}

/// Returns the answer to a load that the verifier refuses, also for want of memory: then there is no refusal.
fn refuse_load(refusal: Refusal) -> Entered
    ensures program_fault { (number : ℕ) (unit part : Option ℕ) → refusal_numbers refusal ≡ Some (number, unit, part)
        → result.answer ≡ Answer.Program number unit part }
    ensures answered { (old : SiteValue) (moment slot : ℕ) (p : ProgramText) → IsRefused p refusal
        → IsRefusal (refusal_of p) refusal → (refusal_numbers refusal ≡ None → MayRunOutOfMemory p)
        → LoadAnswered old moment slot p result.answer old }
    ensures refused { (slot mask : ℕ) (layout : _) (bytes : _)
        → IsRefusal (refusal_of (as_loaded bytes mask layout)) refusal
        → IsLoadRefusal (Act.Load slot mask layout bytes) result.answer result.refusal }
{
    match refusal.fault_numbers() {
        Some((number, unit, part)) => Entered {
            answer: Answer::Program(number, unit, part),
            refusal: Some(refusal),
        },
        None => Entered {
            answer: Answer::OutOfMemory,
            refusal: None,
        },
    }
}

fn unrefused(answer: Answer) -> Entered
    ensures { result ≡ record { answer = answer; refusal = None } }
{
    Entered {
        answer,
        refusal: None,
    }
}

/// Enters an act in a site. The site is unchanged if the program is refused, the journal is full, or memory ran
/// out.
pub fn enter(alloc: Global, site: &mut Site, moment: u64, act: &Act) -> Entered
    ensures answered { ActAnswered site.old moment act.now result.answer site.new }
    // proved: It says why a script's load is refused, if it is | no_refusal_is_returned
    ensures refused { IsLoadRefusal act.now result.answer result.refusal }
{
    match event_of(alloc, act) {
        Ok(what) => unrefused(enter_event(site, moment, what)),
        Err(refusal) => refuse_load(refusal),
    }
}
