// An entry of a site's history, with the site before it, and the run that decided it.

ghost use Rattle.std.specs.Prelude.{◌≡◌, ◌↔◌, ◌-◌, IfOk, IfErr, IfSome, IsTrue, None, Some, Err, MatchOption, take};
ghost use Rattle.site_core.specs.State.{at_number};
ghost use Rattle.site_core.specs.Limits.{ConfigValue};
ghost use Rattle.explaining.specs.Explained.{Explains, IsDecidedBy, IsRunAgain, IsTraceOf};

use crate::tracing::{Trace, trace_run};
use bpf_model::context::Context;
use decision_journal::{Entry, Run};
use site_core::auditing::audit;
use site_core::{AuditFault, Begin, Config, Draft, Site};
use std::alloc::{AllocError, Global};
use till_request::Act;

/// The draft that a rule was run on, and its run.
#[derive(Drop)]
pub struct Decision {
    pub draft: Draft,
    pub trace: Trace,
}

/// An entry, the site that the entries before it lead to, and how a rule decided it, if one did.
#[derive(Drop)]
pub struct Explained<'a> {
    pub entry: &'a Entry,
    pub before: Site,
    pub decision: Option<Decision>,
}

#[derive(Clone, Copy)]
pub enum ExplainFault {
    /// The history has no entry of this number.
    NoEntry,
    /// The site doesn't make the entry again. A fault of the program: each history is legal.
    NotMadeAgain,
    OutOfMemory,
}

impl From<AllocError> for ExplainFault {
    ghost use Rattle.explaining.specs.declared.explained.ExplainFault.TheVariants.{OutOfMemory};

    ghost from_gives = { λ _ e. e ≡ OutOfMemory };

    fn from(_: AllocError) -> Self {
        ExplainFault::OutOfMemory
    }
}

/// Explains entry `number` of the site's history, counted from 1.
pub fn explain<'a>(
    alloc: Global,
    site: &'a Site,
    number: u32,
) -> Result<Explained<'a>, ExplainFault>
    // proved explained: It explains that entry, by the site that the entries before it lead to
    ensures explained { IfOk result (Explains site.now number) }
    // proved none: It says so just where there is no such entry
    ensures none { (result ≡ Err ExplainFault.NoEntry) ↔ (at_number site.now.history number ≡ None) }
{
    let history = site.history();
    let Some(entry) = entry_of(history, number) else {
        return Err(ExplainFault::NoEntry);
    };
    let before = site_after(alloc, site.config(), past_of(history, number))?;
    let decision = decided_again(alloc, &before, entry)?;
    Ok(Explained {
        entry,
        before,
        decision,
    })
}

fn entry_of(history: &[Entry], number: u32) -> Option<&Entry>
    ensures { MatchOption result (at_number history.now number ≡ None) (λ entry. at_number history.now number ≡ Some entry.now) }
{
    if number == 0 {
        return None;
    }
    history.get(number as usize - 1)
}

fn past_of(history: &[Entry], number: u32) -> &[Entry]
    ensures { result.now ≡ take (number - 1) history.now }
{
    let count = (number as usize).saturating_sub(1);
    &history[..count.min(history.len())]
}

fn site_after(alloc: Global, config: &Config, entries: &[Entry]) -> Result<Site, ExplainFault>
    ensures config { IfOk result (λ site. site.config ≡ config.now) }
    ensures history { IfOk result (λ site. site.history ≡ entries.now) }
    ensures some { IfErr result (λ fault. fault ≡ ExplainFault.NoEntry → ⊥) }
{
    let config = config.copied(alloc)?;
    match audit(alloc, config, entries) {
        Ok(site) => Ok(site),
        Err(AuditFault::OutOfMemory) => Err(ExplainFault::OutOfMemory),
        Err(_) => Err(ExplainFault::NotMadeAgain),
    }
}

/// Makes the decision of an entry again, on the site before it.
fn decided_again(
    alloc: Global,
    before: &Site,
    entry: &Entry,
) -> Result<Option<Decision>, ExplainFault>
    ensures decided { IfOk result (IsDecidedBy before.now entry.now) }
    ensures some { IfErr result (λ fault. fault ≡ ExplainFault.NoEntry → ⊥) }
{
    let decision = match &entry.act {
        Act::Till { till, request } => {
            match before.begin(*till, entry.moment, request) {
                Ok(Begin::Run(draft)) => Some(traced(alloc, draft)?),
                Ok(Begin::Direct) => None,
                Err(_) => return Err(ExplainFault::OutOfMemory),
            }
        }
        Act::Dispenser { .. } | Act::Load { .. } => None,
    };
    if is_run_again(&entry.run, &decision) {
        Ok(decision)
    } else {
        Err(ExplainFault::NotMadeAgain)
    }
}

fn traced(alloc: Global, draft: Draft) -> Result<Decision, AllocError>
    ensures draft { IfOk result (λ decision. decision.draft ≡ draft) }
    ensures trace { IfOk result (λ decision. IsTraceOf draft decision.trace) }
{
    let trace = trace_run(
        alloc,
        draft.program(),
        draft.context(),
        draft.view(),
        draft.counters(),
    )?;
    Ok(Decision { draft, trace })
}

/// Whether the decision has the version, the context and the answer of the entry's run, or there is neither.
fn is_run_again(run: &Option<Run>, decision: &Option<Decision>) -> bool
    ensures { IsTrue result → IsRunAgain run.now decision.now }
{
    match (run, decision) {
        (None, None) => true,
        (Some(run), Some(decision)) => run.version == decision.draft.version()
            && is_same_context(&run.context, decision.draft.context())
            && run.r0 == decision.trace.r0,
        _ => false,
    }
}

// The contract tells the prover that `==` decides whether two contexts are equal.
fn is_same_context(a: &Context, b: &Context) -> bool
    ensures { IsTrue result ↔ (a.now ≡ b.now) }
{
    a == b
}
