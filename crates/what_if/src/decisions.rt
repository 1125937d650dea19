//! The decisions that the rules of one slot made.

ghost use Rattle.std.specs.Prelude.{◌≡◌};
ghost use Rattle.what_if.specs.Decisions.{asked_by, asking_of, decision_in, granted_by};

use bpf_model::context::Context;
use decision_journal::Entry;
use till_request::{Act, Reply, Request};

/// The kind of a request that a rule decides.
#[derive(Clone, Copy)]
pub enum Kind {
    Release,
    Preset,
    Price,
}

/// What a till asked a rule. `asked` is in cents, or a price in thousandths per litre. A price has point 0; releases and
/// presets have product 0.
#[derive(Clone, Copy)]
pub struct Asking {
    pub asked: u64,
    pub till: u32,
    pub point: u32,
    pub product: u32,
    pub kind: Kind,
}

/// An entry's decision by the rule of a slot: what was asked, what was granted, if anything, by which version, and on
/// which context.
#[derive(Clone, Copy)]
pub(crate) struct Decision {
    pub(crate) number: u32,
    pub(crate) moment: u64,
    pub(crate) asking: Asking,
    pub(crate) granted: Option<u64>,
    pub(crate) version: u32,
    pub(crate) context: Context,
}

fn asking_of(till: u32, request: &Request) -> Option<Asking>
    ensures { result ≡ asking_of till request.now }
{
    match *request {
        Request::Release(point, asked) => Some(Asking {
            asked,
            till,
            point,
            product: 0,
            kind: Kind::Release,
        }),
        Request::Preset(point, asked) => Some(Asking {
            asked,
            till,
            point,
            product: 0,
            kind: Kind::Preset,
        }),
        Request::Price(product, asked) => Some(Asking {
            asked,
            till,
            point: 0,
            product,
            kind: Kind::Price,
        }),
        _ => None,
    }
}

fn asked_by(act: &Act) -> Option<Asking>
    ensures { result ≡ asked_by act.now }
{
    match act {
        Act::Till { till, request } => asking_of(*till, request),
        _ => None,
    }
}

fn granted_by(reply: &Reply) -> Option<u64>
    ensures { result ≡ granted_by reply.now }
{
    match reply {
        Reply::Granted(value, _) => Some(*value),
        _ => None,
    }
}

/// Returns the decision of an entry, if a rule in this slot made one.
#[tactic(auto, unfolding(crate::specs::Decisions::decision_in))]
pub(crate) fn decision_in(slot: u32, entry: &Entry) -> Option<Decision>
    ensures { result ≡ decision_in slot entry.now }
{
    let asking = asked_by(&entry.act)?;
    match &entry.run {
        Some(run) => {
            if run.slot != slot {
                return None;
            }
            Some(Decision {
                number: entry.number,
                moment: entry.moment,
                asking,
                granted: granted_by(&entry.reply),
                version: run.version,
                context: run.context,
            })
        }
        None => None,
    }
}
