//! Tests of decisions that are optimistic transactions: a rule is run on a draft (a copy of what the rule reads of the
//! site), other events follow, and then the commit enters the decision or finds that the decision is stale.
use fuelling_point::DispenserEvent;
use site_core::laws::{fresh_differs_nowhere, one_difference_is_first, programs_alone_decide};
use site_core::{Begin, Commit, Config, Event, Ready, Site, What, Why};
use std::alloc::Global;
use std::sync::Arc;
use std::test::Fail;
use till_request::{Reply, Request};
use verifier::Layout;
use verifier::verifying::verify;

/// A program: its bytes, the mask of the counters that it declares, and its layout.
#[derive(Clone, Copy)]
struct Rule {
    bytes: &'static [u8],
    mask: u32,
    layout: Layout,
}

/// A program that answers the amount that the request asks for.
const ASKED: Rule = Rule {
    bytes: &[0x79, 0x10, 0x18, 0, 0, 0, 0, 0, 0x95, 0, 0, 0, 0, 0, 0, 0],
    mask: 0,
    layout: Layout::One,
};

/// A program for `Layout::Two` that answers 1.
const ONE: Rule = Rule {
    bytes: &[0xb7, 0, 0, 0, 1, 0, 0, 0, 0x95, 0, 0, 0, 0, 0, 0, 0],
    mask: 0,
    layout: Layout::Two,
};

/// A program that adds one to counter 0 and answers 1, or answers 0 if the counter is at its bound.
const COUNTED: Rule = Rule {
    bytes: &[
        0xb7, 1, 0, 0, 0, 0, 0, 0, 0xb7, 2, 0, 0, 1, 0, 0, 0, 0x85, 0, 0, 0, 2, 0, 0, 0, 0x95, 0,
        0, 0, 0, 0, 0, 0,
    ],
    mask: 1,
    layout: Layout::One,
};

#[derive(Clone, Copy)]
enum Does {
    Till(u32, Request),
    Disp(u32, DispenserEvent),
    Load(u32, Rule),
}

const OPEN: Does = Does::Till(1, Request::OpenPoint(1));

const OPEN_SECOND: Does = Does::Till(2, Request::OpenPoint(2));

/// The events that load the program `ASKED` into slot 0 and open point 1.
const OPENED: &[Does] = &[Does::Load(0, ASKED), OPEN];

const RELEASE: Request = Request::Release(1, 8000);

/// A case: the events before the draft, the request of till 1, and the events between the draft and the commit.
/// `commit_result` is what the commit must return: the entry's number and reply, or why the decision is stale.
struct Row {
    before: &'static [Does],
    asked: Request,
    between: &'static [Does],
    commit_result: Result<(u32, Reply), Why>,
}

const ROWS: [Row; 8] = [
    // Showing a point changes nothing that the run depends on, so the decision is entered.
    Row {
        before: OPENED,
        asked: RELEASE,
        between: &[Does::Till(2, Request::Show(1))],
        commit_result: Ok((4, Reply::Granted(8000, 1))),
    },
    // A preset of 3000 is set between the draft and the commit. The commit grants no more than this preset.
    Row {
        before: OPENED,
        asked: RELEASE,
        between: &[
            Does::Load(1, ASKED),
            Does::Till(2, Request::Preset(1, 3000)),
        ],
        commit_result: Ok((5, Reply::Granted(3000, 1))),
    },
    Row {
        before: OPENED,
        asked: RELEASE,
        between: &[Does::Load(0, ONE)],
        commit_result: Err(Why::Version(Some(2))),
    },
    Row {
        before: OPENED,
        asked: RELEASE,
        between: &[Does::Disp(1, DispenserEvent::Up(1))],
        commit_result: Err(Why::Context(12)),
    },
    // The context of the second layout has the number of open points, so opening a point changes the context.
    Row {
        before: &[Does::Load(0, ONE), OPEN],
        asked: RELEASE,
        between: &[OPEN_SECOND],
        commit_result: Err(Why::Context(72)),
    },
    Row {
        before: OPENED,
        asked: RELEASE,
        between: &[OPEN_SECOND],
        commit_result: Err(Why::PointDiffers(2)),
    },
    Row {
        before: OPENED,
        asked: RELEASE,
        between: &[Does::Load(2, ASKED), Does::Till(2, Request::Price(2, 1899))],
        commit_result: Err(Why::PriceDiffers(2)),
    },
    Row {
        before: &[Does::Load(1, COUNTED), OPEN, OPEN_SECOND],
        asked: Request::Preset(1, 100),
        between: &[Does::Till(2, Request::Preset(2, 100))],
        commit_result: Err(Why::Counter(0, 1)),
    },
];

/// Makes a configuration with two tills, two fuelling points, and the bound 2 for counter 0. Releases are decided by
/// slot 0, presets by slot 1, and prices by slot 2. Returns `None` if memory ran out or the configuration isn't valid.
fn config(alloc: Global) -> Option<Config> {
    let points = vec![in alloc; (0, 1), (0, 1)].ok()?;
    let mut counters = [(0, 0); 32];
    counters[0] = (0, 2);
    Config::new(2, 2, [1799, 1849, 0, 0, 0, 0, 0, 0], points, counters)
}

fn load(alloc: Global, slot: u32, rule: Rule) -> Option<What> {
    let program = verify(alloc, rule.bytes, rule.mask, rule.layout).ok()?;
    let program = Arc::new(alloc, program).ok()?;
    Some(What::Load { slot, program })
}

fn event(alloc: Global, does: Does) -> Option<Event> {
    let what = match does {
        Does::Till(till, request) => What::Till { till, request },
        Does::Disp(point, event) => What::Dispenser { point, event },
        Does::Load(slot, rule) => load(alloc, slot, rule)?,
    };
    Some(Event {
        pass: 1,
        moment: 0,
        what,
    })
}

fn events(alloc: Global, all: &[Does]) -> Option<Vec<Event>> {
    let mut events = Vec::new(alloc);
    for does in all {
        events.push(event(alloc, *does)?).ok()?;
    }
    Some(events)
}

/// Makes a new site, and applies these events to it. Returns `None` if memory ran out or a program is refused.
fn played(alloc: Global, all: &[Does]) -> Option<Site> {
    let config = config(alloc)?;
    let (site, _results) = Site::run(alloc, config, events(alloc, all)?).ok()?;
    Some(site)
}

fn decide(site: &Site, request: Request) -> Option<Ready> {
    match site.begin(1, 0, &request).ok()? {
        Begin::Direct => None,
        Begin::Run(draft) => Some(draft.run()),
    }
}

/// Commits a decision under pass number 2, and returns the entry's number and reply, or why the decision is stale.
/// Returns `None` if the commit fails.
fn commit(site: &mut Site, ready: Ready) -> Option<Result<(u32, Reply), Why>> {
    match site.commit(2, ready).ok()? {
        Commit::Done(answered) => Some(Ok((answered.number, answered.reply))),
        Commit::Stale(why) => Some(Err(why)),
    }
}

fn enter(alloc: Global, site: &mut Site, all: &[Does]) -> Option<()> {
    for does in all {
        site.apply(event(alloc, *does)?).ok()?;
    }
    Some(())
}

/// Makes the draft for the request `row.asked`, runs the rule on the draft, applies the events `row.between`, and
/// commits the decision. Returns the result of the commit, or `None` if a step fails.
fn late(alloc: Global, site: &mut Site, row: &Row) -> Option<Result<(u32, Reply), Why>> {
    let ready = decide(site, row.asked)?;
    enter(alloc, site, row.between)?;
    commit(site, ready)
}

fn commit_result(alloc: Global, row: &Row) -> Option<Result<(u32, Reply), Why>> {
    let mut site = played(alloc, row.before)?;
    late(alloc, &mut site, row)
}

/// Returns the index in `ROWS` of the first case whose result isn't the expected one, or `None` if there is none.
fn first_unlike(alloc: Global) -> Option<usize> {
    for (place, row) in ROWS.iter().enumerate() {
        if commit_result(alloc, row) != Some(row.commit_result) {
            return Some(place);
        }
    }
    None
}

#[test]
fn a_decision_is_entered_or_stale(rt: HostRuntime) {
    fresh_differs_nowhere();
    one_difference_is_first();
    programs_alone_decide();
    assert!(rt; first_unlike(rt.alloc()).is_none());
}
