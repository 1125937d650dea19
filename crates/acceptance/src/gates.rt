//! A test of two things: a program is run while nobody holds the site's lock, and a forecourt can still be closed after
//! a close was refused.
ghost use Rattle.std.specs.Prelude.{◌≡◌, [], None};

use crate::programs::ASKED;
use fuelling_point::DispenserEvent;
use site_core::{Answered, CallFault, Config, Draft, Ready};
use site_lock::{CloseFault, CloseRefusal, Forecourt, Gate, Pass, SiteLedger, Straight};
use std::alloc::Global;
use std::marker::Brand;
use std::sync::atomic::{AtomicU64, Ordering};
use std::sync::ledger::Blank;
use std::sync::{Arc, Wait};
use std::test::Fail;
use std::thread::{Threads, join, yield_now};
use till_request::{Reply, Request};
use verifier::Layout;
use verifier::verifying::verify;

/// Makes a configuration with two tills and two fuelling points. Releases are decided by slot 0, presets by slot 1, and
/// prices by slot 2.
fn config(alloc: Global) -> Option<Config> {
    let points = vec![in alloc; (0, 1), (0, 1)].ok()?;
    Config::new(2, 2, [1799, 1849, 0, 0, 0, 0, 0, 0], points, [(0, 0); 32])
}

/// Loads into slot 0 a program that grants what is asked.
fn load<L: SiteLedger, R: Wait>(
    rt: &R,
    alloc: Global,
    forecourt: &Forecourt<L>,
    pass: &mut Pass<L>,
) -> Option<()> {
    let program = verify(alloc, ASKED.as_slice(), 0, Layout::One).ok()?;
    let program = Arc::new(alloc, program).ok()?;
    forecourt.load(rt, pass, 0, program).ok()?;
    Some(())
}

/// Opens fuelling points 1 and 2 by requests of till 1.
fn open<L: SiteLedger, R: Wait>(
    rt: &R,
    forecourt: &Forecourt<L>,
    pass: &mut Pass<L>,
) -> Option<()> {
    let mut gate = Straight { calls: 0 };
    for point in [1, 2] {
        forecourt
            .request(rt, pass, &mut gate, 1, 0, Request::OpenPoint(point))
            .ok()?;
    }
    Some(())
}

/// Returns whether a call was answered with a grant of 8000 cents by version 1, in the entry with the number `number`.
fn is_granted(answered: Result<Answered, CallFault>, number: u32) -> bool {
    match answered {
        Ok(answered) => answered.number == number && answered.reply == Reply::Granted(8000, 1),
        Err(_) => false,
    }
}

/// A gate that waits before it runs a draft. At its first call it sets `held` to 1 and waits until `let_go` is 1. At
/// its second call it sets `held` to 2 and waits until `let_go` is 2, and so on. `is_well` becomes false if a wait
/// takes too long, or if a draft is for another till than till 1.
#[derive(Drop)]
struct Holding<'a> {
    held: &'a AtomicU64,
    let_go: &'a AtomicU64,
    calls: u64,
    is_well: bool,
}

/// Waits until `count` is `wanted`, and returns true. Gives up after 100,000,000 looks, and returns false.
fn wait_for(count: &AtomicU64, wanted: u64) -> bool {
    for _ in 0..100_000_000u32 {
        if count.load(Ordering::SeqCst) == wanted {
            return true;
        }
        yield_now();
    }
    false
}

impl Gate for Holding<'_> {
    ghost use Rattle.till_request.specs.Count.{RoseBy};

    ghost calls = { λ s. s.calls };

    ghost makes = { λ before _ after. RoseBy 1 before.calls after.calls };

    fn run(&mut self, till: u32, draft: Draft) -> Ready {
        self.calls = self.calls.wrapping_add(1);
        self.held.store(self.calls, Ordering::SeqCst);
        self.is_well &= wait_for(self.let_go, self.calls) && till == 1;
        draft.run()
    }
}

/// Asks for a release as till 1. The gate of this request waits before it runs the rule, while the caller doesn't hold
/// the site's lock. `other_calls` changes point 2 during each wait, so the gate's two runs are stale, and the request
/// is then decided under the site's lock. Returns whether the gate was called twice, each time for till 1, no wait took
/// too long, and the request was granted as entry 6.
fn held_call<L: SiteLedger, R: Wait>(
    rt: &R,
    forecourt: &Forecourt<L>,
    pass: &mut Pass<L>,
    held: &AtomicU64,
    let_go: &AtomicU64,
) -> bool {
    let mut gate = Holding {
        held,
        let_go,
        calls: 0,
        is_well: true,
    };
    let answered = forecourt.request(rt, pass, &mut gate, 1, 0, Request::Release(1, 8000));
    is_granted(answered, 6) && gate.calls == 2 && gate.is_well
}

/// Changes point 2 twice, each time while the gate in `held_call` waits before it runs the rule for till 1's request.
/// Lets this gate go on after each change:
///
/// - First a nozzle is lifted.
/// - Then till 2 is granted a release as entry 5. This request has another gate, which doesn't wait and is called once.
///
/// Returns whether all this happened.
fn other_calls<L: SiteLedger, R: Wait>(
    rt: &R,
    forecourt: &Forecourt<L>,
    pass: &mut Pass<L>,
    held: &AtomicU64,
    let_go: &AtomicU64,
) -> bool {
    let is_held = wait_for(held, 1);
    let lifted = forecourt.dispenser(rt, pass, 2, DispenserEvent::Up(1));
    let_go.store(1, Ordering::SeqCst);
    let is_held_again = wait_for(held, 2);
    let mut gate = Straight { calls: 0 };
    let released = forecourt.request(rt, pass, &mut gate, 2, 0, Request::Release(2, 8000));
    let_go.store(2, Ordering::SeqCst);
    is_held && lifted.is_ok() && is_held_again && is_granted(released, 5) && gate.calls == 1
}

/// Runs `held_call` and `other_calls` on two threads, and returns whether both returned true.
fn beside<L: SiteLedger + Send + Sync, R: Threads + Wait + Sync>(
    rt: &R,
    forecourt: &Forecourt<L>,
    first: &mut Pass<L>,
    second: &mut Pass<L>,
) -> bool {
    let (held, let_go) = (AtomicU64::new(0), AtomicU64::new(0));
    let (held, let_go) = (&held, &let_go);
    let (one, two) = join(
        rt,
        || held_call(rt, forecourt, first, held, let_go),
        || other_calls(rt, forecourt, second, held, let_go),
    );
    one && two
}

/// Loads a program into slot 0, and opens fuelling points 1 and 2. Then runs `held_call` with the first pass and
/// `other_calls` with the second one, on two threads. Returns whether both returned true, or `None` if there are fewer
/// than two passes, or if loading the program or opening a point ended with an error.
fn are_granted<L: SiteLedger + Send + Sync, R: Threads + Wait + Sync>(
    rt: &R,
    alloc: Global,
    forecourt: &Forecourt<L>,
    passes: &mut [Pass<L>],
) -> Option<bool> {
    let (first, rest) = passes.split_first_mut()?;
    let second = rest.first_mut()?;
    load(rt, alloc, forecourt, first)?;
    open(rt, forecourt, first)?;
    Some(beside(rt, forecourt, first, second))
}

/// Closes a forecourt with these passes, and returns how many entries its site has, or `None` if the close is refused.
fn closed<L: SiteLedger, R: Wait>(
    rt: &R,
    forecourt: Forecourt<L>,
    passes: Vec<Pass<L>>,
) -> Option<usize> {
    match forecourt.close(rt, passes) {
        Ok(closed) => Some(closed.site.history().len()),
        Err(_) => None,
    }
}

/// Reopens the forecourt of a refused close, and closes it with all passes: those in `kept`, and `last`. Returns how
/// many entries its site has, or `None` if this close is refused too, or memory ran out.
fn closed_again<L: SiteLedger, R: Wait>(
    rt: &R,
    kept: CloseFault<L>,
    last: Pass<L>,
) -> Option<usize> {
    let mut passes = kept.passes;
    passes.push(last).ok()?;
    closed(rt, kept.forecourt.reopen(), passes)
}

/// Tries to close a forecourt without its last pass, and then closes it with all passes. Returns why the first close
/// was refused, and how many entries the site has. Returns `None` if there is no pass, if the first close isn't
/// refused, or if the second one fails.
fn closed_in_the_end<L: SiteLedger, R: Wait>(
    rt: &R,
    forecourt: Forecourt<L>,
    mut passes: Vec<Pass<L>>,
) -> Option<(CloseRefusal, usize)> {
    let last = passes.pop()?;
    match forecourt.close(rt, passes) {
        Ok(_) => None,
        Err(kept) => Some((kept.why, closed_again(rt, kept, last)?)),
    }
}

/// Starts a forecourt with two passes, lets two threads call it (`are_granted`), and closes it at the second attempt
/// (`closed_in_the_end`). Returns what `are_granted` returned, why the first close was refused, and how many entries
/// the closed site has. Returns `None` if a step failed.
fn both<L: SiteLedger + Send + Sync, R: Threads + Wait + Sync>(
    rt: &R,
    alloc: Global,
    blank: Blank,
    config: Config,
) -> Option<(bool, CloseRefusal, usize)>
    requires name { blank.name ≡ L.name }
    requires parts { blank.parts ≡ L.parts }
    requires config { config ≡ L.config }
    requires new { (L.base ≡ []) × (L.taken ≡ None) }
    requires two { blank.parts ≡ 2 }
{
    let (forecourt, mut passes) = Forecourt::<L>::start(alloc, config, 2, blank).ok()?;
    let are_granted = are_granted(rt, alloc, &forecourt, passes.as_mut_slice())?;
    let (why, entries) = closed_in_the_end(rt, forecourt, passes)?;
    Some((are_granted, why, entries))
}

fn both_of<R: Threads + Wait + Sync>(
    rt: &R,
    alloc: Global,
    config: Config,
) -> Option<(bool, CloseRefusal, usize)> {
    both::<Brand, R>(rt, alloc, Blank::new(2), config)
}

// If till 1's gate ran under the site's lock, till 2 couldn't call the forecourt meanwhile, and the test would fail.
#[test]
fn gate_holds_first_until_second(rt: HostRuntime) -> Result<(), Fail> {
    let config = config(rt.alloc()).ok_or("a configuration")?;
    let told = both_of(&rt, rt.alloc(), config);
    assert!(rt; matches!(told, Some((true, CloseRefusal::PassMissing, 6))));
    Ok(())
}
