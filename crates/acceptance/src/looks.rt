//! A test of looks: what one pass enters, a look with another pass shows, and a look enters nothing.
ghost use Rattle.std.specs.Prelude.{◌≡◌, [], None};

use crate::sites::station;
use line_session::MachineClock;
use line_session::desk_session::session;
use site_core::Config;
use site_lock::{Forecourt, Pass, PassDesk, SiteLedger, Straight};
use std::alloc::{AllocError, Global};
use std::marker::Brand;
use std::sync::Wait;
use std::sync::ledger::Blank;
use std::test::Fail;
use std::time::Clock;
use till_request::Role;
use till_request::devices::{MemoryIn, MemoryOut};

/// The number of the day that looks tell.
const DAY: u32 = 7;

/// A session's answers, and its pass.
#[derive(Drop)]
struct Answered<L: SiteLedger> {
    answers: Vec<u8>,
    pass: Pass<L>,
}

/// Answers `lines` in a session at a desk that calls `forecourt` with `pass`.
fn answer<L: SiteLedger, R: Wait + Clock>(
    rt: &R,
    alloc: Global,
    forecourt: &Forecourt<L>,
    pass: Pass<L>,
    lines: &str,
) -> Result<Answered<L>, AllocError> {
    let bytes = Vec::from_slice(alloc, lines.as_bytes())?;
    let mut input = MemoryIn::new(bytes, Vec::new(alloc), None);
    let mut output = MemoryOut::new(alloc, Vec::new(alloc), None);
    let mut clock = MachineClock::new(rt);
    let gate = Straight { calls: 0 };
    let mut desk = PassDesk::new(rt, alloc, forecourt, pass, gate, DAY);
    let _ended = session(
        alloc,
        Role::All,
        &mut input,
        &mut output,
        &mut clock,
        &mut desk,
    );
    Ok(Answered {
        answers: output.bytes,
        pass: desk.into_pass(),
    })
}

/// What came of a session that acts and one that looks: their answers, how many receipts their passes got, and how many
/// entries the closed site has.
#[derive(Drop)]
struct TwoSessions {
    acted: Vec<u8>,
    seen: Vec<u8>,
    receipts: (usize, usize),
    entries: usize,
}

/// Runs the two sessions at a new forecourt with the ledger `L`, which is made from `blank`. `None` if memory ran out,
/// or if the forecourt can't be closed.
fn run_both<L: SiteLedger, R: Wait + Clock>(
    rt: &R,
    alloc: Global,
    blank: Blank,
    config: Config,
) -> Option<TwoSessions>
    requires name { blank.name ≡ L.name }
    requires parts { blank.parts ≡ L.parts }
    requires config { config ≡ L.config }
    requires new { (L.base ≡ []) × (L.taken ≡ None) }
    requires two { blank.parts ≡ 2 }
{
    let (forecourt, mut passes) = Forecourt::<L>::start(alloc, config, 2, blank).ok()?;
    let looking = passes.pop()?;
    let acting = passes.pop()?;
    let acted = answer(rt, alloc, &forecourt, acting, "till 1 open 1\n").ok()?;
    let looks = "look point 1\nlook day\n";
    let seen = answer(rt, alloc, &forecourt, looking, looks).ok()?;
    let receipts = (acted.pass.receipts().len(), seen.pass.receipts().len());
    passes.push(acted.pass).ok()?;
    passes.push(seen.pass).ok()?;
    let closed = forecourt.close(rt, passes).ok()?;
    Some(TwoSessions {
        acted: acted.answers,
        seen: seen.answers,
        receipts,
        entries: closed.site.history().len(),
    })
}

fn run_with_brand<R: Wait + Clock>(rt: &R, alloc: Global, config: Config) -> Option<TwoSessions> {
    run_both::<Brand, R>(rt, alloc, Blank::new(2), config)
}

#[test]
fn a_look_shows_what_another_entered(rt: HostRuntime) -> Result<(), Fail> {
    let two = run_with_brand(&rt, rt.alloc(), station(rt.alloc())?).ok_or("two sessions")?;
    assert!(rt; two.acted.as_slice() == b"1 done\n".as_slice());
    // The date behind is the machine's.
    assert!(rt;
        two.seen
            .as_slice()
            .starts_with(b"1 point 3 0 0 0 0 0 0\n1 day 7 ")
    );
    assert!(rt; two.receipts == (1, 0) && two.entries == 1);
    Ok(())
}
