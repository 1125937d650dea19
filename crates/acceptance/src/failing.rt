//! Tests of sessions and journals over devices that fail at each read and each write in turn. A session must return the
//! fault of the device, keep the events that were entered, and have written a beginning of the answers.
ghost use Rattle.std.specs.Prelude.{◌≡◌, [], None};

use crate::sites::{ANSWERS, DELIVERY, JOURNAL, station};
use decision_journal::journal::read_entries;
use decision_journal::writing::write_entries;
use decision_journal::{Entry, JournalFault};
use line_session::desk_session::session;
use line_session::{Clock, Ended, SessionFault};
use site_core::Config;
use site_lock::{Forecourt, Pass, PassDesk, SiteLedger, Straight};
use std::alloc::Global;
use std::marker::Brand;
use std::sync::Wait;
use std::sync::ledger::Blank;
use std::test::Fail;
use till_request::Role;
use till_request::devices::{MemoryIn, MemoryOut};

/// A clock that always gives moment 0.
#[derive(Drop)]
struct FixedClock;

impl Clock for FixedClock {
    ghost tick = { λ _ _ _. Unit {0} };

    fn now(&mut self) -> u64 {
        0
    }
}

/// The outcome of a session: how it ended, how many reads and writes failed, how many receipts (records of an answered
/// call) its pass got, how many answers were written, and whether the output is a beginning of the expected answers.
#[derive(Clone, Copy, PartialEq)]
struct SessionOutcome {
    ended: Result<Ended, SessionFault>,
    failed: (u64, u64),
    entries: usize,
    lines: usize,
    is_beginning: bool,
}

/// The outcome of a session without a fault: all 14 lines are entered and answered.
const WHOLE: SessionOutcome = SessionOutcome {
    ended: Ok(Ended {
        lines: 14,
        cut: None,
    }),
    failed: (0, 0),
    entries: 14,
    lines: 14,
    is_beginning: true,
};

/// Returns how many of these bytes are LFs.
fn lines_in(bytes: &[u8]) -> usize {
    let mut lines = 0usize;
    for byte in bytes {
        if *byte == b'\n' {
            lines = lines.wrapping_add(1);
        }
    }
    lines
}

/// Runs a session over `input` and `output`, and returns its outcome. The session's lines go to a desk that calls
/// `forecourt` with `pass`.
fn seen_at<L: SiteLedger, R: Wait>(
    rt: &R,
    alloc: Global,
    forecourt: &Forecourt<L>,
    pass: Pass<L>,
    mut input: MemoryIn,
    mut output: MemoryOut,
) -> SessionOutcome {
    let mut clock = FixedClock;
    let mut desk = PassDesk::new(rt, alloc, forecourt, pass, Straight { calls: 0 }, 1);
    let ended = session(
        alloc,
        Role::All,
        &mut input,
        &mut output,
        &mut clock,
        &mut desk,
    );
    SessionOutcome {
        ended,
        failed: (input.failures, output.failures),
        entries: desk.into_pass().receipts().len(),
        lines: lines_in(&output.bytes),
        is_beginning: ANSWERS.as_bytes().starts_with(&output.bytes),
    }
}

/// Runs a session over `input` and `output` at a new forecourt with the ledger `L`, which is made from `blank`. Returns
/// the outcome, or `None` if the forecourt can't be started. `blank` must have the name and the number of parts of `L`.
/// `L` must have:
///
/// - one part, which is for the session's pass
/// - the configuration `config`
/// - an empty history to start from (`base`)
/// - `None` as `taken`: the bytes that the journal had taken before aren't known
fn run_on_new_site<L: SiteLedger, R: Wait>(
    rt: &R,
    alloc: Global,
    blank: Blank,
    config: Config,
    input: MemoryIn,
    output: MemoryOut,
) -> Option<SessionOutcome>
    requires name { blank.name ≡ L.name }
    requires parts { blank.parts ≡ L.parts }
    requires config { config ≡ L.config }
    requires new { (L.base ≡ []) × (L.taken ≡ None) }
    requires one { blank.parts ≡ 1 }
{
    let (forecourt, mut passes) = Forecourt::<L>::start(alloc, config, 1, blank).ok()?;
    let pass = passes.pop()?;
    Some(seen_at(rt, alloc, &forecourt, pass, input, output))
}

/// Makes an input that gives the lines of `DELIVERY`. Only its first `good` reads succeed; all do if `good` is `None`.
/// The error is that memory ran out.
fn delivery(alloc: Global, good: Option<u64>) -> Result<MemoryIn, Fail> {
    let bytes = Vec::from_slice(alloc, DELIVERY.as_bytes())?;
    Ok(MemoryIn::new(bytes, Vec::new(alloc), good))
}

/// Makes an output that takes at most `each` bytes in a write. Only its first `good` writes succeed; all do if `good`
/// is `None`.
fn answers(alloc: Global, each: usize, good: Option<u64>) -> MemoryOut {
    let mut output = MemoryOut::new(alloc, Vec::new(alloc), good);
    output.each = each;
    output
}

fn run_with_brand<R: Wait>(
    rt: &R,
    alloc: Global,
    config: Config,
    input: MemoryIn,
    output: MemoryOut,
) -> Option<SessionOutcome> {
    run_on_new_site::<Brand, R>(rt, alloc, Blank::new(1), config, input, output)
}

/// Runs a session over `input` and `output` at a new site of two points, and returns its outcome. The error is that
/// memory ran out, or that the site couldn't be started.
fn seen_by<R: Wait>(
    rt: &R,
    alloc: Global,
    input: MemoryIn,
    output: MemoryOut,
) -> Result<SessionOutcome, Fail> {
    let seen = run_with_brand(rt, alloc, station(alloc)?, input, output);
    Ok(seen.ok_or("a session")?)
}

fn seen_after_reads<R: Wait>(rt: &R, alloc: Global, good: u64) -> Result<SessionOutcome, Fail> {
    let input = delivery(alloc, Some(good))?;
    seen_by(rt, alloc, input, answers(alloc, 4096, None))
}

/// Returns the outcome that a session must have if it fails with the fault `ended` after `entries` entries and `lines`
/// answers.
fn failed(ended: SessionFault, entries: usize, lines: usize) -> SessionOutcome {
    let failed = match ended {
        SessionFault::Write => (0, 1),
        _ => (1, 0),
    };
    SessionOutcome {
        ended: Err(ended),
        failed,
        entries,
        lines,
        is_beginning: true,
    }
}

/// Returns how many whole lines are in the first `place` bytes of `DELIVERY`.
fn lines_before(place: usize) -> usize {
    lines_in(
        DELIVERY
            .as_bytes()
            .get(..place)
            .unwrap_or(DELIVERY.as_bytes()),
    )
}

/// Runs sessions in which only the first k reads succeed, for k = 0, 1, 2 and so on, up to a k at which no read fails.
/// Returns the first k at which the outcome is wrong, or `None`.
fn unlike_after_reads<R: Wait>(rt: &R, alloc: Global) -> Result<Option<u64>, Fail> {
    for good in 0..DELIVERY.len().wrapping_add(2) {
        let lines = lines_before(good);
        let wanted = if good > DELIVERY.len() {
            WHOLE
        } else {
            failed(SessionFault::Read, lines, lines)
        };
        if seen_after_reads(rt, alloc, good as u64)? != wanted {
            return Ok(Some(good as u64));
        }
    }
    Ok(None)
}

fn seen_after_writes<R: Wait>(rt: &R, alloc: Global, good: u64) -> Result<SessionOutcome, Fail> {
    let input = delivery(alloc, None)?;
    seen_by(rt, alloc, input, answers(alloc, 4, Some(good)))
}

/// Runs sessions in which only the first k writes succeed, for k = 0, 1, 2 and so on, until one ends without a fault.
/// Returns the first k at which the outcome is wrong, or `None`. If a write fails, the session must have entered one
/// event more than it has written whole answers. A session must take 15 to 99 writes; if 99 are too few, returns 100.
fn unlike_after_writes<R: Wait>(rt: &R, alloc: Global) -> Result<Option<u64>, Fail> {
    for good in 0..100u64 {
        let seen = seen_after_writes(rt, alloc, good)?;
        if seen == WHOLE && good > 14 {
            return Ok(None);
        }
        if seen != failed(SessionFault::Write, seen.lines.wrapping_add(1), seen.lines) {
            return Ok(Some(good));
        }
    }
    Ok(Some(100))
}

/// Makes an input that gives the bytes of `JOURNAL`, at most 50 in a read. Only its first `good` reads succeed. The
/// error is that memory ran out.
fn cut_journal(alloc: Global, good: u64) -> Result<MemoryIn, Fail> {
    let bytes = Vec::from_slice(alloc, JOURNAL.as_bytes())?;
    let mut input = MemoryIn::new(bytes, Vec::new(alloc), Some(good));
    input.each = 50;
    Ok(input)
}

/// The result of reading a journal, and how many reads failed, how many were made, and how many bytes they asked for.
#[derive(Clone, Copy, PartialEq)]
struct Read {
    entries: Result<usize, JournalFault>,
    failures: u64,
    reads: u64,
    asked: u64,
}

fn read_after(alloc: Global, good: u64) -> Result<Read, Fail> {
    let mut input = cut_journal(alloc, good)?;
    let entries = read_entries(alloc, &mut input).map(|entries| entries.len());
    Ok(Read {
        entries,
        failures: input.failures,
        reads: input.reads,
        asked: input.asked,
    })
}

/// Returns the result that reading the journal must have if it makes `reads` reads, of which the last fails.
fn failed_read(reads: u64) -> Read {
    Read {
        entries: Err(JournalFault::Device),
        failures: 1,
        reads,
        asked: reads.wrapping_mul(4096),
    }
}

/// Returns the result that reading the journal must have if it is read whole in `reads` reads.
fn whole_read(reads: u64) -> Read {
    Read {
        entries: Ok(14),
        failures: 0,
        reads,
        asked: reads.wrapping_mul(4096),
    }
}

/// Reads `JOURNAL` from inputs of which only the first k reads succeed, for k = 0, 1, 2 and so on, until it is read
/// whole. Returns the first k at which the result is wrong, or `None`. `JOURNAL` must take 11 to 99 reads; if 99 are
/// too few, returns 100.
fn unlike_after_journal_reads(alloc: Global) -> Result<Option<u64>, Fail> {
    for good in 0..100u64 {
        let read = read_after(alloc, good)?;
        if good > 10 && read == whole_read(read.reads) {
            return Ok(None);
        }
        if read != failed_read(good.wrapping_add(1)) {
            return Ok(Some(good));
        }
    }
    Ok(Some(100))
}

/// The result of writing a journal, how many writes failed, whether the output is a beginning of the journal, and
/// whether it is as long as the journal.
#[derive(Clone, Copy, PartialEq)]
struct Written {
    write_result: Result<(), JournalFault>,
    failures: u64,
    is_beginning: bool,
    is_all: bool,
}

/// Writes entries to an output that takes at most 30 bytes in a write. Only the output's first `good` writes succeed.
/// Returns what happened.
fn written_after(alloc: Global, entries: &[Entry], good: u64) -> Written {
    let mut output = answers(alloc, 30, Some(good));
    let write_result = write_entries(alloc, entries, &mut output);
    Written {
        write_result,
        failures: output.failures,
        is_beginning: JOURNAL.as_bytes().starts_with(&output.bytes),
        is_all: output.bytes.len() == JOURNAL.len(),
    }
}

const WHOLE_JOURNAL: Written = Written {
    write_result: Ok(()),
    failures: 0,
    is_beginning: true,
    is_all: true,
};

const FRONT_OF_A_JOURNAL: Written = Written {
    write_result: Err(JournalFault::Device),
    failures: 1,
    is_beginning: true,
    is_all: false,
};

/// Writes `JOURNAL` to outputs of which only the first k writes succeed, for k = 0, 1, 2 and so on, until it is written
/// whole. Returns the first k at which the result is wrong, or `None`. `JOURNAL` must take 15 to 199 writes; if 199 are
/// too few, returns 200.
fn unlike_after_journal_writes(alloc: Global) -> Result<Option<u64>, Fail> {
    let mut input = cut_journal(alloc, 1000)?;
    let entries = read_entries(alloc, &mut input).ok().ok_or("entries")?;
    for good in 0..200u64 {
        let written = written_after(alloc, &entries, good);
        if good > 14 && written == WHOLE_JOURNAL {
            return Ok(None);
        }
        if written != FRONT_OF_A_JOURNAL {
            return Ok(Some(good));
        }
    }
    Ok(Some(200))
}

/// Runs four tests: the reads of a session, its writes, the reads of a journal, and its writes. Returns for each test
/// the first number of successful calls at which the outcome is wrong, or `None`.
fn first_unlike<R: Wait>(rt: &R, alloc: Global) -> Result<[Option<u64>; 4], Fail> {
    let reads = unlike_after_reads(rt, alloc)?;
    let writes = unlike_after_writes(rt, alloc)?;
    let journal_reads = unlike_after_journal_reads(alloc)?;
    let journal_writes = unlike_after_journal_writes(alloc)?;
    Ok([reads, writes, journal_reads, journal_writes])
}

// Tests a session and a journal with a failure at each read and each write.
#[test]
fn fails_at_each_call(rt: HostRuntime) -> Result<(), Fail> {
    assert!(rt; first_unlike(&rt, rt.alloc())? == [None; 4]);
    Ok(())
}
