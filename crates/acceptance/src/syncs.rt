//! Tests that an answer waits until its line in the journal is synced, and that several threads share a sync. The tests
//! make files whose syncs fail or wait.
use site_server::{Claim, CountedOut, Durable, GroupSync, HeldOut, MemoryDisk, SyncBeforeAnswer};
use std::alloc::{AllocError, Global};
use std::sync::atomic::{AtomicBool, AtomicU64, Ordering};
use std::sync::{Mutex, Wait};
use std::test::Fail;
use std::thread::{Threads, map_indices, yield_now};
use std::time::Clock;
use till_request::devices::MemoryOut;
use till_request::{DeviceFault, LineOut};

fn memory(alloc: Global) -> MemoryOut {
    MemoryOut::new(alloc, Vec::new(alloc), None)
}

/// Writes a line to the journal, and then the line's answer. Returns whether both were written whole.
fn leaves<J: LineOut, A: LineOut>(journal: &mut J, answers: &mut A) -> bool {
    let line = journal.write(b"line\n");
    let answer = answers.write(b"1 done\n");
    line.ok() == Some(5) && answer.ok() == Some(7)
}

/// Writes a line to the journal, the line's answer, and a further line to the journal. Returns whether the first line
/// was written and the other two writes failed.
fn stays<J: LineOut, A: LineOut>(journal: &mut J, answers: &mut A) -> bool {
    let line = journal.write(b"line\n");
    let answer = answers.write(b"2 done\n");
    let further = journal.write(b"further\n");
    line.ok() == Some(5) && answer.is_err() && further.is_err()
}

/// Writes lines to a journal, and their answers to an output. The second sync of the journal's file fails.
///
/// - First writes a line and two answers. These three writes must succeed.
/// - Then writes a line, the line's answer, and a further line. The first write must succeed, and the other two must
///   fail.
///
/// Returns true if all this happens, and the file is synced exactly twice, the second time in vain.
fn one_answer_leaves<R: Wait + Clock>(rt: &R, alloc: Global) -> bool {
    let group = GroupSync::new(MemoryDisk::new(1));
    let shared = SyncBeforeAnswer { rt, group: &group };
    let mut journal = CountedOut::new(memory(alloc), SyncBeforeAnswer { rt, group: &group });
    let mut held = HeldOut::new(memory(alloc), &shared);
    let first = leaves(&mut journal, &mut held);
    // The first answer left after a sync of the journal's only line, and no line was written to the journal since then.
    // So this second answer needs no further sync.
    let again = held.write(b"1 done\n");
    let has_failed = group.has_failed(rt);
    let calls = group.device().calls();
    let second = stays(&mut journal, &mut held);
    let lines = journal.into_output().bytes;
    first
        && again.ok() == Some(7)
        && !has_failed
        && calls == 1
        && second
        && group.has_failed(rt)
        && group.device().calls() == 2
        && group.device().synced() == 5
        && lines.as_slice() == b"line\nline\n".as_slice()
        && held.output.bytes.as_slice() == b"1 done\n1 done\n".as_slice()
}

#[test]
fn an_answer_leaves_once_its_line_is_synced(rt: HostRuntime) {
    assert!(rt; one_answer_leaves(&rt, rt.alloc()));
}

/// A journal under a lock, to which several threads write lines.
type Journal<'a, R> = Mutex<CountedOut<MemoryOut, SyncBeforeAnswer<'a, R, MemoryDisk>>>;

/// Writes a line to a journal, and returns how many bytes have been written to it in all.
fn bytes_written<R: Wait + Clock>(rt: &R, journal: &Journal<'_, R>) -> u64 {
    let mut journal = journal.lock(rt);
    let _ = journal.write(b"line\n");
    journal.counted()
}

/// Writes 50 lines to a journal, and waits for a sync after each. Returns how many lines weren't synced after the wait.
fn answered_early<R: Wait + Clock>(
    rt: &R,
    group: &GroupSync<MemoryDisk>,
    journal: &Journal<'_, R>,
) -> u32 {
    let mut early = 0u32;
    for _ in 0..50u32 {
        let bytes_written = bytes_written(rt, journal);
        let succeeded = group.wait(rt).is_ok();
        if !succeeded || group.device().synced() < bytes_written {
            early = early.saturating_add(1);
        }
    }
    early
}

/// Runs `answered_early` on four threads. Returns how many lines weren't synced in time, how many bytes were synced in
/// the end, and how many syncs there were.
fn beside_one_another<R: Wait + Clock + Threads + Sync>(
    rt: &R,
    alloc: Global,
) -> Result<(u32, u64, u64), AllocError> {
    let group = GroupSync::new(MemoryDisk::new(u64::MAX));
    let journal: Journal<'_, R> = Mutex::new(CountedOut::new(
        memory(alloc),
        SyncBeforeAnswer { rt, group: &group },
    ));
    let (forecourt, lines) = (&group, &journal);
    let all = map_indices(
        rt,
        alloc,
        4,
        &|_number| answered_early(rt, forecourt, lines),
    )?;
    let mut early = 0u32;
    for one in all {
        early = early.saturating_add(one);
    }
    Ok((early, group.device().synced(), group.device().calls()))
}

#[test]
fn answers_beside_one_another_wait_for_their_lines(rt: HostRuntime) -> Result<(), Fail> {
    let (early, upto, calls) = beside_one_another(&rt, rt.alloc())?;
    assert!(rt; early == 0 && upto == 1000 && 1 <= calls && calls <= 200);
    Ok(())
}

/// How often a thread of a test looks at a flag or a count before it gives up.
const LOOKS: u32 = 100_000_000;

/// A file whose syncs wait until `flush` is set, and fail if that takes too long. `entered` is set once a sync has
/// begun, and `calls` counts the syncs.
#[derive(Drop)]
struct HeldDisk {
    entered: AtomicBool,
    flush: AtomicBool,
    calls: AtomicU64,
}

/// Waits until `flag` is set, and returns true. Gives up after `LOOKS` looks, and returns false.
fn wait_for(flag: &AtomicBool) -> bool {
    for _ in 0..LOOKS {
        if flag.load(Ordering::SeqCst) {
            return true;
        }
        yield_now();
    }
    false
}

impl Durable for HeldDisk {
    ghost reported = { λ _. Unit {0} };

    ghost has_synced = { λ _. Unit {0} };

    ghost failed = { Unit {0} };

    ghost has_synced_none = { tt };

    ghost has_synced_fewer = { λ _ _ _ _. tt };

    fn report_written(&self, _bytes_written: u64) {}

    fn sync(&self, _bytes_written: u64, _claim: Claim) -> Result<(), DeviceFault> {
        self.calls.fetch_add(1, Ordering::SeqCst);
        self.entered.store(true, Ordering::SeqCst);
        if wait_for(&self.flush) {
            Ok(())
        } else {
            Err(DeviceFault)
        }
    }
}

/// Looks up to `LOOKS` times, until seven callers wait for a sync. Then sets the file's `flush` in any case, which lets
/// the first sync end.
fn let_go<R: Wait + Clock>(rt: &R, group: &GroupSync<HeldDisk>) {
    for _ in 0..LOOKS {
        if group.waiting(rt) == 7 {
            break;
        }
        yield_now();
    }
    group.device().flush.store(true, Ordering::SeqCst);
}

/// Does the part of the thread with this number, 0 to 8:
///
/// - 0 reports that one byte is written in all, and syncs.
/// - 1 to 7 each report during this sync that two bytes are written in all, and wait until both are synced.
/// - 8 lets the first sync end.
///
/// Returns false if no sync began in time, or if a sync failed.
fn take_part<R: Wait + Clock>(rt: &R, group: &GroupSync<HeldDisk>, number: usize) -> bool {
    if number > 0 && !wait_for(&group.device().entered) {
        return false;
    }
    if number == 8 {
        let_go(rt, group);
        return true;
    }
    group.record_written(rt, if number == 0 { 1 } else { 2 });
    group.wait(rt).is_ok()
}

/// Runs `take_part` on nine threads. Returns whether all calls returned true, and how many syncs there were.
fn shared_syncs<R: Wait + Clock + Threads + Sync>(
    rt: &R,
    alloc: Global,
) -> Result<(bool, u64), AllocError> {
    let group = GroupSync::new(HeldDisk {
        entered: AtomicBool::new(false),
        flush: AtomicBool::new(false),
        calls: AtomicU64::new(0),
    });
    let forecourt = &group;
    let all = map_indices(rt, alloc, 9, &|number| take_part(rt, forecourt, number))?;
    let mut are_well = true;
    for is_well in all {
        are_well &= is_well;
    }
    let calls = group.device().calls.load(Ordering::SeqCst);
    Ok((are_well, calls))
}

#[test]
fn seven_that_wait_share_a_sync(rt: HostRuntime) -> Result<(), Fail> {
    assert!(rt; shared_syncs(&rt, rt.alloc())? == (true, 2));
    Ok(())
}
