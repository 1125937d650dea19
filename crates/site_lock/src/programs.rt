//! Verification of many programs, on several threads.
ghost use Rattle.std.specs.Prelude.{◌≡◌, ℕ, ◌<◌, ◌≤◌, length, IfOk, slice_index_or, vec_len};
ghost use Rattle.site_lock.specs.Verdicts.{IsVerified};

use std::alloc::{AllocError, Global};
use std::thread;
use std::thread::Threads;
use verifier::verifying::verify;
use verifier::{Layout, Program, Refusal, TypeFault};

/// Stands for a result until it is there. `verify` never returns it, as no program has a unit of this number.
const UNDECIDED: Refusal = Refusal::Type(TypeFault::FallsOff(u32::MAX));

fn verified(alloc: Global, item: &(Vec<u8>, u32, Layout)) -> Result<Program, Refusal>
    ensures { IsVerified item.now.0.items item.now.1 item.now.2 result }
{
    verify(alloc, item.0.as_slice(), item.1, item.2)
}

fn places(alloc: Global, count: usize) -> Result<Vec<Result<Program, Refusal>>, AllocError>
    ensures { IfOk result (λ v. vec_len v ≡ count) }
{
    let mut places = Vec::with_capacity(alloc, count)?;
    for _made in 0..count {
        places.push_reserved(Err(UNDECIDED));
    }
    Ok(places)
}

/// Verifies each item (bytes, mask and layout), on at most `workers` threads, 1 to 16. If memory runs out for one item,
/// its own result says so.
pub fn verify_all<R: Threads + Sync>(
    rt: &R,
    alloc: Global,
    items: &[(Vec<u8>, u32, Layout)],
    workers: u32,
) -> Result<Vec<Result<Program, Refusal>>, AllocError>
    requires { (0 < workers) × (workers ≤ 16) }
    // proved number, each: It gives `verify`'s answers, in order | answer_of_another_item
    ensures number { IfOk result (λ v. vec_len v ≡ length items.now) }
    // proved: Each is verified for its layout
    ensures each { IfOk result (λ v. (i : ℕ) (d : _) (e : _) → i < length items.now
        → IsVerified (slice_index_or items.now i d).0.items (slice_index_or items.now i d).1
        (slice_index_or items.now i d).2 (slice_index_or v.items i e)) }
{
    let mut verdicts = places(alloc, items.len())?;
    thread::for_each_mut(
        rt,
        verdicts.as_mut_slice(),
        workers as usize,
        &|i, verdict: &mut Result<Program, Refusal>|
            requires { i < length items.now }
            ensures { (d : _)
                → IsVerified (slice_index_or items.entry.now i d).0.items (slice_index_or items.entry.now i d).1
                (slice_index_or items.entry.now i d).2 verdict.exit.now }
        { *verdict = verified(alloc, &items[i]) },
    );
    Ok(verdicts)
}
