//! A test that many programs are verified at once.
ghost use Rattle.std.specs.Prelude.{◌<◌, ◌≤◌};

use site_lock::programs::verify_all;
use std::alloc::{AllocError, Global};
use std::test::Fail;
use std::thread::Threads;
use verifier::Layout;

/// A program that grants what is asked: its answer is the asked amount, which it reads from its context.
pub const ASKED: [u8; 16] = [0x79, 0x10, 0x18, 0, 0, 0, 0, 0, 0x95, 0, 0, 0, 0, 0, 0, 0];

/// A program that ends without an answer in R0, which the verifier refuses.
const EXIT: [u8; 8] = [0x95, 0, 0, 0, 0, 0, 0, 0];

type Item = (Vec<u8>, u32, Layout);

/// Returns three programs to verify, of which the second is refused.
fn items(alloc: Global) -> Result<Vec<Item>, AllocError> {
    let mut items = Vec::new(alloc);
    for bytes in [ASKED.as_slice(), EXIT.as_slice(), ASKED.as_slice()] {
        items.push((Vec::from_slice(alloc, bytes)?, 0, Layout::One))?;
    }
    Ok(items)
}

/// Verifies these items on at most `workers` threads, which must be 1 to 16. Returns how many results are right: the
/// second item is refused, and each other one accepted. Returns 0 if there is no memory for the results.
fn answered<R: Threads + Sync>(rt: &R, alloc: Global, items: &[Item], workers: u32) -> u32
    requires { (0 < workers) × (workers ≤ 16) }
{
    let Ok(answers) = verify_all(rt, alloc, items, workers) else {
        return 0;
    };
    let mut count = 0u32;
    for (place, answer) in answers.iter().enumerate() {
        if answer.is_ok() == (place != 1) {
            count = count.wrapping_add(1);
        }
    }
    count
}

#[test]
fn many_programs_are_answered_in_order(rt: HostRuntime) -> Result<(), Fail> {
    let items = items(rt.alloc())?;
    let one = answered(&rt, rt.alloc(), &items, 1);
    let two = answered(&rt, rt.alloc(), &items, 2);
    assert!(rt; one == 3 && two == 3);
    Ok(())
}
