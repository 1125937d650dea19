// What a helper was asked and answered.

use crate::instructions::Executed;
use crate::tracing::MachineState;
use crate::values::word_in;
use std::alloc::AllocError;
use std::fmt::Write;
use verifier::Counters;

/// As in `takes 3 from counter 1, which has 2 of at most 9; sets r0 = 0`.
pub(crate) fn write_call(out: &mut String, call: &Executed<'_>) -> Result<(), AllocError> {
    let before = call.before;
    let (first, second) = (word_in(before, 1), word_in(before, 2));
    match call.inst.imm {
        1 => write!(out, "the value of counter {first}")?,
        2 => write_counted(out, "adds", "to", before, first, second)?,
        3 => write_counted(out, "takes", "from", before, first, second)?,
        4 => write!(out, "the state of point {first}")?,
        5 => write_recorded(out, first, second)?,
        6 => write!(out, "the price of product {first}")?,
        id => write!(out, "helper {id}")?,
    }
    match call.after {
        Some(after) => write!(out, "; sets r0 = {}", word_in(after, 0)),
        None => Ok(()),
    }
}

fn write_counted(
    out: &mut String,
    verb: &str,
    way: &str,
    before: &MachineState,
    counter: u64,
    number: u64,
) -> Result<(), AllocError> {
    write!(out, "{verb} {number} {way} counter {counter}")?;
    match counter_in(&before.counters, counter) {
        Some((value, bound)) => write!(out, ", which has {value} of at most {bound}"),
        None => Ok(()),
    }
}

fn counter_in(counters: &Counters, counter: u64) -> Option<(u64, u64)> {
    if counter < 32 {
        let counter = counter as u32;
        Some((counters.get(counter), counters.bound(counter)))
    } else {
        None
    }
}

/// `place` is the address of the 16 bytes in the stack.
fn write_recorded(out: &mut String, point: u64, place: u64) -> Result<(), AllocError> {
    let bytes = 512u64.wrapping_sub(place);
    write!(out, "the record of point {point} to stack[-{bytes}]")
}
