//! Makes the cells of a row that describe the run of a rule, and those that show the context that the rule ran on.

ghost use Rattle.std.specs.Prelude.{◌≡◌, ◌≤◌, ◌+◌};
ghost use Rattle.day_export.specs.Acts.{field_cell, number_at, run_cells};

use crate::cells::{Cell, number};
use byteorder::{ByteOrder, LittleEndian};
use decision_journal::Run;

/// The cells of a run of a rule: its slot, its version and its answer, `r0`.
#[derive(Clone, Copy)]
pub(crate) struct RunCells {
    pub(crate) slot: Cell,
    pub(crate) version: Cell,
    pub(crate) r0: Cell,
}

/// Returns the cells of a run of a rule. They are `Nothing` if no rule ran.
pub(crate) fn run_cells(run: &Option<Run>) -> RunCells
    ensures { result ≡ run_cells run.now }
{
    match run {
        None => RunCells {
            slot: Cell::Nothing,
            version: Cell::Nothing,
            r0: Cell::Nothing,
        },
        Some(run) => RunCells {
            slot: number(run.slot),
            version: number(run.version),
            r0: Cell::Number(run.r0),
        },
    }
}

/// Reads a number of `size` bytes at `offset`, the least significant byte first, and returns it as a cell. Returns
/// `Nothing` if there are too few bytes. `size` must be 1 to 8, and `offset` at most 80.
fn number_at(bytes: &[u8], offset: usize, size: usize) -> Cell
    requires some { 1 ≤ size }
    requires within_limit { size ≤ 8 }
    requires near { offset ≤ 80 }
    ensures { result ≡ number_at bytes.now offset size }
{
    if offset + size <= bytes.len() {
        Cell::Number(LittleEndian::read_uint(&bytes[offset..], size))
    } else {
        Cell::Nothing
    }
}

/// Reads the field of `size` bytes at `offset` in the context that a rule ran on, and returns it as a cell. Returns
/// `Nothing` if no rule ran, or if the context ends before the field does. `size` must be 1 to 8, and `offset` at most
/// 80.
pub(crate) fn field_cell(run: &Option<Run>, offset: usize, size: usize) -> Cell
    requires some { 1 ≤ size }
    requires within_limit { size ≤ 8 }
    requires near { offset ≤ 80 }
    ensures { result ≡ field_cell run.now offset size }
{
    match run {
        None => Cell::Nothing,
        Some(run) => number_at(run.context.bytes(), offset, size),
    }
}
