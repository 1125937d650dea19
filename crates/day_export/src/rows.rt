//! Makes the rows of sales, of decisions and of entries.

ghost use Rattle.std.specs.Prelude.{◌≡◌, Some};
ghost use Rattle.day_report.specs.Sales.{off_by};
ghost use Rattle.day_export.specs.Cells.{optional};
ghost use Rattle.day_export.specs.Rows.{answer_cell, decision_cells, decision_row, event_row, product_cell, sale_cells};

use crate::acts::act_cells;
use crate::cells::{Cell, Word, moment_cell, number, optional};
use crate::replies::reply_cells;
use crate::runs::{field_cell, run_cells};
use day_report::rulings::decision_of;
use day_report::{Sale, off_by};
use decision_journal::Entry;

/// Returns a cell with the number `n`, or `Nothing` if the sale's product isn't known.
fn product_cell(sale: &Sale, n: u32) -> Cell
    ensures { result ≡ product_cell sale.now n }
{
    if sale.product == 0 {
        Cell::Nothing
    } else {
        number(n)
    }
}

/// Returns the cell by how many cents a sale is off, or `Nothing` if its product isn't known.
fn off_cell(sale: &Sale) -> Cell
    ensures { result ≡ optional (off_by sale.now) }
{
    match off_by(sale) {
        None => Cell::Nothing,
        Some(cents) => Cell::Number(cents),
    }
}

/// Returns the row of a sale. Without a product the cells `product`, `price` and `off` are `Nothing`.
pub(crate) fn sale_cells(sale: &Sale) -> [Cell; 11]
    ensures { result ≡ sale_cells sale.now }
{
    [
        optional(sale.ended),
        number(sale.number),
        number(sale.point),
        number(sale.transaction),
        product_cell(sale, sale.product),
        product_cell(sale, sale.price),
        number(sale.volume),
        number(sale.amount),
        number(sale.till),
        moment_cell(sale.moment),
        off_cell(sale),
    ]
}

/// Returns the cell for the answer of a rule: `granted` or `denied`.
fn answer_cell(is_granted: bool) -> Cell
    ensures { result ≡ answer_cell is_granted }
{
    if is_granted {
        Cell::Word(Word::Granted)
    } else {
        Cell::Word(Word::Denied)
    }
}

/// Returns the row of an entry's decision: a grant if `is_granted`, else a denial. The last 15 cells are read from the
/// context that the rule ran on.
fn decision_cells(entry: &Entry, is_granted: bool) -> [Cell; 26]
    ensures { result ≡ decision_cells entry.now is_granted }
{
    let act = act_cells(&entry.act);
    let run = run_cells(&entry.run);
    [
        number(entry.number),
        moment_cell(entry.moment),
        act.till,
        act.point,
        act.verb,
        act.amount,
        run.slot,
        run.version,
        run.r0,
        answer_cell(is_granted),
        reply_cells(entry.reply).granted,
        field_cell(&entry.run, 0, 4),
        field_cell(&entry.run, 4, 4),
        field_cell(&entry.run, 8, 4),
        field_cell(&entry.run, 12, 4),
        field_cell(&entry.run, 16, 4),
        field_cell(&entry.run, 20, 4),
        field_cell(&entry.run, 24, 8),
        field_cell(&entry.run, 32, 8),
        field_cell(&entry.run, 40, 4),
        field_cell(&entry.run, 44, 4),
        field_cell(&entry.run, 48, 4),
        field_cell(&entry.run, 52, 4),
        field_cell(&entry.run, 56, 8),
        field_cell(&entry.run, 64, 8),
        field_cell(&entry.run, 72, 4),
    ]
}

/// Returns the row of an entry's decision, or `None` if no rule decided.
#[tactic(auto, unfolding(crate::specs::Rows::decision_row))]
pub(crate) fn decision_row(entry: &Entry) -> Option<[Cell; 26]>
    ensures { result ≡ decision_row entry.now }
{
    let decision = decision_of(entry)?;
    Some(decision_cells(entry, decision.is_granted))
}

/// Returns the row that an entry has among the rows of all entries (`Rows::Events`).
#[tactic(auto, unfolding(crate::specs::Rows::event_row))]
pub(crate) fn event_row(entry: &Entry) -> [Cell; 21]
    ensures { result ≡ event_row entry.now }
{
    let act = act_cells(&entry.act);
    let reply = reply_cells(entry.reply);
    [
        number(entry.number),
        number(entry.pass),
        moment_cell(entry.moment),
        act.sender,
        act.till,
        act.point,
        act.verb,
        act.product,
        act.nozzle,
        act.transaction,
        act.amount,
        act.volume,
        act.slot,
        act.mask,
        act.layout,
        reply.reply,
        reply.granted,
        reply.version,
        reply.order,
        reply.refusal,
        reply.detail,
    ]
}
