//! Writes the rows of a day.

ghost use Rattle.std.specs.Prelude.{◌≡◌, ◌≤◌, Err, IfOk, List, OnOk, Some, map};
ghost use Rattle.std.specs.Iterator.{Drains, IsFinite, YieldsThen};
ghost use Rattle.std.specs.List.{concat};
ghost use Rattle.std.specs.Io.KnownBytes.{Appends};
ghost use Rattle.day_report.specs.Sales.{sales_of};
ghost use Rattle.day_export.specs.Rows.{rows_from};
ghost use Rattle.day_export.specs.Text.{AppendsFirst, row_bytes, row_texts, rows_text};

use crate::cells::{Cell, Format, Rows};
use crate::csv_rows::CsvRows;
use crate::fault::{RowFault, RowsFault};
use crate::json_rows::JsonRows;
use crate::row_writer::RowWriter;
use crate::rows::{decision_row, event_row, sale_cells};
use day_report::{Sale, Sales};
use decision_journal::Entry;
use site_core::Watched;
use std::alloc::Global;
use std::io::Write;

/// Writes each row that `cells` gives. A row must have at most 26 cells. `to` must be ready for a row (`is_ready`), and
/// is ready again if there is no error. The error is an error of `write_row`. After an error, some of the rows were
/// perhaps written; if memory ran out, all rows before were.
fn put_each<T: RowWriter, const N: usize, I: Iterator<Item = [Cell; N]> + Drop>(
    to: &mut T,
    rows: Rows,
    cells: I,
) -> Result<(), RowFault>
    requires short { N ≤ 26 }
    requires ready { T.is_ready to.old }
    requires can { I.can_next cells }
    requires ends { IsFinite (I.remaining cells) }
    ensures text { OnOk result ((all : List (List Cell)) × Drains I.next_gives cells all
        × Appends (T.written_bytes to.old) (T.written_bytes to.new) (concat (map (row_bytes rows T.format) all))) }
    ensures after { OnOk result (T.is_ready to.new) }
    ensures memory { result ≡ Err RowFault.OutOfMemory
        → (front : List (List Cell)) × (row : List Cell) × (rest : I) × YieldsThen I.next_gives cells front (Some row) rest
        × Appends (T.written_bytes to.old) (T.written_bytes to.new) (concat (map (row_bytes rows T.format) front)) }
{
    for row in cells {
        to.write_row(rows, &row)?;
    }
    Ok(())
}

/// Writes all rows of the kind `rows` for these sales or these entries. `to` must be ready for a row (`is_ready`), and
/// is ready again if there is no error. The error is an error of `write_row`. After an error, some of the rows were
/// perhaps written; if memory ran out, all rows before were.
fn put_rows<T: RowWriter>(
    to: &mut T,
    rows: Rows,
    sales: &[Sale],
    entries: &[Entry],
) -> Result<(), RowFault>
    requires { T.is_ready to.old }
    ensures text { OnOk result (Appends (T.written_bytes to.old) (T.written_bytes to.new)
        (concat (map (row_bytes rows T.format) (rows_from rows sales.now entries.now)))) }
    ensures after { OnOk result (T.is_ready to.new) }
    ensures memory { result ≡ Err RowFault.OutOfMemory → AppendsFirst (T.written_bytes to.old) (T.written_bytes to.new)
        (map (row_bytes rows T.format) (rows_from rows sales.now entries.now)) }
{
    match rows {
        Rows::Sales => put_each(to, rows, sales.iter().map(sale_cells)),
        Rows::Decisions => put_each(to, rows, entries.iter().filter_map(decision_row)),
        Rows::Events => put_each(to, rows, entries.iter().map(event_row)),
    }
}

/// Writes the rows of a day as CSV, after a record with the names of the columns. Returns the writer `out`. The error
/// is an error of `out`, or that memory ran out, and `out` has the rows before.
fn write_csv<W: Write + Drop>(
    alloc: Global,
    sales: &[Sale],
    entries: &[Entry],
    rows: Rows,
    out: W,
) -> Result<W, RowsFault<W>>
    ensures text { IfOk result (λ after. Appends (W.contents out) (W.contents after)
        (rows_text rows Format.Csv sales.now entries.now)) }
    ensures memory { (after : W) → result ≡ Err (RowsFault.OutOfMemory after)
        → AppendsFirst (W.contents out) (W.contents after) (row_texts rows Format.Csv sales.now entries.now) }
{
    let mut to = CsvRows::start(alloc, rows, out)?;
    match put_rows(&mut to, rows, sales, entries) {
        Ok(()) => Ok(to.finish()?),
        Err(RowFault::OutOfMemory) => Err(RowsFault::OutOfMemory(to.finish()?)),
        Err(RowFault::Io(error)) => Err(RowsFault::Io(error)),
    }
}

/// Writes the rows of a day as lines of JSON, and returns the writer `out`. The error is an error of `out`, or that
/// memory ran out, and `out` has the rows before.
#[tactic(auto, unfolding(crate::specs::Text::header_bytes))]
fn write_json<W: Write + Drop>(
    alloc: Global,
    sales: &[Sale],
    entries: &[Entry],
    rows: Rows,
    out: W,
) -> Result<W, RowsFault<W>>
    ensures text { IfOk result (λ after. Appends (W.contents out) (W.contents after)
        (rows_text rows Format.Json sales.now entries.now)) }
    ensures memory { (after : W) → result ≡ Err (RowsFault.OutOfMemory after)
        → AppendsFirst (W.contents out) (W.contents after) (row_texts rows Format.Json sales.now entries.now) }
{
    let mut to = JsonRows { alloc, out };
    match put_rows(&mut to, rows, sales, entries) {
        Ok(()) => Ok(to.out),
        Err(RowFault::OutOfMemory) => Err(RowsFault::OutOfMemory(to.out)),
        Err(RowFault::Io(error)) => Err(RowsFault::Io(error)),
    }
}

/// Writes the rows of an audited day to `out`, and returns `out`. In CSV the names of the columns come first. The error
/// is an error of `out`, and some of the rows were perhaps written, or that memory ran out, and all rows before were.
pub fn write_rows<W: Write + Drop>(
    alloc: Global,
    day: &Watched<Sales>,
    rows: Rows,
    format: Format,
    out: W,
) -> Result<W, RowsFault<W>>
    // proved: Where it is Ok, it wrote the text of the rows
    // proved: What was asked and what was granted have a cell each
    // proved: Each field of the context has its cell
    // proved: How far a sale is off has its cell
    ensures text { IfOk result (λ after. Appends (W.contents out) (W.contents after)
        (rows_text rows format (sales_of day.now.site.config day.now.site.history) day.now.site.history)) }
    // proved: Where memory ran out, it wrote whole rows | full_disk_is_out_of_memory
    ensures memory { (after : W) → result ≡ Err (RowsFault.OutOfMemory after)
        → AppendsFirst (W.contents out) (W.contents after)
        (row_texts rows format (sales_of day.now.site.config day.now.site.history) day.now.site.history) }
{
    let (sales, entries) = (&day.seen().sales, day.site().history());
    match format {
        Format::Csv => write_csv(alloc, sales, entries, rows, out),
        Format::Json => write_json(alloc, sales, entries, rows, out),
    }
}
