//! Writes rows as CSV.

ghost use Rattle.std.specs.Prelude.{◌≡◌, ◌≢◌, ◌++◌, ◌∷◌, [], Err, OnOk, IfOk, map};
ghost use Rattle.std.specs.Io.KnownBytes.{Appends, Keeps};
ghost use Rattle.csv.specs.Reading.{error_kind};
ghost use Rattle.csv.specs.Records.{fields_of, partial_of};
ghost use Rattle.csv.specs.Writing.{row_text, text_written};
ghost use Rattle.csv.specs.declared.error.ErrorKind.TheVariants as csv_error;
ghost use Rattle.day_export.specs.Cells.{cell_text, columns};
ghost use Rattle.day_export.specs.Text.{IsBetweenRecords, csv_writer, header_bytes};
ghost use Rattle.day_export.specs.declared.cells.Format.TheVariants as format;

use crate::cells::{Cell, Rows, columns, word_text};
use crate::fault::{RowFault, RowsFault};
use crate::row_writer::RowWriter;
use csv::{ByteRecord, Terminator, Writer, WriterBuilder};
use itoa::Buffer;
use std::alloc::{AllocError, Global};
use std::io::{self, Write};

/// A writer of rows as CSV.
#[derive(Drop)]
pub(crate) struct CsvRows<W: Write + Drop> {
    writer: Writer<W>,
    /// The record that is filled anew for each row, so that all rows use the same memory.
    row: ByteRecord,
}

/// Appends a field to the record `row`: the text of the cell, or an empty field for `Nothing`. The record must have no
/// unfinished field.
#[tactic(auto, unfolding(crate::specs::Cells::cell_text))]
fn push_cell(row: &mut ByteRecord, cell: Cell) -> Result<(), AllocError>
    requires { partial_of row.old ≡ [] }
    ensures fields { OnOk result (fields_of row.new ≡ fields_of row.old ++ cell_text cell ∷ []) }
    ensures partial { OnOk result (partial_of row.new ≡ []) }
{
    match cell {
        Cell::Number(n) => {
            let mut buffer = Buffer::new();
            row.push_field(buffer.format(n).as_bytes())
        }
        Cell::Word(word) => row.push_field(word_text(word).as_bytes()),
        Cell::Nothing => row.push_field(b""),
    }
}

/// Replaces the fields of a record with the texts of these cells.
fn fill_record(row: &mut ByteRecord, cells: &[Cell]) -> Result<(), AllocError>
    ensures { OnOk result (fields_of row.new ≡ map cell_text cells.now) }
{
    row.clear();
    for cell in cells {
        push_cell(row, *cell)?;
    }
    Ok(())
}

/// Replaces the fields of a record with the column names for this kind of rows.
fn fill_header(row: &mut ByteRecord, rows: Rows) -> Result<(), AllocError>
    ensures { OnOk result (fields_of row.new ≡ columns rows) }
{
    row.clear();
    for name in columns(rows) {
        row.push_field(name.as_bytes())?;
    }
    Ok(())
}

/// Returns the error of the device under the CSV writer. The CSV writer has no other: it takes no memory, and all records
/// have the same number of fields.
fn device_error(error: csv::Error) -> io::Error
    ensures { (cause : _) → error_kind error ≡ csv_error.Io cause → result ≡ cause }
{
    match error.into_kind() {
        csv::ErrorKind::Io(error) => error,
        _ => io::Error::from(io::ErrorKind::Other),
    }
}

/// Writes the record `row` to `writer`. The writer must have the settings that `CsvRows::start` gives it, and be
/// between two records. The error is an error of the underlying writer.
fn write_record<W: Write + Drop>(writer: &mut Writer<W>, row: &ByteRecord) -> io::Result<()>
    requires { IsBetweenRecords writer.old }
    ensures text { OnOk result (Appends (text_written W.contents writer.old) (text_written W.contents writer.new)
        (row_text csv_writer (fields_of row.now))) }
    ensures between { OnOk result (IsBetweenRecords writer.new) }
{
    match writer.write_byte_record(row) {
        Ok(()) => Ok(()),
        Err(error) => Err(device_error(error)),
    }
}

impl<W: Write + Drop> CsvRows<W> {
    /// Makes a writer of rows on top of `out`, and writes the names of the columns as the first record. Bytes can stay
    /// in the new writer's buffer until `finish`. The error is an error of `out`, or that memory ran out, and nothing
    /// was written.
    pub(crate) fn start(alloc: Global, rows: Rows, out: W) -> Result<CsvRows<W>, RowsFault<W>>
        ensures text { IfOk result (λ it. Appends (W.contents out) (text_written W.contents it.writer) (header_bytes
            rows format.Csv)) }
        ensures ready { IfOk result (λ it. IsBetweenRecords it.writer) }
        ensures memory { (after : W) → result ≡ Err (RowsFault.OutOfMemory after) → after ≡ out }
    {
        let mut row = ByteRecord::new(alloc);
        let Ok(()) = fill_header(&mut row, rows) else {
            return Err(RowsFault::OutOfMemory(out));
        };
        let mut writer = WriterBuilder::new()
            .terminator(Terminator::CRLF)
            .from_writer(out);
        write_record(&mut writer, &row)?;
        Ok(CsvRows { writer, row })
    }

    /// Writes the bytes that are still buffered, and returns the underlying writer. The error is an error of the
    /// underlying writer.
    pub(crate) fn finish(self) -> io::Result<W>
        ensures { IfOk result (λ out. Keeps (text_written W.contents self.writer) (W.contents out)) }
    {
        match self.writer.into_inner() {
            Ok(out) => Ok(out),
            Err(failed) => Err(*failed.error()),
        }
    }
}

impl<W: Write + Drop> RowWriter for CsvRows<W> {
    ghost use Rattle.day_export.specs.declared.cells.Format.TheVariants as format;

    ghost format = { format.Csv };

    ghost written_bytes = { λ it. text_written W.contents it.writer };

    ghost is_ready = { λ it. IsBetweenRecords it.writer };

    fn write_row(&mut self, _rows: Rows, cells: &[Cell]) -> Result<(), RowFault> {
        fill_record(&mut self.row, cells)?;
        Ok(write_record(&mut self.writer, &self.row)?)
    }
}
