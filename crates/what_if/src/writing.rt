//! Writes rows.

ghost use Rattle.std.specs.Prelude.{◌≡◌, OnOk, map};
ghost use Rattle.std.specs.List.{concat};
ghost use Rattle.std.specs.Io.KnownBytes.{Appends};
ghost use Rattle.what_if.specs.Text.{day_line_text, day_text, days_header_text, days_text, header_text, line_text, rows_text};

use crate::lines::{Format, line_of, line_of_day};
use crate::rows::{DayRows, Row};
use std::alloc::{AllocError, Global};
use std::io::{self, Write};

/// Why rows couldn't be written. Some of them were perhaps.
#[derive(Drop)]
pub enum RowsFault {
    OutOfMemory,
    /// The writer failed with this error.
    Io(io::Error),
}

impl From<AllocError> for RowsFault {
    ghost use Rattle.std.specs.Prelude.{◌≡◌};
    ghost use Rattle.what_if.specs.declared.writing.RowsFault.TheVariants as fault;

    ghost from_gives = { λ _ f. f ≡ fault.OutOfMemory };

    fn from(_refused: AllocError) -> Self {
        RowsFault::OutOfMemory
    }
}

impl From<io::Error> for RowsFault {
    ghost use Rattle.std.specs.Prelude.{◌≡◌};
    ghost use Rattle.what_if.specs.declared.writing.RowsFault.TheVariants as fault;

    ghost from_gives = { λ error f. f ≡ fault.Io error };

    fn from(error: io::Error) -> Self {
        RowsFault::Io(error)
    }
}

fn header_of(format: Format) -> &'static str
    ensures { result.now ≡ header_text format }
{
    match format {
        Format::Csv => "entry,moment,till,point,kind,asked,version,granted,would,change\r\n",
        Format::Json => "",
    }
}

fn write_line<W: Write>(
    alloc: Global,
    row: &Row,
    format: Format,
    out: &mut W,
) -> Result<(), RowsFault>
    ensures { OnOk result (Appends (W.contents out.old) (W.contents out.new) (line_text format row.now)) }
{
    let line = line_of(alloc, format, row)?;
    out.write_all(line.as_bytes())?;
    Ok(())
}

fn write_lines<W: Write>(
    alloc: Global,
    rows: &[Row],
    format: Format,
    out: &mut W,
) -> Result<(), RowsFault>
    ensures { OnOk result (Appends (W.contents out.old) (W.contents out.new) (concat (map (line_text format) rows.now))) }
{
    for row in rows {
        write_line(alloc, row, format, out)?;
    }
    Ok(())
}

/// Writes all rows. In CSV the names of the columns come first.
pub fn write_rows<W: Write>(
    alloc: Global,
    rows: &[Row],
    format: Format,
    out: &mut W,
) -> Result<(), RowsFault>
    ensures { OnOk result (Appends (W.contents out.old) (W.contents out.new) (rows_text format rows.now)) }
{
    out.write_all(header_of(format).as_bytes())?;
    write_lines(alloc, rows, format, out)
}

fn days_header_of(format: Format) -> &'static str
    ensures { result.now ≡ days_header_text format }
{
    match format {
        Format::Csv => "day,entry,moment,till,point,kind,asked,version,granted,would,change\r\n",
        Format::Json => "",
    }
}

fn write_line_of_day<W: Write>(
    alloc: Global,
    day: u32,
    row: &Row,
    format: Format,
    out: &mut W,
) -> Result<(), RowsFault>
    ensures { OnOk result (Appends (W.contents out.old) (W.contents out.new) (day_line_text format day row.now)) }
{
    let line = line_of_day(alloc, format, day, row)?;
    out.write_all(line.as_bytes())?;
    Ok(())
}

fn write_lines_of_day<W: Write>(
    alloc: Global,
    day: u32,
    rows: &[Row],
    format: Format,
    out: &mut W,
) -> Result<(), RowsFault>
    ensures { OnOk result (Appends (W.contents out.old) (W.contents out.new)
        (concat (map (day_line_text format day) rows.now))) }
{
    for row in rows {
        write_line_of_day(alloc, day, row, format, out)?;
    }
    Ok(())
}

fn write_day<W: Write>(
    alloc: Global,
    day: &DayRows,
    format: Format,
    out: &mut W,
) -> Result<(), RowsFault>
    ensures { OnOk result (Appends (W.contents out.old) (W.contents out.new) (day_text format day.now)) }
{
    write_lines_of_day(alloc, day.day, &day.rows, format, out)
}

fn write_each_day<W: Write>(
    alloc: Global,
    days: &[DayRows],
    format: Format,
    out: &mut W,
) -> Result<(), RowsFault>
    ensures { OnOk result (Appends (W.contents out.old) (W.contents out.new) (concat (map (day_text format) days.now))) }
{
    for day in days {
        write_day(alloc, day, format, out)?;
    }
    Ok(())
}

/// Writes all rows of these days, each behind the number of its day. In CSV the names of the columns come first.
pub fn write_days<W: Write>(
    alloc: Global,
    days: &[DayRows],
    format: Format,
    out: &mut W,
) -> Result<(), RowsFault>
    // proved: The rows of many days have the numbers of their days
    ensures { OnOk result (Appends (W.contents out.old) (W.contents out.new) (days_text format days.now)) }
{
    out.write_all(days_header_of(format).as_bytes())?;
    write_each_day(alloc, days, format, out)
}
