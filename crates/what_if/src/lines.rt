//! The line of a row, as CSV or as JSON.

ghost use Rattle.std.specs.Prelude.{◌≡◌, ◌++◌, IfOk, OnOk, map, string_bytes};
ghost use Rattle.what_if.specs.Text.{before, before_of_day, cell_text, cells_of, cells_of_day, cells_text, change_word};
ghost use Rattle.what_if.specs.Text.{day_line_text, end_of, kind_word, line_text, moment_cell, nothing_text, optional, point_cell, row_cells, word_text};

use crate::decisions::{Asking, Kind};
use crate::rows::{Row, RowChange};
use itoa::Buffer;
use std::alloc::{AllocError, Global};

/// The format in which rows are written.
#[derive(Clone, Copy)]
pub enum Format {
    /// CSV by RFC 4180, with the names of the columns as its first record.
    Csv,
    /// Lines of JSON: each row is a JSON object on a line of its own.
    Json,
}

/// A word that a row can have.
#[derive(Clone, Copy)]
pub(crate) enum Word {
    Release,
    Preset,
    Price,
    Same,
    More,
    Less,
    Denied,
    Allowed,
}

/// The value that a row has in a column.
#[derive(Clone, Copy)]
pub(crate) enum Cell {
    Number(u64),
    Word(Word),
    Nothing,
}

/// The cells of a row by their columns.
#[derive(Clone, Copy)]
struct RowCells {
    entry: Cell,
    moment: Cell,
    till: Cell,
    point: Cell,
    kind: Cell,
    asked: Cell,
    version: Cell,
    granted: Cell,
    would: Cell,
    change: Cell,
}

/// What stands before each cell of a record.
const CSV: [&str; 10] = ["", ",", ",", ",", ",", ",", ",", ",", ",", ","];

/// What stands before each cell of an object: the keys, and the quotes of the two words.
const JSON: [&str; 10] = [
    "{\"asked\":",
    ",\"change\":\"",
    "\",\"entry\":",
    ",\"granted\":",
    ",\"kind\":\"",
    "\",\"moment\":",
    ",\"point\":",
    ",\"till\":",
    ",\"version\":",
    ",\"would\":",
];

/// The same for the rows of many days, of which each has a cell for the day.
const DAYS_CSV: [&str; 11] = ["", ",", ",", ",", ",", ",", ",", ",", ",", ",", ","];

const DAYS_JSON: [&str; 11] = [
    "{\"asked\":",
    ",\"change\":\"",
    "\",\"day\":",
    ",\"entry\":",
    ",\"granted\":",
    ",\"kind\":\"",
    "\",\"moment\":",
    ",\"point\":",
    ",\"till\":",
    ",\"version\":",
    ",\"would\":",
];

fn before(format: Format) -> &'static [&'static str]
    ensures { map (λ text. text.now) result.now ≡ before format }
{
    match format {
        Format::Csv => &CSV,
        Format::Json => &JSON,
    }
}

fn before_of_day(format: Format) -> &'static [&'static str]
    ensures { map (λ text. text.now) result.now ≡ before_of_day format }
{
    match format {
        Format::Csv => &DAYS_CSV,
        Format::Json => &DAYS_JSON,
    }
}

fn end_of(format: Format) -> &'static str
    ensures { result.now ≡ end_of format }
{
    match format {
        Format::Csv => "\r\n",
        Format::Json => "}\n",
    }
}

fn nothing_text(format: Format) -> &'static str
    ensures { result.now ≡ nothing_text format }
{
    match format {
        Format::Csv => "",
        Format::Json => "null",
    }
}

pub(crate) fn word_text(word: Word) -> &'static str
    ensures { result.now ≡ word_text word }
{
    match word {
        Word::Release => "release",
        Word::Preset => "preset",
        Word::Price => "price",
        Word::Same => "same",
        Word::More => "more",
        Word::Less => "less",
        Word::Denied => "denied",
        Word::Allowed => "allowed",
    }
}

pub(crate) fn kind_word(kind: Kind) -> Word
    ensures { result ≡ kind_word kind }
{
    match kind {
        Kind::Release => Word::Release,
        Kind::Preset => Word::Preset,
        Kind::Price => Word::Price,
    }
}

pub(crate) fn change_word(change: RowChange) -> Word
    ensures { result ≡ change_word change }
{
    match change {
        RowChange::Same => Word::Same,
        RowChange::More => Word::More,
        RowChange::Less => Word::Less,
        RowChange::Denied => Word::Denied,
        RowChange::Allowed => Word::Allowed,
    }
}

fn number(n: u32) -> Cell
    ensures { result ≡ Cell.Number n }
{
    Cell::Number(u64::from(n))
}

fn optional(n: Option<u64>) -> Cell
    ensures { result ≡ optional n }
{
    match n {
        None => Cell::Nothing,
        Some(n) => Cell::Number(n),
    }
}

fn moment_cell(moment: u64) -> Cell
    ensures { result ≡ moment_cell moment }
{
    if moment == 0 {
        Cell::Nothing
    } else {
        Cell::Number(moment)
    }
}

/// A price is of no point.
fn point_cell(asking: Asking) -> Cell
    ensures { result ≡ point_cell asking }
{
    match asking.kind {
        Kind::Price => Cell::Nothing,
        Kind::Release | Kind::Preset => number(asking.point),
    }
}

fn row_cells(row: &Row) -> RowCells
    ensures { result ≡ row_cells row.now }
{
    let asking = row.asking;
    RowCells {
        entry: number(row.entry),
        moment: moment_cell(row.moment),
        till: number(asking.till),
        point: point_cell(asking),
        kind: Cell::Word(kind_word(asking.kind)),
        asked: Cell::Number(asking.asked),
        version: number(row.version),
        granted: optional(row.granted),
        would: optional(row.would),
        change: Cell::Word(change_word(row.change())),
    }
}

/// Returns the cells of a row in the order of the format: that of the columns, or that of the keys.
fn cells_of(format: Format, row: &Row) -> [Cell; 10]
    ensures { result ≡ cells_of format row.now }
{
    let c = row_cells(row);
    match format {
        Format::Csv => [
            c.entry, c.moment, c.till, c.point, c.kind, c.asked, c.version, c.granted, c.would,
            c.change,
        ],
        Format::Json => [
            c.asked, c.change, c.entry, c.granted, c.kind, c.moment, c.point, c.till, c.version,
            c.would,
        ],
    }
}

/// The same with a cell for the day.
fn cells_of_day(format: Format, day: u32, row: &Row) -> [Cell; 11]
    ensures { result ≡ cells_of_day format day row.now }
{
    let c = row_cells(row);
    let day = number(day);
    match format {
        Format::Csv => [
            day, c.entry, c.moment, c.till, c.point, c.kind, c.asked, c.version, c.granted,
            c.would, c.change,
        ],
        Format::Json => [
            c.asked, c.change, day, c.entry, c.granted, c.kind, c.moment, c.point, c.till,
            c.version, c.would,
        ],
    }
}

fn push_cell(line: &mut String, format: Format, cell: Cell) -> Result<(), AllocError>
    ensures { OnOk result (string_bytes line.new ≡ string_bytes line.old ++ cell_text format cell) }
{
    match cell {
        Cell::Number(n) => {
            let mut buffer = Buffer::new();
            line.push_str(buffer.format(n))
        }
        Cell::Word(word) => line.push_str(word_text(word)),
        Cell::Nothing => line.push_str(nothing_text(format)),
    }
}

/// Adds each cell behind the text that stands before it.
fn push_cells(
    line: &mut String,
    format: Format,
    texts: &[&str],
    cells: &[Cell],
) -> Result<(), AllocError>
    ensures { OnOk result (string_bytes line.new
        ≡ string_bytes line.old ++ cells_text format (map (λ text. text.now) texts.now) cells.now) }
{
    let Some((text, texts)) = texts.split_first() else {
        return Ok(());
    };
    let Some((cell, cells)) = cells.split_first() else {
        return Ok(());
    };
    line.push_str(text)?;
    push_cell(line, format, *cell)?;
    push_cells(line, format, texts, cells)
}

/// Returns the line of a row.
#[tactic(auto, unfolding(crate::specs::Text::line_text))]
pub(crate) fn line_of(alloc: Global, format: Format, row: &Row) -> Result<String, AllocError>
    ensures { IfOk result (λ line. string_bytes line ≡ line_text format row.now) }
{
    let mut line = String::new(alloc);
    push_cells(&mut line, format, before(format), &cells_of(format, row))?;
    line.push_str(end_of(format))?;
    Ok(line)
}

/// Returns the line of a row of this day.
#[tactic(auto, unfolding(crate::specs::Text::day_line_text))]
pub(crate) fn line_of_day(
    alloc: Global,
    format: Format,
    day: u32,
    row: &Row,
) -> Result<String, AllocError>
    ensures { IfOk result (λ line. string_bytes line ≡ day_line_text format day row.now) }
{
    let mut line = String::new(alloc);
    push_cells(
        &mut line,
        format,
        before_of_day(format),
        &cells_of_day(format, day, row),
    )?;
    line.push_str(end_of(format))?;
    Ok(line)
}
