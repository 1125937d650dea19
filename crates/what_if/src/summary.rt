//! What rows come to, in words.

ghost use Rattle.std.specs.Prelude.{◌≡◌, ◌≤◌, length, map};
ghost use Rattle.what_if.specs.Sums.{counted, counted_in, counts_from, counts_in, difference_of, is_in};
ghost use Rattle.what_if.specs.Sums.{withheld_by, withheld_from, withheld_in};

use crate::decisions::Kind;
use crate::lines::{change_word, kind_word, word_text};
use crate::rows::{Row, RowChange};
use std::alloc::{AllocError, Global};
use std::fmt::Write;

/// How many of the greatest changes are listed.
const LISTED: usize = 10;

const POINTS: u32 = 32;

const TILLS: u32 = 64;

/// How many rows show each change.
#[derive(Clone, Copy)]
pub struct ChangeCounts {
    pub same: u64,
    pub more: u64,
    pub less: u64,
    pub denied: u64,
    pub allowed: u64,
}

/// A part of the rows.
#[derive(Clone, Copy)]
pub enum RowsPart {
    All,
    Till(u32),
    Point(u32),
    Prices,
    /// An hour of the day in UTC, 0 to 23.
    Hour(u64),
    NoMoment,
}

/// Rows, and of which day they are, if they are of one of many.
#[derive(Clone, Copy)]
pub struct RowsOf<'a> {
    pub day: Option<u32>,
    pub rows: &'a [Row],
}

/// A row with its day, if it is of one of many.
#[derive(Clone, Copy)]
struct Change {
    day: Option<u32>,
    row: Row,
}

const NONE: ChangeCounts = ChangeCounts {
    same: 0,
    more: 0,
    less: 0,
    denied: 0,
    allowed: 0,
};

fn counted(counts: ChangeCounts, change: RowChange) -> ChangeCounts
    ensures { result ≡ counted counts change }
{
    let mut counts = counts;
    match change {
        RowChange::Same => counts.same = counts.same.saturating_add(1),
        RowChange::More => counts.more = counts.more.saturating_add(1),
        RowChange::Less => counts.less = counts.less.saturating_add(1),
        RowChange::Denied => counts.denied = counts.denied.saturating_add(1),
        RowChange::Allowed => counts.allowed = counts.allowed.saturating_add(1),
    }
    counts
}

fn is_in(part: RowsPart, row: &Row) -> bool
    ensures { result ≡ is_in part row.now }
{
    match part {
        RowsPart::All => true,
        RowsPart::Till(till) => row.asking.till == till,
        RowsPart::Point(point) => row.asking.point == point,
        RowsPart::Prices => row.asking.point == 0,
        RowsPart::Hour(hour) => row.moment != 0 && row.moment / 3600 % 24 == hour,
        RowsPart::NoMoment => row.moment == 0,
    }
}

fn counted_in(part: RowsPart, counts: ChangeCounts, row: &Row) -> ChangeCounts
    ensures { result ≡ counted_in part counts row.now }
{
    if is_in(part, row) {
        counted(counts, row.change())
    } else {
        counts
    }
}

fn counts_from(part: RowsPart, counts: ChangeCounts, rows: &[Row]) -> ChangeCounts
    ensures { result ≡ counts_from part counts rows.now }
{
    let mut counts = counts;
    for row in rows {
        counts = counted_in(part, counts, row);
    }
    counts
}

/// Returns how many rows of a part show each change.
pub fn counts_in(part: RowsPart, all: &[RowsOf<'_>]) -> ChangeCounts
    ensures { result ≡ counts_in part (map (λ rows. rows.rows.now) all.now) }
{
    let mut counts = NONE;
    for rows in all {
        counts = counts_from(part, counts, rows.rows);
    }
    counts
}

/// Returns by how many cents less would be released, 0 unless it is a release, and less.
fn withheld_by(row: &Row) -> u64
    ensures { result ≡ withheld_by row.now }
{
    match row.asking.kind {
        Kind::Release => row
            .granted
            .unwrap_or(0)
            .saturating_sub(row.would.unwrap_or(0)),
        Kind::Preset | Kind::Price => 0,
    }
}

fn withheld_from(cents: u64, rows: &[Row]) -> u64
    ensures { result ≡ withheld_from cents rows.now }
{
    let mut cents = cents;
    for row in rows {
        cents = cents.saturating_add(withheld_by(row));
    }
    cents
}

/// Returns how many cents that were released would not have been.
pub fn withheld_in(all: &[RowsOf<'_>]) -> u64
    ensures { result ≡ withheld_in (map (λ rows. rows.rows.now) all.now) }
{
    let mut cents: u64 = 0;
    for rows in all {
        cents = withheld_from(cents, rows.rows);
    }
    cents
}

/// Returns by how many cents the other rule would change a release or a preset; 0 for a price.
fn difference_of(row: &Row) -> u64
    ensures { result ≡ difference_of row.now }
{
    match row.asking.kind {
        Kind::Release | Kind::Preset => row.granted.unwrap_or(0).abs_diff(row.would.unwrap_or(0)),
        Kind::Price => 0,
    }
}

/// Puts a row into its place among the greatest changes, if it has one.
fn place_row(greatest: &mut Vec<Change>, day: Option<u32>, row: &Row) -> Result<(), AllocError> {
    let difference = difference_of(row);
    if difference == 0 {
        return Ok(());
    }
    let at = place_for(greatest.as_slice(), difference);
    if at < LISTED {
        greatest.insert(at, Change { day, row: *row })?;
        greatest.truncate(LISTED);
    }
    Ok(())
}

/// Returns how many changes at the front are at least as great as this difference.
fn place_for(changes: &[Change], difference: u64) -> usize
    ensures { result ≤ length changes.now }
{
    for (place, change) in changes.iter().enumerate() {
        if difference_of(&change.row) < difference {
            return place;
        }
    }
    changes.len()
}

fn place_rows(greatest: &mut Vec<Change>, rows: &RowsOf<'_>) -> Result<(), AllocError> {
    for row in rows.rows {
        place_row(greatest, rows.day, row)?;
    }
    Ok(())
}

/// Returns the greatest changes of an amount, the greatest first, at most ten. Of equal ones the earlier row comes
/// first.
fn greatest_changes(alloc: Global, all: &[RowsOf<'_>]) -> Result<Vec<Change>, AllocError> {
    let mut greatest = Vec::new(alloc);
    for rows in all {
        place_rows(&mut greatest, rows)?;
    }
    Ok(greatest)
}

fn is_none(counts: &ChangeCounts) -> bool {
    counts.same == 0
        && counts.more == 0
        && counts.less == 0
        && counts.denied == 0
        && counts.allowed == 0
}

fn write_counts(out: &mut String, counts: &ChangeCounts) -> Result<(), AllocError> {
    let ChangeCounts {
        same,
        more,
        less,
        denied,
        allowed,
    } = *counts;
    write!(
        out,
        "{same} same, {more} more, {less} less, {denied} denied, {allowed} allowed\n"
    )
}

/// Writes the counts of a part under this name, unless it has no rows.
fn write_part(
    out: &mut String,
    all: &[RowsOf<'_>],
    part: RowsPart,
    name: &str,
    number: Option<u64>,
) -> Result<(), AllocError> {
    let counts = counts_in(part, all);
    if is_none(&counts) {
        return Ok(());
    }
    match number {
        Some(number) => write!(out, "  {name} {number}: ")?,
        None => write!(out, "  {name}: ")?,
    }
    write_counts(out, &counts)
}

/// Writes a line for each day, if the rows are of days.
fn write_days(out: &mut String, all: &[RowsOf<'_>]) -> Result<(), AllocError> {
    for (place, rows) in all.iter().enumerate() {
        if let Some(day) = rows.day {
            if place == 0 {
                write!(out, "by day:\n")?;
            }
            write!(out, "  day {day}: ")?;
            write_counts(out, &counts_from(RowsPart::All, NONE, rows.rows))?;
        }
    }
    Ok(())
}

fn write_tills(out: &mut String, all: &[RowsOf<'_>]) -> Result<(), AllocError> {
    write!(out, "by till:\n")?;
    for till in 1..=TILLS {
        write_part(
            out,
            all,
            RowsPart::Till(till),
            "till",
            Some(u64::from(till)),
        )?;
    }
    Ok(())
}

fn write_points(out: &mut String, all: &[RowsOf<'_>]) -> Result<(), AllocError> {
    write!(out, "by point:\n")?;
    for point in 1..=POINTS {
        write_part(
            out,
            all,
            RowsPart::Point(point),
            "point",
            Some(u64::from(point)),
        )?;
    }
    write_part(out, all, RowsPart::Prices, "prices", None)
}

fn write_hours(out: &mut String, all: &[RowsOf<'_>]) -> Result<(), AllocError> {
    write!(out, "by hour of the day, in UTC:\n")?;
    for hour in 0..24u64 {
        write_part(out, all, RowsPart::Hour(hour), "hour", Some(hour))?;
    }
    write_part(out, all, RowsPart::NoMoment, "without a moment", None)
}

fn write_amount(out: &mut String, amount: Option<u64>) -> Result<(), AllocError> {
    match amount {
        Some(amount) => write!(out, "{amount}"),
        None => write!(out, "nothing"),
    }
}

fn write_change(out: &mut String, change: &Change) -> Result<(), AllocError> {
    let row = change.row;
    let asking = row.asking;
    let kind = word_text(kind_word(asking.kind));
    let (till, point, asked) = (asking.till, asking.point, asking.asked);
    let entry = row.entry;
    match change.day {
        Some(day) => write!(out, "  day {day}, entry {entry}: ")?,
        None => write!(out, "  entry {entry}: ")?,
    }
    write!(
        out,
        "{kind} of {asked} at point {point} by till {till}: granted "
    )?;
    write_amount(out, row.granted)?;
    write!(out, ", would be granted ")?;
    write_amount(out, row.would)?;
    let change = word_text(change_word(row.change()));
    write!(out, " ({change})\n")
}

fn write_greatest(alloc: Global, out: &mut String, all: &[RowsOf<'_>]) -> Result<(), AllocError> {
    let greatest = greatest_changes(alloc, all)?;
    if !greatest.is_empty() {
        write!(out, "greatest changes of an amount, in cents:\n")?;
    }
    for change in greatest.as_slice() {
        write_change(out, change)?;
    }
    Ok(())
}

fn count_of(all: &[RowsOf<'_>]) -> u64 {
    let mut count: u64 = 0;
    for rows in all {
        count = count.saturating_add(rows.rows.len() as u64);
    }
    count
}

/// Returns what the rows of a slot come to: how many show each change, in all, by day, by till, by point and by hour;
/// how many cents would not have been released; and the greatest changes.
pub fn summary(alloc: Global, slot: u32, all: &[RowsOf<'_>]) -> Result<String, AllocError> {
    let mut text = String::new(alloc);
    let count = count_of(all);
    let cents = withheld_in(all);
    write!(text, "decisions of slot {slot}: {count}\n")?;
    write_counts(&mut text, &counts_in(RowsPart::All, all))?;
    write!(text, "cents that would not have been released: {cents}\n")?;
    write_days(&mut text, all)?;
    write_tills(&mut text, all)?;
    write_points(&mut text, all)?;
    write_hours(&mut text, all)?;
    write_greatest(alloc, &mut text, all)?;
    Ok(text)
}
