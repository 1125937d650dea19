//! Pictures with bars (sales by point, refusals) or columns (sales by hour, decisions by version). A picture is 1,000
//! units wide, and all lengths are in these units.
ghost use Rattle.std.specs.Prelude.{◌<◌};

use crate::builder::TextBuilder;
use crate::pictures::{COLUMNS_END, END, add_head, add_label, add_rect};
use crate::texts::{Text, number, scaled};
use day_report::{FIRST_REFUSAL, REFUSALS, Sum, Totals, Verdicts};

/// From the top of a bar to the top of the next.
const APART: usize = 28;

/// What stays free to the right of the longest bar, for its value.
const VALUE_WIDTH: usize = 140;

/// `title` and `text` are what screen readers read.
fn add_bars_head(html: &mut TextBuilder, bars: usize, title: &'static str, text: &'static str) {
    add_head(
        html,
        bars.saturating_mul(APART).saturating_add(4),
        title,
        text,
    );
}

/// Adds a bar with its name to the left and its value to the right.
fn add_bar(
    html: &mut TextBuilder,
    place: usize,
    left: usize,
    width: usize,
    name: Text,
    value: Text,
) {
    let over = place.saturating_mul(APART);
    let (top, foot) = (over.saturating_add(4), over.saturating_add(20));
    let behind = left.saturating_add(width).saturating_add(8);
    add_label(html, left.saturating_sub(10), foot, "end", name);
    add_rect(html, "sold", left, top, width, 20);
    html.fill(
        " rx=\"3\"/><text x=\"{}\" y=\"{}\">{}</text>\n",
        &[number(behind), number(foot), value],
    );
}

const POINT_BARS_LEFT: usize = 90;

fn most_sold(sums: &[Sum]) -> u128 {
    let mut most = 0;
    for sum in sums {
        most = most.max(sum.cents);
    }
    most
}

/// Adds the picture of sales by point, point 1 first.
pub fn add_points(html: &mut TextBuilder, sums: &[Sum]) {
    add_bars_head(
        html,
        sums.len(),
        "Sales by point",
        "A bar for each point, as long as the money of its sales. The table below has the figures.",
    );
    let most = most_sold(sums);
    for (place, sum) in sums.iter().enumerate() {
        let width = scaled(sum.cents, most, 1000 - POINT_BARS_LEFT - VALUE_WIDTH);
        let name = Text::Point((place as u64).saturating_add(1));
        add_bar(
            html,
            place,
            POINT_BARS_LEFT,
            width,
            name,
            Text::Hundredths(sum.cents),
        );
    }
    html.add(END);
}

/// The refusals' names are to the left of the bars.
const REFUSAL_BARS_LEFT: usize = 440;

/// The greatest count, and how many aren't 0: each of these gets a bar.
pub(crate) fn greatest_and_bars(counts: &[usize]) -> (usize, usize) {
    let (mut most, mut bars) = (0usize, 0usize);
    for count in counts {
        if *count > 0 {
            most = most.max(*count);
            bars = bars.saturating_add(1);
        }
    }
    (most, bars)
}

/// Adds the picture of refusals, by the counts of S20 to S34.
pub(crate) fn add_refusals(html: &mut TextBuilder, counts: &[usize]) {
    let (most, bars) = greatest_and_bars(counts);
    add_bars_head(
        html,
        bars,
        "Refusals by number",
        "A bar for each number that was answered, as long as it was answered often. Its name in \
            words stands before it.",
    );
    let mut bar = 0usize;
    for place in 0..REFUSALS {
        let count = counts.get(place as usize).copied().unwrap_or(0) as u128;
        if count > 0 {
            let width = scaled(count, most as u128, 1000 - REFUSAL_BARS_LEFT - VALUE_WIDTH);
            let name = Text::Refusal(FIRST_REFUSAL + place);
            add_bar(
                html,
                bar,
                REFUSAL_BARS_LEFT,
                width,
                name,
                Text::Thousands(count),
            );
            bar = bar.saturating_add(1);
        }
    }
    html.add(END);
}

/// Adds the picture of sales by hour of the day, hour 0 first.
pub(crate) fn add_hours(html: &mut TextBuilder, sums: &[Sum]) {
    add_head(
        html,
        236,
        "Sales by hour",
        "A column for each hour of the day in UTC, as high as the money of the sales in it. The \
            table below has the figures.",
    );
    let most = most_sold(sums);
    for (hour, sum) in sums.iter().enumerate() {
        add_hour(html, hour, scaled(sum.cents, most, 190));
    }
    html.add(COLUMNS_END);
}

fn add_hour(html: &mut TextBuilder, hour: usize, height: usize) {
    let left = hour.saturating_mul(41).saturating_add(8);
    add_rect(
        html,
        "sold",
        left,
        206usize.saturating_sub(height),
        34,
        height,
    );
    html.add(" rx=\"2\"/>");
    add_label(html, left.saturating_add(17), 226, "middle", number(hour));
    html.add("\n");
}

/// With n versions, a column of decisions shows n / 1,000 + 1 neighbouring versions; the last can show fewer.
const COLUMNS: usize = 1000;

/// Adds the picture of decisions by version: granted and denied.
pub(crate) fn add_versions(html: &mut TextBuilder, totals: &Totals) {
    let together = (totals.versions.len() / COLUMNS).saturating_add(1);
    let words = if together == 1 {
        "A column for each version, those of earlier days first and then in the order of their \
            loads: below what it granted, above what it denied. The table below has the figures."
    } else {
        "A column for some neighbouring versions, those of earlier days first and then in the \
            order of their loads: below what they granted, above what they denied. The table below \
            has the figures of each."
    };
    add_head(html, 226, "Decisions by version", words);
    add_columns(html, totals, together);
    html.add(COLUMNS_END);
}

fn add_columns(html: &mut TextBuilder, totals: &Totals, together: usize)
    requires { 0 < together }
{
    let columns = totals.versions.len().div_ceil(together);
    let most = most_decided(&totals.verdicts, together);
    for (place, chunk) in totals.verdicts.chunks(together).enumerate() {
        let (granted, denied) = decided(chunk);
        let (low, high) = (scaled(granted, most, 190), scaled(denied, most, 190));
        add_column(html, place, columns, low, high);
        if let Some(version) = totals.versions.get(place.saturating_mul(together)) {
            add_name(html, place, columns, *version);
        }
        html.add("\n");
    }
}

fn most_decided(verdicts: &[Verdicts], together: usize) -> u128
    requires { 0 < together }
{
    let mut most = 0u128;
    for chunk in verdicts.chunks(together) {
        let (granted, denied) = decided(chunk);
        most = most.max(granted.saturating_add(denied));
    }
    most
}

/// How many requests were granted, and how many denied.
fn decided(verdicts: &[Verdicts]) -> (u128, u128) {
    let (mut granted, mut denied) = (0u128, 0u128);
    for version in verdicts {
        for outcome in [version.releases, version.presets, version.prices] {
            granted = granted.saturating_add(outcome.granted as u128);
            denied = denied.saturating_add(outcome.denied as u128);
        }
    }
    (granted, denied)
}

/// The left edge and the width of a column.
fn column_at(place: usize, columns: usize) -> (usize, usize) {
    // Of fewer than 12 columns none is to be too wide.
    let room = 1000usize.min(scaled(columns as u128, 12, 1000));
    let left = scaled(place as u128, columns as u128, room);
    let next = scaled((place as u128).saturating_add(1), columns as u128, room);
    let gap = if columns < 150 { 3 } else { 0 };
    let width = next.saturating_sub(left).saturating_sub(gap).max(1);
    (left, width)
}

/// `low` is the height of the lower part (granted), `high` of the upper one (denied).
fn add_column(html: &mut TextBuilder, place: usize, columns: usize, low: usize, high: usize) {
    let (left, width) = column_at(place, columns);
    let top = 206usize.saturating_sub(low);
    add_rect(html, "granted", left, top, width, low);
    html.add("/>");
    add_rect(html, "denied", left, top.saturating_sub(high), width, high);
    html.add("/>");
}

/// Adds a version's number below its column, unless there are more than 24.
fn add_name(html: &mut TextBuilder, place: usize, columns: usize, version: u32) {
    if columns <= 24 {
        let (left, width) = column_at(place, columns);
        let middle = left.saturating_add(width / 2);
        let name = Text::Number(version as u64);
        add_label(html, middle, 224, "middle", name);
    }
}
