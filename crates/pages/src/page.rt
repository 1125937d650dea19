//! The page of HTML that shows a site's history, and the sections of this page.

use crate::builder::TextBuilder;
use crate::parts::{digits, thousands};
use crate::style::{HEAD, STYLE};
use crate::texts::Text;
use crate::{bars, drawn, prices, tables};
use day_report::adding::{add_up, carried_in};
use day_report::opening::opening_prices;
use day_report::steps::{axis_of, states_by_step};
use day_report::{Axis, Bands, CarriedIn, DayWatch, OffSales, PriceChange, Sum, Totals, Unpaid};
use site_core::{Head, Replayed};
use std::alloc::{AllocError, Global};
use std::fmt;

/// A page of HTML that shows a site's history. It refers to no other file and has no script.
#[derive(Drop)]
pub struct Page {
    text: String,
}

impl Page {
    pub fn of(alloc: Global, replayed: &Replayed<DayWatch>) -> Result<Page, AllocError> {
        let day = Day::of(alloc, replayed)?;
        page_of(alloc, &day)
    }
}

impl fmt::Display for Page {
    fn fmt<W: fmt::Write>(&self, f: &mut fmt::Formatter<W>) -> fmt::Result {
        f.write_str(&self.text)
    }
}

#[derive(Drop)]
struct Day {
    totals: Totals,
    /// What the day took over from the day before.
    carried: Option<CarriedIn>,
    /// The value and the bound of each counter after the last entry.
    counters: [(u64, u64); 32],
    /// The prices of products 1 to 8 before the first entry, in thousandths of the currency per litre, 0 for none.
    opening: [u32; 8],
    axis: Axis,
    bands: Bands,
}

fn counters_of(head: &Head) -> [(u64, u64); 32] {
    let mut counters = [(0, 0); 32];
    for c in 0..32 {
        if let Some(pair) = head.counter(c) {
            counters[c as usize] = pair;
        }
    }
    counters
}

impl Day {
    fn of(alloc: Global, replayed: &Replayed<DayWatch>) -> Result<Day, AllocError> {
        let head = replayed.head();
        let config = head.config();
        let marks = &replayed.seen().second.second.marks;
        let axis = axis_of(marks);
        let bands = states_by_step(alloc, config, marks, axis)?;
        Ok(Day {
            totals: add_up(alloc, replayed)?,
            carried: carried_in(alloc, config)?,
            counters: counters_of(head),
            opening: opening_prices(config),
            axis,
            bands,
        })
    }
}

fn page_of(alloc: Global, day: &Day) -> Result<Page, AllocError> {
    let mut html = TextBuilder::new(alloc);
    add_day(&mut html, day);
    Ok(Page {
        text: html.finish()?,
    })
}

fn add_day(html: &mut TextBuilder, day: &Day) {
    html.add(HEAD);
    html.add("<title>The day in a picture</title>\n");
    html.add(STYLE);
    add_headline(html, &day.totals, day.axis);
    if let Some(carried) = day.carried {
        add_carried(html, carried);
    }
    add_sales(html, &day.totals);
    add_rules(html, &day.totals, &day.counters);
    add_points(html, &day.bands, day.axis);
    add_refusals(html, &day.totals.refused);
    add_prices(html, &day.opening, &day.totals.prices, day.axis);
    html.add("</main></body></html>\n");
}

const SECTION_END: &str = "</section>\n";

/// If `axis` is time, its ends are shown too.
fn add_headline(html: &mut TextBuilder, totals: &Totals, axis: Axis) {
    html.fill(
        "<p class=\"audited\">{} entries, audited</p>\n<h1>The day in a picture</h1>\n",
        &[Text::Thousands(totals.entries as u128)],
    );
    if let Axis::Time(first, last) = axis {
        html.fill(
            "<p>From {} to {}, UTC.</p>\n",
            &[Text::Moment(first), Text::Moment(last)],
        );
    }
    add_figures(html, totals);
}

fn add_figures(html: &mut TextBuilder, totals: &Totals) {
    html.add("<ul class=\"figures\">\n");
    add_figure(html, "Sold", Text::Hundredths(totals.sums.all.cents));
    add_figure(
        html,
        "Sales",
        Text::Thousands(totals.sums.all.count as u128),
    );
    add_figure(
        html,
        "Litres sold",
        Text::Hundredths(totals.sums.all.centilitres),
    );
    add_figure(
        html,
        "Unpaid at the end",
        Text::Hundredths(totals.unpaid_cents),
    );
    add_figure(
        html,
        "Granted by rules",
        Text::Thousands(totals.granted as u128),
    );
    add_figure(
        html,
        "Denied by rules",
        Text::Thousands(totals.denied as u128),
    );
    html.add("</ul>\n");
}

pub fn add_figure(html: &mut TextBuilder, name: &'static str, value: Text) {
    html.fill(
        "<li><span>{}</span> <b>{}</b></li>\n",
        &[Text::Words(name), value],
    );
}

fn add_carried(html: &mut TextBuilder, carried: CarriedIn) {
    html.add(
        "<section id=\"carried\"><h2>Carried in from the day before</h2>\n<ul class=\"figures\">\n",
    );
    add_figure(
        html,
        "Unpaid transactions",
        Text::Thousands(carried.unpaid as u128),
    );
    add_figure(
        html,
        "Unpaid at the start",
        Text::Hundredths(carried.unpaid_cents),
    );
    add_figure(
        html,
        "Rules in force",
        Text::Thousands(carried.rules as u128),
    );
    add_figure(
        html,
        "Cleared before",
        Text::Hundredths(carried.cleared as u128),
    );
    html.add("</ul>\n");
    html.add(SECTION_END);
}

fn add_sales(html: &mut TextBuilder, totals: &Totals) {
    html.add("<section id=\"sales\"><h2>Sales</h2>\n");
    add_off(html, &totals.sums.off);
    bars::add_points(html, totals.by_point());
    add_sums(html, totals);
    add_hours(html, &totals.sums.hours);
    add_unpaid(html, &totals.unpaid);
    html.add(SECTION_END);
}

/// Adds how many sales are off by more than a cent, and which entries cleared the first of them; nothing if none is.
pub fn add_off(html: &mut TextBuilder, off: &OffSales) {
    if off.count == 0 {
        return;
    }
    html.fill(
        "<p><strong>Sales off by more than a cent: {} ({}",
        &[
            thousands(off.count),
            Text::Words(if off.count == 1 { "entry" } else { "entries" }),
        ],
    );
    let first = off.first();
    for (place, entry) in first.iter().enumerate() {
        html.add(if place == 0 { " " } else { ", " });
        html.put(digits(*entry));
    }
    if off.count > first.len() as u64 {
        html.add(", ..");
    }
    html.add(")</strong></p>\n");
}

fn add_sums(html: &mut TextBuilder, totals: &Totals) {
    html.add("<div class=\"side\"><div><h3>By point</h3>");
    tables::add_points(html, totals);
    if totals.sums.all.count > 0 {
        html.add("</div><div><h3>By the till that cleared</h3>");
        tables::add_parts(html, tables::BY_TILL, &totals.sums.tills, 1);
    }
    html.add("</div></div>\n");
}

fn has_sale(sums: &[Sum]) -> bool {
    for sum in sums {
        if sum.count > 0 {
            return true;
        }
    }
    false
}

/// Adds the sales by hour, hour 0 first, or a note if no sale has a moment.
pub fn add_hours(html: &mut TextBuilder, sums: &[Sum]) {
    if !has_sale(sums) {
        return html.add("<p class=\"note\">No sale tells its moment, so there are no hours.</p>\n");
    }
    html.add("<h3>By hour of the day, in UTC</h3>");
    bars::add_hours(html, sums);
    tables::add_parts(html, tables::BY_HOUR, sums, 0);
    html.add("\n");
}

fn add_unpaid(html: &mut TextBuilder, unpaid: &[Unpaid]) {
    if !unpaid.is_empty() {
        html.add("<h3>Unpaid at the end</h3>");
        tables::add_unpaid(html, unpaid);
        html.add("\n");
    }
}

fn has_bound(counters: &[(u64, u64)]) -> bool {
    for counter in counters {
        if counter.1 > 0 {
            return true;
        }
    }
    false
}

fn add_rules(html: &mut TextBuilder, totals: &Totals, counters: &[(u64, u64)]) {
    html.add("<section id=\"rules\"><h2>Rules</h2>\n");
    if totals.versions.is_empty() {
        html.add("<p class=\"note\">No rule was loaded.</p>\n");
    } else {
        add_versions(html, totals);
    }
    if has_bound(counters) {
        html.add("<h3>Counters</h3>");
        tables::add_counters(html, counters);
    }
    html.add(SECTION_END);
}

const VERSIONS_LEGEND: &str = "<ul class=\"legend\"><li><i class=\"granted\">&#160;</i>granted</li>\
<li><i class=\"denied\">&#160;</i>denied</li></ul>
";

fn add_versions(html: &mut TextBuilder, totals: &Totals) {
    html.add(VERSIONS_LEGEND);
    bars::add_versions(html, totals);
    tables::add_versions(html, totals);
    if totals.granted > 0 || totals.denied > 0 {
        html.add("<h3>By till</h3>");
        tables::add_versions_by_till(html, totals);
    }
}

fn add_points(html: &mut TextBuilder, bands: &Bands, axis: Axis) {
    html.add("<section id=\"points\"><h2>Points</h2>\n");
    drawn::add_legend(html);
    drawn::add_bands(html, bands, axis);
    html.add(match axis {
        Axis::Entries(_) => "\n<p class=\"note\">Drawn along the entries.</p>\n",
        Axis::Time(_, _) => "\n<p class=\"note\">Drawn along time in UTC, as tills told it.</p>\n",
    });
    html.add(SECTION_END);
}

fn add_refusals(html: &mut TextBuilder, counts: &[usize]) {
    html.add("<section id=\"refusals\"><h2>Refusals</h2>\n");
    if bars::greatest_and_bars(counts).1 > 0 {
        bars::add_refusals(html, counts);
        html.add("\n");
    } else {
        html.add("<p class=\"note\">Nothing was refused.</p>\n");
    }
    html.add(SECTION_END);
}

fn add_prices(html: &mut TextBuilder, opening: &[u32; 8], changes: &[PriceChange], axis: Axis) {
    html.add("<section id=\"price-part\"><h2>Prices</h2>\n");
    prices::add_legend(html, opening, changes);
    html.add("\n");
    if changes.is_empty() {
        html.add("<p class=\"note\">No price was changed.</p>\n");
    } else {
        prices::add_lines(html, opening, changes, axis);
        tables::add_prices(html, changes);
        html.add("\n");
    }
    html.add(SECTION_END);
}
