//! The page of HTML that shows a station as it is now, section by section.
use crate::bars::add_points as add_bars;
use crate::builder::TextBuilder;
use crate::checking::health;
use crate::names::state_name;
use crate::page::{add_figure, add_hours, add_off};
use crate::parts::{ENTRIES, NONE, digits, hundredths, product_texts, thousands};
use crate::station::{DoorCounts, Health, RoleCounts, StationSnapshot};
use crate::style::{HEAD, STYLE};
use crate::tables::{BY_TILL, POINT_SALES, add_parts, add_row};
use crate::texts::{Text, number, numbered};
use crate::words::{add_entry, order_name, role_name};
use decision_journal::{Entry, FIRST_REFUSAL, REFUSALS, Tally};
use fuelling_point::{Point, Transaction};
use site_core::{Opening, Version};
use std::alloc::{AllocError, Global};

macro_rules! section {
    ($id:literal with title $title:literal and columns $($column:literal),+) => {
        concat!(
            "<section id=\"", $id, "\"><h2>", $title, "</h2>\n<div class=\"wide\"><table><thead><tr>",
            $("<th scope=\"col\">", $column, "</th>",)+
            "</tr></thead><tbody>\n"
        )
    };
}

const END: &str = "</tbody></table></div></section>\n";

/// A browser loads the page again after 5 seconds.
const TITLE: &str = "<meta http-equiv=\"refresh\" content=\"5\">\n<title>The station now</title>\n";

/// The page that shows a station at one moment. It has no script and refers to no other file.
pub fn page(alloc: Global, station: &StationSnapshot<'_>) -> Result<String, AllocError> {
    let opening = station.next_opening;
    let mut html = TextBuilder::new(alloc);
    html.add(HEAD);
    html.add(TITLE);
    html.add(STYLE);
    add_headline(&mut html, station);
    add_points(&mut html, opening);
    add_unpaid(&mut html, &opening.points);
    add_sales(&mut html, station);
    add_prices(&mut html, &opening.prices);
    add_rules(&mut html, &opening.rules, station.tally);
    add_counters(&mut html, opening);
    add_refusals(&mut html, station.tally);
    add_peers(&mut html, station.role_counts);
    add_doors(&mut html, station.doors);
    add_entries(&mut html, station.last);
    html.add("</main></body></html>\n");
    html.finish()
}

fn add_headline(html: &mut TextBuilder, station: &StationSnapshot<'_>) {
    html.fill(
        "<p class=\"audited\">{} UTC, renewed every 5 seconds</p>\n<h1>The station now</h1>\n",
        &[Text::Moment(station.moment)],
    );
    let counts = station.role_counts;
    match health(
        station.has_failed,
        station.entries,
        station.is_given,
        counts,
    ) {
        Health::Healthy => html.add("<p>All is well.</p>\n"),
        flaw => html.fill(
            "<p><strong>Not well: {}.</strong></p>\n",
            &[Text::Words(flaw.words())],
        ),
    }
    html.add("<ul class=\"figures\">\n");
    let opening = station.next_opening;
    let entries = u64::from(station.entries);
    add_figure(html, "Entries", thousands(entries));
    add_figure(
        html,
        "Journal full, in per cent",
        Text::Number(entries.saturating_mul(100) / ENTRIES),
    );
    add_figure(html, "Cleared so far", hundredths(opening.cleared));
    add_figure(html, "Transactions cleared", thousands(opening.clears));
    add_figure(html, "Tills", digits(station.tills));
    html.add("</ul>\n");
}

fn money_or_none(cents: u64) -> Text {
    if cents == 0 { NONE } else { hundredths(cents) }
}

/// A nozzle's number, and the price of the product with the same number; nothing if it isn't 1 to 8.
fn nozzle_texts(nozzle: u32, prices: &[u32; 8]) -> (Text, Text) {
    match prices.get((nozzle as usize).wrapping_sub(1)) {
        None => (NONE, NONE),
        Some(price) => (digits(nozzle), Text::Thousandths(u64::from(*price))),
    }
}

fn add_point(html: &mut TextBuilder, place: usize, point: &Point, prices: &[u32; 8]) {
    let (nozzle, price) = nozzle_texts(point.nozzle(), prices);
    let cells = [
        Text::Words(state_name(point.state())),
        nozzle,
        price,
        Text::Words(order_name(point.snapshot().order)),
        money_or_none(point.preset()),
        money_or_none(point.limit()),
        hundredths(point.amount()),
        hundredths(point.volume()),
    ];
    add_row(html, numbered(place, 1), &cells);
}

fn add_points(html: &mut TextBuilder, opening: &Opening) {
    html.add(section!("points" with title "Points" and columns
        "Point", "State", "Nozzle", "Price", "Pending order", "Preset", "Granted", "Money", "Litres"));
    for (place, point) in opening.points.iter().enumerate() {
        add_point(html, place, point, &opening.prices);
    }
    html.add(END);
}

fn add_transaction(html: &mut TextBuilder, place: usize, transaction: Option<Transaction>) {
    let Some(unpaid) = transaction else {
        return;
    };
    let holder = match unpaid.holder {
        0 => Text::Words("nobody"),
        till => digits(till),
    };
    let (product, price) = product_texts(unpaid.product, unpaid.price);
    let cells = [
        digits(unpaid.number),
        product,
        price,
        hundredths(unpaid.amount),
        hundredths(unpaid.volume),
        holder,
    ];
    add_row(html, numbered(place, 1), &cells);
}

fn add_unpaid(html: &mut TextBuilder, points: &[Point]) {
    html.add(section!("unpaid" with title "Unpaid" and columns
        "Point", "Transaction", "Product", "Price", "Money", "Litres", "Held by till"));
    for (place, point) in points.iter().enumerate() {
        let [first, second] = point.transactions();
        add_transaction(html, place, first);
        add_transaction(html, place, second);
    }
    html.add(END);
}

fn add_sales(html: &mut TextBuilder, station: &StationSnapshot<'_>) {
    let (sums, opening) = (station.sums, station.next_opening);
    html.add("<section id=\"sales\"><h2>Sales of this day</h2>\n<ul class=\"figures\">\n");
    add_figure(html, "Sold", Text::Hundredths(sums.all.cents));
    add_figure(html, "Sales", Text::Thousands(sums.all.count as u128));
    add_figure(html, "Litres sold", Text::Hundredths(sums.all.centilitres));
    html.add("</ul>\n");
    add_off(html, &sums.off);
    let count = opening.points.len().min(sums.points.len());
    let points = &sums.points[..count];
    add_bars(html, points);
    add_parts(html, POINT_SALES, points, 1);
    if sums.all.count > 0 {
        html.add("<h3>By the till that cleared</h3>");
        add_parts(html, BY_TILL, &sums.tills, 1);
    }
    add_hours(html, &sums.hours);
    html.add("</section>\n");
}

fn add_prices(html: &mut TextBuilder, prices: &[u32; 8]) {
    html.add(section!("prices" with title "Prices" and columns "Product", "Price of a litre"));
    for (place, price) in prices.iter().enumerate() {
        if *price > 0 {
            add_row(
                html,
                numbered(place, 1),
                &[Text::Thousandths(u64::from(*price))],
            );
        }
    }
    html.add(END);
}

/// Adds the version in force in `slot`, the entry that loaded it, and what it decided in this journal.
fn add_rule(html: &mut TextBuilder, slot: usize, version: u32, tally: &Tally) {
    let decided = tally.decided_by(version);
    let since = match decided.since {
        0 => Text::Words("from the day before"),
        entry => Text::Entry(u64::from(entry)),
    };
    let cells = [
        digits(version),
        since,
        thousands(decided.granted),
        thousands(decided.denied),
    ];
    add_row(html, number(slot), &cells);
}

fn add_rules(html: &mut TextBuilder, rules: &[Option<Version>], tally: &Tally) {
    html.add(section!("rules" with title "Rules in force" and columns
        "Slot", "Version", "Since", "Granted", "Denied"));
    for (slot, rule) in rules.iter().enumerate() {
        if let Some(version) = rule {
            add_rule(html, slot, version.number, tally);
        }
    }
    html.add(END);
}

fn add_counters(html: &mut TextBuilder, opening: &Opening) {
    html.add(section!("counters" with title "Counters" and columns "Counter", "Value", "Bound"));
    for counter in 0..32u32 {
        let bound = opening.counters.bound(counter);
        if bound > 0 {
            let value = opening.counters.get(counter);
            add_row(html, digits(counter), &[thousands(value), thousands(bound)]);
        }
    }
    html.add(END);
}

fn add_refusals(html: &mut TextBuilder, tally: &Tally) {
    html.add(section!("refusals" with title "Refusals" and columns "Refusal", "Times"));
    for number in FIRST_REFUSAL..FIRST_REFUSAL + REFUSALS {
        let count = tally.refusals(number);
        if count > 0 {
            add_row(html, Text::Refusal(number), &[thousands(count)]);
        }
    }
    html.add(END);
}

fn add_peers(html: &mut TextBuilder, role_counts: &[RoleCounts]) {
    html.add(section!("connections" with title "Connections" and columns
        "Role", "Workers", "Open", "So far"));
    for role in role_counts {
        let cells = [
            digits(role.workers),
            thousands(role.open),
            thousands(role.total),
        ];
        add_row(html, Text::Words(role_name(role.role)), &cells);
    }
    html.add(END);
}

fn add_door(html: &mut TextBuilder, door: &DoorCounts<'_>) {
    html.add("<tr><th scope=\"row\">");
    html.words(door.address);
    html.add("</th><td class=\"words\">");
    html.words(door.who);
    html.fill(
        "</td><td>{}</td><td>{}</td></tr>\n",
        &[thousands(door.lines), thousands(door.turned_away)],
    );
}

fn add_doors(html: &mut TextBuilder, doors: &[DoorCounts<'_>]) {
    html.add(section!("doors" with title "Doors" and columns
        "Door", "For", "Lines read", "Turned away"));
    for door in doors {
        add_door(html, door);
    }
    html.add(END);
}

const LAST: &str =
    "<section id=\"entries\"><h2>Last entries</h2>\n<div class=\"wide\"><table><thead><tr>\
<th scope=\"col\">Entry</th><th scope=\"col\">Moment in UTC</th><th scope=\"col\" class=\"words\">Who</th>\
<th scope=\"col\" class=\"words\">What</th><th scope=\"col\" class=\"words\">Reply</th></tr></thead><tbody>\n";

/// Adds the last entries, the newest first.
fn add_entries(html: &mut TextBuilder, entries: &[Entry]) {
    html.add(LAST);
    for entry in entries.iter().rev() {
        add_entry(html, entry);
    }
    html.add(END);
}
