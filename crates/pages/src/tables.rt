//! The tables of a page.
use crate::builder::TextBuilder;
use crate::names::state_name;
use crate::parts::product_texts;
use crate::texts::{Text, number, numbered};
use day_report::{CarriedRule, Load, Outcome, PriceChange, Sum, Totals, Unpaid};
use fuelling_point::Point;

/// The most rows of price changes, or of decisions by version and till. Others are left out.
const ROWS: usize = 1000;

macro_rules! head {
    ($id:literal; $($column:literal),+) => {
        concat!(
            "<div class=\"wide rows\"><table id=\"", $id, "\"><thead><tr>",
            $("<th scope=\"col\">", $column, "</th>",)+
            "</tr></thead><tbody>\n"
        )
    };
}

const ROW_HEAD: &str = "<tr><th scope=\"row\">{}</th>";

const ROW_END: &str = "</tr>\n";

fn add_cells(html: &mut TextBuilder, cells: &[Text]) {
    for cell in cells {
        html.fill("<td>{}</td>", &[*cell]);
    }
}

pub fn add_row(html: &mut TextBuilder, name: Text, cells: &[Text]) {
    html.fill(ROW_HEAD, &[name]);
    add_cells(html, cells);
    html.add(ROW_END);
}

const FOOT: &str = "</tbody></table></div>\n";

fn add_sum(html: &mut TextBuilder, name: Text, sum: &Sum) {
    let cells = [
        Text::Thousands(sum.count as u128),
        Text::Hundredths(sum.cents),
        Text::Hundredths(sum.centilitres),
    ];
    add_row(html, name, &cells);
}

fn add_point(html: &mut TextBuilder, name: Text, sum: &Sum, unpaid: usize, state: &'static str) {
    let cells = [
        Text::Thousands(sum.count as u128),
        Text::Hundredths(sum.cents),
        Text::Hundredths(sum.centilitres),
        number(unpaid),
        Text::Words(state),
    ];
    add_row(html, name, &cells);
}

fn add_place(html: &mut TextBuilder, totals: &Totals, place: usize, point: &Point) {
    if let Some(sum) = totals.sums.points.get(place) {
        let state = state_name(point.state());
        add_point(
            html,
            numbered(place, 1),
            sum,
            point.unpaid() as usize,
            state,
        );
    }
}

const BY_POINT: &str =
    head!("by-point"; "Point", "Sales", "Money", "Litres", "Unpaid at the end", "State at the end");

pub(crate) fn add_points(html: &mut TextBuilder, totals: &Totals) {
    html.add(BY_POINT);
    for (place, point) in totals.points.iter().enumerate() {
        add_place(html, totals, place, point);
    }
    add_point(
        html,
        Text::Words("All"),
        &totals.sums.all,
        totals.unpaid.len(),
        "",
    );
    html.add(FOOT);
}

/// Without anything else of the points.
pub const POINT_SALES: &str = head!("by-point"; "Point", "Sales", "Money", "Litres");

pub const BY_TILL: &str = head!("by-till"; "Till", "Sales", "Money", "Litres");

pub const BY_HOUR: &str = head!("by-hour"; "Hour", "Sales", "Money", "Litres");

/// Adds a row for each sum that has a sale. The first sum is that of the point, till or hour `first`.
pub fn add_parts(html: &mut TextBuilder, head: &str, sums: &[Sum], first: u64) {
    html.add(head);
    for (place, sum) in sums.iter().enumerate() {
        if sum.count > 0 {
            add_sum(html, numbered(place, first), sum);
        }
    }
    html.add(FOOT);
}

fn add_transaction(html: &mut TextBuilder, unpaid: &Unpaid) {
    let holder = match unpaid.holder {
        0 => Text::Words("nobody"),
        till => Text::Number(till as u64),
    };
    let (product, price) = product_texts(unpaid.product, unpaid.price);
    let cells = [
        Text::Number(unpaid.number as u64),
        product,
        price,
        Text::Hundredths(unpaid.amount as u128),
        Text::Hundredths(unpaid.volume as u128),
        holder,
    ];
    add_row(html, number(unpaid.point), &cells);
}

const UNPAID: &str = head!(
    "unpaid";
    "Point", "Transaction", "Product", "Price", "Money", "Litres", "Held by till"
);

pub(crate) fn add_unpaid(html: &mut TextBuilder, unpaid: &[Unpaid]) {
    html.add(UNPAID);
    for transaction in unpaid {
        add_transaction(html, transaction);
    }
    html.add(FOOT);
}

/// Adds the version at `place` in `totals.versions`, which `entry` loaded after the moment `loaded`, where one is told.
fn add_version(
    html: &mut TextBuilder,
    totals: &Totals,
    place: usize,
    rule: CarriedRule,
    entry: Text,
    loaded: Option<Text>,
) {
    let Some(verdicts) = totals.verdicts.get(place) else {
        return;
    };
    html.fill(ROW_HEAD, &[Text::Number(rule.version as u64)]);
    add_cells(html, &[Text::Number(rule.slot as u64), entry]);
    if let Some(loaded) = loaded {
        add_cells(html, &[loaded]);
    }
    let cells = [
        Text::Number(verdicts.releases.granted),
        Text::Number(verdicts.releases.denied),
        Text::Number(verdicts.presets.granted),
        Text::Number(verdicts.presets.denied),
        Text::Number(verdicts.prices.granted),
        Text::Number(verdicts.prices.denied),
    ];
    add_cells(html, &cells);
    html.add(ROW_END);
}

fn add_load(html: &mut TextBuilder, totals: &Totals, place: usize, load: &Load, is_told: bool) {
    let loaded = if is_told {
        Some(Text::Moment(load.moment))
    } else {
        None
    };
    let rule = CarriedRule {
        slot: load.slot,
        version: load.version,
    };
    add_version(
        html,
        totals,
        totals.carried.len().saturating_add(place),
        rule,
        Text::Number(load.number as u64),
        loaded,
    );
}

const VERSIONS: &str = head!(
    "versions";
    "Version", "Slot", "Entry", "Releases granted", "denied", "Presets granted", "denied", "Prices granted", "denied"
);

const VERSIONS_WITH_MOMENTS: &str = head!(
    "versions";
    "Version", "Slot", "Entry", "Loaded after", "Releases granted", "denied", "Presets granted", "denied",
    "Prices granted", "denied"
);

/// Whether a moment is told for one of these loads.
fn has_moment(loads: &[Load]) -> bool {
    for load in loads {
        if load.moment > 0 {
            return true;
        }
    }
    false
}

/// First come the versions that were carried in, then those that were loaded.
pub(crate) fn add_versions(html: &mut TextBuilder, totals: &Totals) {
    let is_told = has_moment(&totals.loads);
    html.add(if is_told {
        VERSIONS_WITH_MOMENTS
    } else {
        VERSIONS
    });
    for (place, rule) in totals.carried.iter().enumerate() {
        let loaded = if is_told { Some(Text::Words("")) } else { None };
        add_version(
            html,
            totals,
            place,
            *rule,
            Text::Words("carried in"),
            loaded,
        );
    }
    for (place, load) in totals.loads.iter().enumerate() {
        add_load(html, totals, place, load, is_told);
    }
    html.add(FOOT);
}

/// Adds a row for each till of which the version decided a request, and returns how many rows there are now. Those
/// beyond `ROWS` are counted, but left out.
fn add_tills(html: &mut TextBuilder, tills: &[Outcome], version: u32, rows: usize) -> usize {
    let mut rows = rows;
    for (place, outcome) in tills.iter().enumerate() {
        if outcome.granted > 0 || outcome.denied > 0 {
            if rows < ROWS {
                let cells = [
                    numbered(place, 1),
                    Text::Number(outcome.granted),
                    Text::Number(outcome.denied),
                ];
                add_row(html, Text::Number(version as u64), &cells);
            }
            rows = rows.saturating_add(1);
        }
    }
    rows
}

const BY_VERSION_AND_TILL: &str = head!("versions-by-till"; "Version", "Till", "Granted", "Denied");

/// A note says how many rows are left out.
pub(crate) fn add_versions_by_till(html: &mut TextBuilder, totals: &Totals) {
    html.add(BY_VERSION_AND_TILL);
    let mut rows = 0;
    for (version, verdicts) in totals.versions.iter().zip(&totals.verdicts) {
        rows = add_tills(html, &verdicts.tills, *version, rows);
    }
    html.add(FOOT);
    let remark = "<p class=\"note\">The first {} rows; {} more are left out.</p>\n";
    add_remark(html, remark, rows.saturating_sub(ROWS));
}

/// Adds `remark`, with `ROWS` and how many rows are left out, unless that is 0.
fn add_remark(html: &mut TextBuilder, remark: &str, left: usize) {
    if left > 0 {
        html.fill(remark, &[number(ROWS), Text::Thousands(left as u128)]);
    }
}

fn add_counter(html: &mut TextBuilder, place: usize, counter: &(u64, u64)) {
    let (value, bound) = *counter;
    if bound > 0 {
        let cells = [
            Text::Thousands(value as u128),
            Text::Thousands(bound as u128),
        ];
        add_row(html, number(place), &cells);
    }
}

const COUNTERS: &str = head!("counters"; "Counter", "Value at the end", "Bound");

/// Adds the counters whose bound isn't 0: the pairs are value and bound.
pub(crate) fn add_counters(html: &mut TextBuilder, counters: &[(u64, u64)]) {
    html.add(COUNTERS);
    for (place, counter) in counters.iter().enumerate() {
        add_counter(html, place, counter);
    }
    html.add(FOOT);
}

fn add_change(html: &mut TextBuilder, change: &PriceChange) {
    let cells = [
        Text::Moment(change.moment),
        Text::Number(change.product as u64),
        Text::Thousandths(change.price),
        Text::Number(change.till as u64),
        Text::Number(change.version as u64),
    ];
    add_row(html, Text::Number(change.number as u64), &cells);
}

const PRICES: &str = head!(
    "price-changes";
    "Entry", "Moment", "Product", "New price", "Asked by till", "Granted by version"
);

/// Of more than `ROWS` changes the last are shown; a note says how many are left out.
pub(crate) fn add_prices(html: &mut TextBuilder, changes: &[PriceChange]) {
    html.add(PRICES);
    let left = changes.len().saturating_sub(ROWS);
    for change in changes.iter().skip(left) {
        add_change(html, change);
    }
    html.add(FOOT);
    let remark = "<p class=\"note\">The last {} changes; {} earlier ones are left out.</p>\n";
    add_remark(html, remark, left);
}
