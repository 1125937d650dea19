//! Metrics of a station, in the text format of Prometheus, version 0.0.4.
use crate::builder::TextBuilder;
use crate::labels::LabelValue;
use crate::names::{STATES, state_name};
use crate::parts::{ENTRIES, digits};
use crate::station::{DoorCounts, DurationSummary, JournalFileStats, RoleCounts, StationSnapshot};
use crate::texts::{Text, number, numbered};
use crate::words::role_name;
use day_report::Sum;
use decision_journal::{FIRST_REFUSAL, NO_DECISIONS, REFUSALS, Tally, VersionTally};
use fuelling_point::{Point, State};
use site_core::{Opening, Version};
use std::alloc::{AllocError, Global};

/// The lines `# HELP` and `# TYPE` of a metric.
macro_rules! head {
    ($name:literal is a $kind:literal: $help:literal) => {
        concat!("# HELP ", $name, " ", $help, "\n# TYPE ", $name, " ", $kind, "\n")
    };
}

/// Metrics that have one value each and no labels.
macro_rules! singles {
    ($($name:literal is a $kind:literal: $help:literal);+) => {
        concat!($("# HELP ", $name, " ", $help, "\n# TYPE ", $name, " ", $kind, "\n", $name, " {}\n"),+)
    };
}

/// A metric of how long something took in all, in seconds, and how often it was done.
macro_rules! summary {
    ($name:literal: $help:literal) => {
        concat!(
            "# HELP ", $name, " ", $help, "\n# TYPE ", $name, " summary\n",
            $name, "_sum {}\n", $name, "_count {}\n"
        )
    };
}

/// Returns the metrics of a station at one moment.
pub fn metrics(alloc: Global, station: &StationSnapshot<'_>) -> Result<String, AllocError> {
    let opening = station.next_opening;
    let mut text = TextBuilder::new(alloc);
    add_journal(&mut text, station);
    add_refusals(&mut text, station.tally);
    add_decisions(&mut text, station.tally, &opening.rules);
    add_points(&mut text, &opening.points);
    add_money(&mut text, opening);
    add_sales(&mut text, station);
    add_counters(&mut text, opening);
    add_peers(&mut text, station.role_counts);
    add_doors(&mut text, station.doors);
    add_times(&mut text, LOCK_WAITS, station.waits);
    if let Some(journal) = station.journal {
        add_file(&mut text, journal);
    }
    if let Some(bytes) = station.memory {
        text.fill(MEMORY, &[Text::Number(bytes)]);
    }
    text.finish()
}

fn add_sample(text: &mut TextBuilder, form: &str, label: Text, value: u64) {
    text.fill(form, &[label, Text::Number(value)]);
}

const JOURNAL: &str = singles!(
    "fc_day" is a "gauge": "Number of the day that is served.";
    "fc_entries" is a "gauge": "Entries of the journal.";
    "fc_entries_limit" is a "gauge": "Entries that the journal can have.";
    "fc_journal_failed" is a "gauge": "1 if the journal failed, else 0.";
    "fc_loads_total" is a "counter": "Loads of rules in this journal."
);

const MEMORY: &str = singles!(
    "process_resident_memory_bytes" is a "gauge": "Memory that the process uses, in bytes."
);

const LOCK_WAITS: &str = summary!(
    "fc_look_lock_wait_seconds": "Waits of looks for the site's lock since this day is served, in seconds."
);

const BYTES: &str =
    singles!("fc_journal_bytes" is a "gauge": "Length of the journal's file, in bytes.");

const SYNCS: &str =
    summary!("fc_journal_sync_seconds": "Syncs of the journal's file since this day is served, in seconds.");

fn loads(tally: &Tally) -> usize {
    tally
        .versions()
        .values()
        .filter(|decided| decided.since > 0)
        .count()
}

fn add_journal(text: &mut TextBuilder, station: &StationSnapshot<'_>) {
    let values = [
        digits(station.day),
        digits(station.entries),
        Text::Number(ENTRIES),
        Text::Number(u64::from(station.has_failed)),
        number(loads(station.tally)),
    ];
    text.fill(JOURNAL, &values);
}

fn add_refusals(text: &mut TextBuilder, tally: &Tally) {
    text.add(
        head!("fc_refusals_total" is a "counter": "Refusals in this journal, by their number."),
    );
    for number in FIRST_REFUSAL..FIRST_REFUSAL + REFUSALS {
        add_sample(
            text,
            "fc_refusals_total{number=\"S{}\"} {}\n",
            digits(number),
            tally.refusals(number),
        );
    }
}

const DECISIONS: &str = "fc_decisions_total{slot=\"{}\",version=\"{}\",answer=\"granted\"} {}\n\
    fc_decisions_total{slot=\"{}\",version=\"{}\",answer=\"denied\"} {}\n";

fn add_version(text: &mut TextBuilder, slot: Text, version: u32, decided: &VersionTally) {
    let version = digits(version);
    let (granted, denied) = (Text::Number(decided.granted), Text::Number(decided.denied));
    text.fill(DECISIONS, &[slot, version, granted, slot, version, denied]);
}

/// Adds what each version granted and denied: first those in `tally`, then those in force that it lacks.
fn add_decisions(text: &mut TextBuilder, tally: &Tally, rules: &[Option<Version>]) {
    text.add(
        head!("fc_decisions_total" is a "counter": "Decisions of rules in this journal, by version."),
    );
    for (version, decided) in tally.versions().iter() {
        add_version(text, digits(decided.slot), *version, decided);
    }
    for (slot, rule) in rules.iter().enumerate() {
        if let Some(version) = rule {
            add_idle(text, number(slot), version.number, tally);
        }
    }
}

/// Adds a version in force with 0 grants and denials, unless `tally` has it.
fn add_idle(text: &mut TextBuilder, slot: Text, version: u32, tally: &Tally) {
    if tally.versions().get(&version).is_none() {
        add_version(text, slot, version, &NO_DECISIONS);
    }
}

/// Adds a line for each state: 1 for the point's own, else 0.
fn add_states(text: &mut TextBuilder, place: usize, now: State) {
    for state in &STATES {
        let is_now = u64::from(*state == now);
        let texts = [
            numbered(place, 1),
            Text::Words(state_name(*state)),
            Text::Number(is_now),
        ];
        text.fill("fc_point_state{point=\"{}\",state=\"{}\"} {}\n", &texts);
    }
}

/// In cents.
fn unpaid_cents(point: &Point) -> u64 {
    let [first, second] = point.transactions();
    let first = first.map_or(0, |transaction| transaction.amount);
    let second = second.map_or(0, |transaction| transaction.amount);
    first.saturating_add(second)
}

fn add_points(text: &mut TextBuilder, points: &[Point]) {
    text.add(head!("fc_point_state" is a "gauge": "1 for the state that a point is in, else 0."));
    for (place, point) in points.iter().enumerate() {
        add_states(text, place, point.state());
    }
    text.add(head!("fc_unpaid" is a "gauge": "Unpaid transactions of a point."));
    for (place, point) in points.iter().enumerate() {
        let unpaid = u64::from(point.unpaid());
        add_sample(
            text,
            "fc_unpaid{point=\"{}\"} {}\n",
            numbered(place, 1),
            unpaid,
        );
    }
    text.add(head!("fc_unpaid_cents" is a "gauge": "Unpaid money of a point, in cents."));
    for (place, point) in points.iter().enumerate() {
        let cents = unpaid_cents(point);
        add_sample(
            text,
            "fc_unpaid_cents{point=\"{}\"} {}\n",
            numbered(place, 1),
            cents,
        );
    }
}

const CLEARED: &str = singles!(
    "fc_cleared_cents_total" is a "counter": "Money that was ever cleared, in cents.";
    "fc_cleared_total" is a "counter": "Transactions that were ever cleared."
);

fn add_money(text: &mut TextBuilder, opening: &Opening) {
    text.fill(
        CLEARED,
        &[Text::Number(opening.cleared), Text::Number(opening.clears)],
    );
    text.add(head!("fc_price_thousandths" is a "gauge": "Price of a litre, in thousandths."));
    for (place, price) in opening.prices.iter().enumerate() {
        if *price > 0 {
            let (product, price) = (numbered(place, 1), u64::from(*price));
            add_sample(
                text,
                "fc_price_thousandths{product=\"{}\"} {}\n",
                product,
                price,
            );
        }
    }
}

#[derive(Clone, Copy)]
enum Figure {
    Sales,
    Cents,
    Centilitres,
}

/// At most what 64 bits hold.
fn figure_of(sum: &Sum, figure: Figure) -> u64 {
    let number = match figure {
        Figure::Sales => return sum.count,
        Figure::Cents => sum.cents,
        Figure::Centilitres => sum.centilitres,
    };
    number.min(u128::from(u64::MAX)) as u64
}

/// Adds a metric with a line for each sum, numbered from `first` on.
fn add_figures(
    text: &mut TextBuilder,
    head: &str,
    form: &str,
    sums: &[Sum],
    first: u64,
    figure: Figure,
) {
    text.add(head);
    for (place, sum) in sums.iter().enumerate() {
        add_sample(text, form, numbered(place, first), figure_of(sum, figure));
    }
}

macro_rules! add_sums {
    ($text:ident, $name:literal by $label:literal: $sums:expr, $first:literal) => {
        add_figures(
            $text,
            concat!(
                "# HELP ", $name, "_total Sales in this journal, by ", $label, ".\n# TYPE ", $name,
                "_total counter\n"
            ),
            concat!($name, "_total{", $label, "=\"{}\"} {}\n"),
            $sums,
            $first,
            Figure::Sales,
        );
        add_figures(
            $text,
            concat!(
                "# HELP ", $name, "_cents_total Money of sales in this journal, in cents, by ", $label,
                ".\n# TYPE ", $name, "_cents_total counter\n"
            ),
            concat!($name, "_cents_total{", $label, "=\"{}\"} {}\n"),
            $sums,
            $first,
            Figure::Cents,
        );
        add_figures(
            $text,
            concat!(
                "# HELP ", $name, "_centilitres_total Volume of sales in this journal, in centilitres, by ",
                $label, ".\n# TYPE ", $name, "_centilitres_total counter\n"
            ),
            concat!($name, "_centilitres_total{", $label, "=\"{}\"} {}\n"),
            $sums,
            $first,
            Figure::Centilitres,
        );
    };
}

fn first_sums(sums: &[Sum], count: usize) -> &[Sum] {
    &sums[..count.min(sums.len())]
}

const OFF: &str = singles!(
    "fc_sales_off_total" is a "counter":
        "Sales in this journal whose money and volume disagree by more than a cent."
);

fn add_sales(text: &mut TextBuilder, station: &StationSnapshot<'_>) {
    let (sums, opening) = (station.sums, station.next_opening);
    let points = first_sums(&sums.points, opening.points.len());
    let tills = first_sums(&sums.tills, station.tills as usize);
    add_sums!(text, "fc_sales" by "point": points, 1);
    add_sums!(text, "fc_till_sales" by "till": tills, 1);
    add_sums!(text, "fc_hour_sales" by "hour": &sums.hours, 0);
    text.fill(OFF, &[Text::Number(sums.off.count)]);
}

fn add_counters(text: &mut TextBuilder, opening: &Opening) {
    text.add(head!("fc_counters" is a "gauge": "Value of a counter whose bound is over 0."));
    for counter in 0..32u32 {
        if opening.counters.bound(counter) > 0 {
            let value = opening.counters.get(counter);
            add_sample(
                text,
                "fc_counters{counter=\"{}\"} {}\n",
                digits(counter),
                value,
            );
        }
    }
    text.add(head!("fc_counters_bound" is a "gauge": "Bound of a counter."));
    for counter in 0..32u32 {
        let bound = opening.counters.bound(counter);
        if bound > 0 {
            add_sample(
                text,
                "fc_counters_bound{counter=\"{}\"} {}\n",
                digits(counter),
                bound,
            );
        }
    }
}

fn add_peers(text: &mut TextBuilder, role_counts: &[RoleCounts]) {
    text.add(head!("fc_connections_open" is a "gauge": "Connections that are open, by role."));
    for role in role_counts {
        let name = Text::Words(role_name(role.role));
        add_sample(
            text,
            "fc_connections_open{role=\"{}\"} {}\n",
            name,
            role.open,
        );
    }
    text.add(
        head!("fc_connections_total" is a "counter": "Connections since this day is served, by role."),
    );
    for role in role_counts {
        let name = Text::Words(role_name(role.role));
        add_sample(
            text,
            "fc_connections_total{role=\"{}\"} {}\n",
            name,
            role.total,
        );
    }
    text.add(head!("fc_workers" is a "gauge": "Workers that still serve a role."));
    for role in role_counts {
        let (name, workers) = (Text::Words(role_name(role.role)), u64::from(role.workers));
        add_sample(text, "fc_workers{role=\"{}\"} {}\n", name, workers);
    }
}

/// `start` is the line up to the label's value.
fn add_door(text: &mut TextBuilder, start: &str, door: &DoorCounts<'_>, value: u64) {
    text.add(start);
    text.write(&LabelValue(door.address));
    text.add("\",who=\"");
    text.write(&LabelValue(door.who));
    text.fill("\"} {}\n", &[Text::Number(value)]);
}

fn add_doors(text: &mut TextBuilder, doors: &[DoorCounts<'_>]) {
    text.add(
        head!("fc_lines_total" is a "counter": "Lines that were read since this day is served, by door."),
    );
    for door in doors {
        add_door(text, "fc_lines_total{door=\"", door, door.lines);
    }
    text.add(
        head!("fc_turned_away_total" is a "counter": "Connections in another protocol since this day is served, by door."),
    );
    for door in doors {
        add_door(text, "fc_turned_away_total{door=\"", door, door.turned_away);
    }
}

/// `form` must be made by `summary!`.
fn add_times(text: &mut TextBuilder, form: &str, times: DurationSummary) {
    text.fill(
        form,
        &[Text::Seconds(times.nanoseconds), Text::Number(times.count)],
    );
}

fn add_file(text: &mut TextBuilder, journal: JournalFileStats) {
    text.fill(BYTES, &[Text::Number(journal.bytes)]);
    if let Some(syncs) = journal.syncs {
        add_times(text, SYNCS, syncs);
    }
}
