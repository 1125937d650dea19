//! The picture of the points' states through the day. A picture is 1,000 units wide, and lengths are in these units.
use crate::builder::TextBuilder;
use crate::names::{STATES, state_name};
use crate::pictures::{END, add_head, add_label};
use crate::texts::{Text, number, scaled};
use day_report::steps::step_of;
use day_report::{Axis, Bands};
use fuelling_point::State;

/// From the left edge of a picture to its drawing.
pub(crate) const LEFT: usize = 90;

pub(crate) const WIDTH: usize = 900;

/// Adds the axis below a drawing, with labels at its ends and at each quarter: entries' numbers or times of day.
pub(crate) fn add_axis(html: &mut TextBuilder, axis: Axis, top: usize) {
    html.fill(
        "<path class=\"axis\" d=\"M{} {}h{}\"/>\n",
        &[number(LEFT), number(top), number(WIDTH)],
    );
    for quarter in 0..5usize {
        add_place(html, axis, quarter, top.saturating_add(20));
    }
}

/// Adds a label, so many `quarters` of the axis from its start.
fn add_place(html: &mut TextBuilder, axis: Axis, quarters: usize, foot: usize) {
    let x = quarters.min(4) * (WIDTH / 4) + LEFT;
    let anchor = match quarters {
        0 => "start",
        4 => "end",
        _ => "middle",
    };
    html.fill(
        "<text class=\"soft\" x=\"{}\" y=\"{}\" text-anchor=\"{}\">{}</text>\n",
        &[
            number(x),
            number(foot),
            Text::Words(anchor),
            name_at(axis, quarters),
        ],
    );
}

/// The label so many `quarters` from the start: a time of day, or the number of the entry that is drawn there; 1 if
/// there is no entry.
fn name_at(axis: Axis, quarters: usize) -> Text {
    match axis {
        Axis::Entries(count) => {
            let before = step_of(quarters as u64, 4, count);
            Text::Entry(before.saturating_add(1).min(count.max(1)) as u64)
        }
        Axis::Time(first, last) => {
            let (seconds, quarters) = (last.saturating_sub(first), quarters as u64);
            let whole = (seconds / 4).saturating_mul(quarters);
            let rest = (seconds % 4).saturating_mul(quarters) / 4;
            Text::Clock(first.saturating_add(whole).saturating_add(rest))
        }
    }
}

/// From the middle of a point's band to the middle of the next.
const APART: usize = 26;

/// Adds a band for each point, which has the colour of the point's state in each step of the axis. `axis` must be the
/// one for which `bands` was made.
pub(crate) fn add_bands(html: &mut TextBuilder, bands: &Bands, axis: Axis) {
    let foot = bands.points.saturating_mul(APART).saturating_add(6);
    add_head(
        html,
        foot.saturating_add(28),
        "The points through the day",
        "A band for each point, coloured by the greatest state that it had in each step. \
            Deliveries, from authorised to suspended fuelling, stand out as thick blocks.",
    );
    for place in 0..bands.points {
        add_point(html, bands, place);
    }
    add_axis(html, axis, foot);
    html.add(END);
}

fn add_point(html: &mut TextBuilder, bands: &Bands, place: usize) {
    let y = place.saturating_mul(APART).saturating_add(16);
    let name = Text::Point((place as u64).saturating_add(1));
    add_label(html, 80, y.saturating_add(5), "end", name);
    html.fill(
        "\n<g transform=\"translate({}) scale(.45 1)\">\n",
        &[number(LEFT)],
    );
    for state in &STATES {
        add_state(html, bands, place, *state, y);
    }
    html.add("</g>\n");
}

fn is_at(bands: &Bands, place: usize, state: State, step: usize) -> bool {
    let at = step.saturating_mul(bands.points).saturating_add(place);
    step < bands.steps && bands.states.get(at) == Some(&state)
}

/// Adds a line over the steps `from..to` to a path, in 2,000ths of the drawing's width: `add_point` scales them.
fn add_stretch(html: &mut TextBuilder, bands: &Bands, from: usize, to: usize, y: usize) {
    let left = scaled(from as u128, bands.steps as u128, 2000);
    let width = scaled(to as u128, bands.steps as u128, 2000).saturating_sub(left);
    html.fill("M{} {}h{}", &[number(left), number(y), number(width)]);
}

/// The path is thicker if a delivery is authorised or under way in this state.
fn add_path_head(html: &mut TextBuilder, state: State) {
    let thick = if state.is_busy() { " busy" } else { "" };
    html.fill(
        "<path class=\"band s{}{}\" d=\"",
        &[Text::Number(state.number() as u64), Text::Words(thick)],
    );
}

/// The first step, from `from` on, in which the point isn't in this state.
fn end_of(bands: &Bands, place: usize, state: State, from: usize) -> usize {
    for step in from..bands.steps {
        if !is_at(bands, place, state, step) {
            return step;
        }
    }
    bands.steps
}

/// Adds the path of the steps in which the point is in this state, if there are any.
fn add_state(html: &mut TextBuilder, bands: &Bands, place: usize, state: State, y: usize) {
    let mut is_begun = false;
    let mut is_before = false;
    for step in 0..bands.steps {
        let is_here = is_at(bands, place, state, step);
        if is_here && !is_before {
            if !is_begun {
                add_path_head(html, state);
                is_begun = true;
            }
            add_stretch(html, bands, step, end_of(bands, place, state, step), y);
        }
        is_before = is_here;
    }
    if is_begun {
        html.add("\"/>\n");
    }
}

fn add_name(html: &mut TextBuilder, state: State) {
    let digit = Text::Number(state.number() as u64);
    html.fill(
        "<li><i class=\"s{}\">&#160;</i>{} {}</li>\n",
        &[digit, digit, Text::Words(state_name(state))],
    );
}

pub(crate) fn add_legend(html: &mut TextBuilder) {
    html.add("<ul class=\"legend\">\n");
    for state in &STATES {
        add_name(html, *state);
    }
    html.add("</ul>\n");
}
