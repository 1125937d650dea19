//! The picture of the prices through the day: a line for each product.
use crate::builder::TextBuilder;
use crate::drawn::{LEFT, WIDTH, add_axis};
use crate::pictures::{END, add_head, add_label};
use crate::texts::{Text, number, scaled};
use day_report::{Axis, PriceChange};

/// A product's line can rise or fall at the ends of so many equal parts.
const PLACES: usize = 225;

const APART: usize = WIDTH / PLACES;

const HIGH: usize = 160;

/// The least and the greatest price of the drawing, in thousandths.
#[derive(Clone, Copy)]
struct Range {
    least: u64,
    greatest: u64,
}

impl Range {
    /// How far below the top a price is drawn: 170 for the least, 10 for a greater greatest.
    fn depth(&self, price: u64) -> usize {
        let above = price.saturating_sub(self.least) as u128;
        let span = self.greatest.saturating_sub(self.least).max(1) as u128;
        (HIGH + 10).saturating_sub(scaled(above, span, HIGH))
    }

    fn with(self, price: u64) -> Range {
        Range {
            least: self.least.min(price),
            greatest: self.greatest.max(price),
        }
    }
}

fn range_of(opening: &[u32; 8], changes: &[PriceChange]) -> Range {
    let mut range = Range {
        least: u64::MAX,
        greatest: 0,
    };
    for price in opening {
        if *price > 0 {
            range = range.with(*price as u64);
        }
    }
    for change in changes {
        range = range.with(change.price);
    }
    range
}

/// Adds a line for each product that has a price. `opening` has the prices before the first entry, 0 for none.
pub(crate) fn add_lines(
    html: &mut TextBuilder,
    opening: &[u32; 8],
    changes: &[PriceChange],
    axis: Axis,
) {
    add_head(
        html,
        208,
        "Prices through the day",
        "A line for each product that has a price, which steps where a new price was granted. The \
            table below has the changes.",
    );
    let range = range_of(opening, changes);
    add_range(html, range);
    for (place, price) in opening.iter().enumerate() {
        let product = (place as u32).saturating_add(1);
        add_line(html, product, *price as u64, changes, axis, range);
    }
    add_axis(html, axis, 180);
    html.add(END);
}

fn add_range(html: &mut TextBuilder, range: Range) {
    add_label(html, 80, 16, "end", Text::Thousandths(range.greatest));
    add_label(html, 80, 174, "end", Text::Thousandths(range.least));
    html.add("\n");
}

fn x_of(change: &PriceChange, axis: Axis) -> usize {
    // As in the picture of the points (`drawn`), each entry, or each second, gets an equal share of the axis.
    let place = match axis {
        Axis::Entries(count) => {
            let before = change.number.saturating_sub(1);
            scaled(before as u128, count as u128, PLACES)
        }
        Axis::Time(first, last) => {
            let since = change.moment.saturating_sub(first);
            let seconds = last.saturating_sub(first) as u128 + 1;
            scaled(since as u128, seconds, PLACES)
        }
    };
    LEFT + place * APART
}

/// Adds a horizontal part at `depth` up to `next`. A line that is begun first goes straight there; another begins at
/// `x`.
fn add_step(
    html: &mut TextBuilder,
    product: u32,
    is_begun: bool,
    x: usize,
    depth: usize,
    next: usize,
) {
    if is_begun {
        html.fill("V{}H{}", &[number(depth), number(next)]);
    } else {
        html.fill(
            "<path class=\"price p{}\" d=\"M{} {}H{}",
            &[
                Text::Number(product as u64),
                number(x),
                number(depth),
                number(next),
            ],
        );
    }
}

/// Adds the line of a product. Without a price at the `opening`, it begins at the first change.
fn add_line(
    html: &mut TextBuilder,
    product: u32,
    opening: u64,
    changes: &[PriceChange],
    axis: Axis,
    range: Range,
) {
    let mut price = opening;
    let mut x = LEFT;
    let mut is_begun = false;
    for change in changes {
        if change.product == product {
            // On an axis of time, a change without a moment is drawn where the line ends so far.
            let next = x_of(change, axis).max(x);
            if next != x && price > 0 {
                add_step(html, product, is_begun, x, range.depth(price), next);
                is_begun = true;
            }
            x = next;
            price = change.price;
        }
    }
    if price > 0 {
        add_step(html, product, is_begun, x, range.depth(price), LEFT + WIDTH);
        html.add("\"/>\n");
    }
}

/// Adds the colours of the products that have a price at the start or at the end of the day.
pub(crate) fn add_legend(html: &mut TextBuilder, opening: &[u32; 8], changes: &[PriceChange]) {
    html.add("<ul class=\"legend\">\n");
    for (place, price) in opening.iter().enumerate() {
        let product = (place as u32).saturating_add(1);
        let opening = *price as u64;
        let last = last_price(changes, product, opening);
        if opening > 0 || last > 0 {
            add_product(html, product, opening, last);
        }
    }
    html.add("</ul>\n");
}

/// Adds the prices at the start and the end of the day, or one if they are the same. No price is written as 0.000.
fn add_product(html: &mut TextBuilder, product: u32, opening: u64, last: u64) {
    let product = Text::Number(product as u64);
    html.fill(
        "<li><i class=\"p{}\">&#160;</i>product {}: ",
        &[product, product],
    );
    if opening != last {
        html.fill("{}, at the end ", &[Text::Thousandths(opening)]);
    }
    html.fill("{}</li>\n", &[Text::Thousandths(last)]);
}

fn last_price(changes: &[PriceChange], product: u32, opening: u64) -> u64 {
    let mut price = opening;
    for change in changes {
        if change.product == product {
            price = change.price;
        }
    }
    price
}
