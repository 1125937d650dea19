//! The parts that pictures are made of. A picture is an SVG element, 1,000 units wide.
use crate::builder::TextBuilder;
use crate::texts::{Text, number};

/// `title` and `text` are what screen readers read.
pub(crate) fn add_head(
    html: &mut TextBuilder,
    height: usize,
    title: &'static str,
    text: &'static str,
) {
    html.fill(
        "<div class=\"wide\"><svg viewBox=\"0 0 1000 {}\" role=\"img\"><title>{}</title><desc>{}</desc>\n",
        &[number(height), Text::Words(title), Text::Words(text)],
    );
}

pub(crate) const END: &str = "</svg></div>\n";

/// The line below the columns, and the end of their picture.
pub(crate) const COLUMNS_END: &str = "<path class=\"axis\" d=\"M0 206.5h1000\"/>\n</svg></div>\n";

/// `anchor` says which part of the text is at `x`: `start`, `middle` or `end`.
pub(crate) fn add_label(
    html: &mut TextBuilder,
    x: usize,
    y: usize,
    anchor: &'static str,
    text: Text,
) {
    html.fill(
        "<text x=\"{}\" y=\"{}\" text-anchor=\"{}\">{}</text>",
        &[number(x), number(y), Text::Words(anchor), text],
    );
}

/// Leaves the end of the tag to the caller, who can add attributes.
pub(crate) fn add_rect(
    html: &mut TextBuilder,
    class: &'static str,
    x: usize,
    y: usize,
    width: usize,
    height: usize,
) {
    html.fill(
        "<rect class=\"{}\" x=\"{}\" y=\"{}\" width=\"{}\" height=\"{}\"",
        &[
            Text::Words(class),
            number(x),
            number(y),
            number(width),
            number(height),
        ],
    );
}
