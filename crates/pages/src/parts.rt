//! Small parts that the page and the metrics use.
use crate::texts::Text;

pub(crate) const ENTRIES: u64 = 1_048_576;

pub(crate) const NONE: Text = Text::Words("");

pub(crate) fn digits(number: u32) -> Text {
    Text::Number(u64::from(number))
}

/// A product and its price; nothing if the product isn't known.
pub(crate) fn product_texts(product: u32, price: u32) -> (Text, Text) {
    if product == 0 {
        return (NONE, NONE);
    }
    (digits(product), Text::Thousandths(u64::from(price)))
}

/// With commas between groups of three digits.
pub(crate) fn thousands(number: u64) -> Text {
    Text::Thousands(u128::from(number))
}

/// Cents as money, or centilitres as litres.
pub(crate) fn hundredths(number: u64) -> Text {
    Text::Hundredths(u128::from(number))
}
