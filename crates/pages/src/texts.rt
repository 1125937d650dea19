//! The texts of a page: numbers, moments and names, each with the form in which it is written.

ghost use Rattle.std.specs.Prelude.{◌≤◌};

#[derive(Clone, Copy)]
pub enum Text {
    /// As in 1234567.
    Number(u64),
    /// As in 1,234,567.
    Thousands(u128),
    /// Cents as money, or centilitres as litres, as in 1,234.50.
    Hundredths(u128),
    /// A price, as in 1.799.
    Thousandths(u64),
    /// Nanoseconds as seconds, as in 0.000012500.
    Seconds(u64),
    /// Seconds since the start of 1970, in UTC, as in 2026-11-28 14:42:43. Where there is no date it is `not told`.
    Moment(u64),
    /// The same as a time of day, as in 14:42.
    Clock(u64),
    Point(u64),
    Entry(u64),
    /// The number, as in S20, and what it means.
    Refusal(u32),
    /// The special characters of HTML are escaped.
    Words(&'static str),
}

pub fn number(length: usize) -> Text {
    Text::Number(length as u64)
}

pub fn numbered(place: usize, first: u64) -> Text {
    Text::Number((place as u64).saturating_add(first))
}

/// `value * length / most`, rounded down, but at most `length`, and 0 if `most` is 0.
pub(crate) fn scaled(value: u128, most: u128, length: usize) -> usize
    ensures { result ≤ length }
{
    if most == 0 {
        return 0;
    }
    let at = value.saturating_mul(length as u128) / most;
    at.min(length as u128) as usize
}
