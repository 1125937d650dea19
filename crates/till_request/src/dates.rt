//! The date of a moment, in UTC.
ghost use Rattle.std.specs.Prelude.{◌≡◌, ◌≤◌, ◌+◌, ◌%◌};
ghost use Rattle.till_request.specs.Dates.{DatesAreOfTheCalendar, date_in_year, date_of, date_text, days_of_month};
ghost use Rattle.till_request.specs.Dates.{days_of_year, is_leap, period_after};

/// A date of the Gregorian calendar. Months and days begin at 1.
#[derive(Clone, Copy)]
pub struct Date {
    pub year: u32,
    pub month: u32,
    pub day: u32,
}

fn is_leap(year: u32) -> bool
    ensures { result ≡ is_leap year }
{
    year % 4 == 0 && (year % 100 != 0 || year % 400 == 0)
}

fn days_of_year(year: u32) -> u32
    ensures value { result ≡ days_of_year year }
    ensures most { result ≤ 366 }
{
    if is_leap(year) { 366 } else { 365 }
}

fn days_of_month(year: u32, month: u32) -> u32
    ensures { result ≡ days_of_month year month }
{
    match month {
        2 if is_leap(year) => 29,
        2 => 28,
        4 | 6 | 9 | 11 => 30,
        _ => 31,
    }
}

/// The year when so many days since the start of 1970 are over, and how many of its own days are.
fn year_after(days: u64) -> Option<(u32, u32)>
    ensures { result ≡ period_after days_of_year 1970 8030 days }
{
    let mut left = days;
    for year in 1970..10_000 {
        let length = u64::from(days_of_year(year));
        if left < length {
            return Some((year, left as u32));
        }
        left -= length;
    }
    None
}

/// The date in a year of which so many days are over.
fn date_in_year(year: u32, days: u32) -> Option<Date>
    ensures { result ≡ date_in_year (year, days) }
{
    let mut left = days;
    for month in 1..13 {
        let length = days_of_month(year, month);
        if left < length {
            return Some(Date {
                year,
                month,
                day: left + 1,
            });
        }
        left -= length;
    }
    None
}

/// The date of a moment, given in seconds since the start of 1970. There is none of 0, which stands for a moment that
/// isn't told, nor from the year 10000 on.
pub fn date_of(moment: u64) -> Option<Date>
    // proved: A moment has its date of the calendar | centuries_are_leap_years
    ensures { result ≡ date_of moment }
{
    if moment == 0 {
        return None;
    }
    let (year, days) = year_after(moment / 86_400)?;
    date_in_year(year, days)
}

/// A law: a date is one of the calendar, with as many days before it as are over.
pub fn dates_are_of_the_calendar()
    // proved: A date is one of the calendar, with as many days before it as are over
    ensures { DatesAreOfTheCalendar }
{}

fn digit(n: u32) -> u8
    ensures { result ≡ 48 + n % 10 }
{
    b'0' + (n % 10) as u8
}

/// As in 2026-11-29.
pub(crate) fn date_text(date: Date) -> [u8; 10]
    ensures { result ≡ date_text date }
{
    let Date { year, month, day } = date;
    [
        digit(year / 1000),
        digit(year / 100),
        digit(year / 10),
        digit(year),
        b'-',
        digit(month / 10),
        digit(month),
        b'-',
        digit(day / 10),
        digit(day),
    ]
}
