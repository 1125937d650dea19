// Moments, as a clock shows them.

use std::alloc::AllocError;
use std::fmt::Write;
use till_request::dates::{Date, date_of};

/// The zone whose clock shows a moment, and how many seconds this is ahead of UTC then.
#[derive(Clone, Copy)]
pub struct Zone<'a> {
    pub name: &'a str,
    pub ahead: i32,
}

/// The date and the second of the day that a clock shows which is so many seconds ahead of UTC; `None` of a moment that
/// isn't told.
fn shown_at(moment: u64, ahead: i32) -> Option<(Date, u64)> {
    date_of(moment)?;
    let local = moment.checked_add_signed(i64::from(ahead))?;
    Some((date_of(local)?, local % 86_400))
}

fn write_shown(out: &mut String, shown: (Date, u64), between: &str) -> Result<(), AllocError> {
    let (date, second) = shown;
    let (hour, minute, second) = (second / 3_600, second / 60 % 60, second % 60);
    write!(
        out,
        "{}-{:02}-{:02}{between}",
        date.year, date.month, date.day
    )?;
    write!(out, "{hour:02}:{minute:02}:{second:02}")
}

/// As in `+02:00`.
fn write_ahead(out: &mut String, ahead: i32) -> Result<(), AllocError> {
    let sign = if ahead < 0 { "-" } else { "+" };
    let seconds = ahead.unsigned_abs();
    let (hour, minute, second) = (seconds / 3_600, seconds / 60 % 60, seconds % 60);
    write!(out, "{sign}{hour:02}:{minute:02}")?;
    if second == 0 {
        return Ok(());
    }
    write!(out, ":{second:02}")
}

/// As in `2026-11-29 06:12:33 UTC`, or with a zone `2026-11-29 07:12:33 +01:00 Europe/Berlin`.
pub(crate) fn write_moment(
    out: &mut String,
    moment: u64,
    zone: &Option<Zone<'_>>,
) -> Result<(), AllocError> {
    if let Some(zone) = zone
        && let Some(shown) = shown_at(moment, zone.ahead)
    {
        write_shown(out, shown, " ")?;
        write!(out, " ")?;
        write_ahead(out, zone.ahead)?;
        return write!(out, " {}", zone.name);
    }
    match shown_at(moment, 0) {
        Some(shown) => {
            write_shown(out, shown, " ")?;
            write!(out, " UTC")
        }
        None => write!(out, "not told"),
    }
}

/// As in `2026-11-29T07:12:33+01:00`; false, and nothing, of a moment that isn't told.
pub(crate) fn write_local(out: &mut String, moment: u64, ahead: i32) -> Result<bool, AllocError> {
    let Some(shown) = shown_at(moment, ahead) else {
        return Ok(false);
    };
    write_shown(out, shown, "T")?;
    write_ahead(out, ahead)?;
    Ok(true)
}
