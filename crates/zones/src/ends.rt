//! When a day ends: at a minute of the day, as a zone's clock shows it.
ghost use Rattle.std.specs.Prelude.{None, Some, ◌≡◌, ◌≤◌, ◌<◌, ◌*◌, ◌+ℤ◌, ◌*ℤ◌, pos};
ghost use Rattle.jiff_core.specs.DateTime.{civil_nanos};
ghost use Rattle.jiff_core.specs.Timestamp.{nanos_of_seconds};
ghost use Rattle.jiff_tz.specs.Ambiguous.{instant_of};
ghost use Rattle.jiff_tz.specs.Zone.{offset_at};
ghost use Rattle.zones.specs.Ends.{HasRules, IsMoment, IsDate, IsShown, reached, date_at, IsEndOn, behind, NextEnd};

use jiff_core::civil::DateTime;
use jiff_core::{Offset, Timestamp};
use jiff_tz::{AmbiguousOffset, TimeZone, Tzif};

const NANOS: i128 = 1_000_000_000;

const DAY_SECONDS: i64 = 86_400;

/// Behind this second, in the year 9999, no day ends.
const LAST_MOMENT: i64 = 253_400_000_000;

/// The zone with these rules; UTC without.
pub fn time_zone(rules: &Option<Tzif>) -> TimeZone<'_>
    ensures { HasRules rules.now result }
{
    match rules {
        Some(table) => TimeZone::Tzif(table),
        None => TimeZone::UTC,
    }
}

/// The instant at which a clock at this offset shows a date and time.
#[tactic(auto, using(crate::proofs::Ranges::instant_in))]
fn instant_of(shown: DateTime, offset: Offset) -> Timestamp
    requires { IsShown (civil_nanos shown) }
    ensures { result.nanosecond ≡ instant_of shown offset }
{
    Timestamp {
        nanosecond: shown.to_nanosecond() - offset.to_nanosecond(),
    }
}

/// The second in which a zone's clock first shows a date and time, or jumps over it.
fn reached(zone: TimeZone<'_>, shown: DateTime) -> Option<i64>
    requires { IsShown (civil_nanos shown) }
    ensures { result ≡ reached zone.entry shown }
{
    let instant = match zone.to_ambiguous_offset(shown) {
        AmbiguousOffset::Unambiguous { offset } => instant_of(shown, offset),
        AmbiguousOffset::Fold { before, .. } => instant_of(shown, before),
        AmbiguousOffset::Gap { after, .. } => {
            zone.next_transition(instant_of(shown, after))?.timestamp
        }
    };
    Some(instant.floor_second())
}

/// What a clock shows so many seconds behind the start of 1970.
#[tactic(auto, using(crate::proofs::Ranges::civil_in))]
fn shown_at(second: i64) -> DateTime
    requires { IsShown (nanos_of_seconds second) }
    ensures { civil_nanos result ≡ nanos_of_seconds second }
{
    DateTime::from_nanosecond_in_range(i128::from(second) * NANOS)
}

/// This minute of a date, a number of days since the start of 1970, in seconds since then.
#[tactic(auto, using(crate::proofs::Ranges::second_in))]
fn second_on(minute: u32, date: i64) -> i64
    requires minute { minute < 1440 }
    requires date { IsDate date }
    ensures second { result ≡ date *ℤ pos 86400 +ℤ pos (60 * minute) }
    ensures bounds { IsShown (nanos_of_seconds result) }
{
    date * DAY_SECONDS + i64::from(60 * minute)
}

/// When it is this minute of a date.
fn end_on(zone: TimeZone<'_>, minute: u32, date: i64) -> Option<i64>
    requires minute { minute < 1440 }
    requires date { IsDate date }
    ensures { IsEndOn zone.entry minute date result }
{
    reached(zone, shown_at(second_on(minute, date)))
}

/// `end`, if it is behind the moment.
fn behind(moment: i64, end: Option<i64>) -> Option<i64>
    ensures { result ≡ behind moment end }
{
    match end {
        Some(end) if moment < end => Some(end),
        _ => None,
    }
}

/// What a clock at this offset shows, in seconds.
fn local_at(moment: i64, offset: Offset) -> i64
    requires { IsMoment moment }
    ensures { result ≡ moment +ℤ offset.seconds }
{
    moment + i64::from(offset.seconds)
}

#[tactic(auto, using(crate::proofs::Ranges::moment_in))]
fn instant_at(moment: i64) -> Timestamp
    requires { IsMoment moment }
    ensures { result.nanosecond ≡ nanos_of_seconds moment }
{
    Timestamp {
        nanosecond: i128::from(moment) * NANOS,
    }
}

/// How many seconds a zone's clock is ahead of UTC at a moment; `None` before 1970 and behind the year 9999.
pub fn offset_at(zone: TimeZone<'_>, moment: i64) -> Option<i32>
    // proved: A zone's clock is ahead of UTC by what its rules say of the moment
    ensures within { IsMoment moment → result ≡ Some (offset_at zone.entry (nanos_of_seconds moment)) }
    ensures outside { (IsMoment moment → ⊥) → result ≡ None }
{
    if moment < 0 || moment > LAST_MOMENT {
        return None;
    }
    Some(zone.to_offset(instant_at(moment)).seconds)
}

/// The date that a zone's clock shows at a moment.
fn date_at(zone: TimeZone<'_>, moment: i64) -> i64
    requires { IsMoment moment }
    ensures date { result ≡ date_at zone.entry moment }
    ensures first { IsDate result }
    ensures later { IsDate (result +ℤ pos 2) }
{
    local_at(moment, zone.to_offset(instant_at(moment))).div_euclid(DAY_SECONDS)
}

/// The date so many days after a date.
fn later_date(date: i64, days: u32) -> i64
    requires days { days ≤ 2 }
    requires first { IsDate date }
    requires last { IsDate (date +ℤ pos 2) }
    ensures date { result ≡ date +ℤ pos days }
    ensures bounds { IsDate result }
{
    date + i64::from(days)
}

/// The moment behind `moment` at which it is this minute of the day for the first time on a date of the zone.
pub fn next_end(zone: TimeZone<'_>, minute: u32, moment: i64) -> Option<i64>
    requires { minute < 1440 }
    // proved: A day ends when the zone's clock first shows the minute of a date, or jumps over it
    ensures { NextEnd zone.entry minute moment result }
{
    if moment < 0 || moment > LAST_MOMENT {
        return None;
    }
    let date = date_at(zone, moment);
    let today = behind(moment, end_on(zone, minute, date));
    let next = behind(moment, end_on(zone, minute, later_date(date, 1)));
    let later = behind(moment, end_on(zone, minute, later_date(date, 2)));
    today.or(next).or(later)
}
