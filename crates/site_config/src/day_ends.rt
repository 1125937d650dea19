//! The time of the day at which a served day ends, and the zone in which it is that time.
ghost use Rattle.std.specs.Prelude.{◌≡◌, ◌≢◌, ◌≤◌, ◌<◌, ◌+◌, ◌%◌, false, Err, IfSome, option_map};
ghost use Rattle.std.specs.Str.{bytes_eq};
ghost use Rattle.site_config.specs.DayEnds.{time_text, minute_of, day_ends_of, is_zone_byte, are_zone_parts};
ghost use Rattle.site_config.specs.DayEnds.{is_zone_name, zone_in, zone_of};
ghost use Rattle.arrayvec.specs.ArrayString.{ArrayString as Name};
ghost use Rattle.site_config.specs.Document.{Finds};

use crate::flaw::{ConfigFlaw, Key, Place, Section};
use arrayvec::ArrayString;

/// The most bytes of a zone's name.
const MOST_OF_NAME: usize = 64;

/// The name of a time zone, such as `Europe/Berlin`.
pub type ZoneName = ArrayString<MOST_OF_NAME>;

/// A minute of the day: 0 to 1,439 of them are over.
#[derive(Clone, Copy)]
pub struct TimeOfDay {
    minute: u32,
    ghost in_day: { minute < 1440 },
}

impl TimeOfDay {
    pub fn minute(self) -> u32
        ensures minute { result ≡ self.minute }
        ensures bound { result ≤ 1439 }
    {
        self.minute
    }
}

fn digit(n: u32) -> u8
    ensures { result ≡ 48 + n % 10 }
{
    b'0' + (n % 10) as u8
}

/// The time of the day when so many minutes of it are over, as in 04:00.
fn time_text(minute: u32) -> [u8; 5]
    ensures { result ≡ time_text minute }
{
    let hour = minute / 60;
    let rest = minute % 60;
    [
        digit(hour / 10),
        digit(hour),
        b':',
        digit(rest / 10),
        digit(rest),
    ]
}

fn is_time(minute: u32, text: &str) -> bool
    ensures { result ≡ bytes_eq (time_text minute) text.now }
{
    time_text(minute).as_slice() == text.as_bytes()
}

/// The minute of the day whose time the text is; `None` if it is no time from 00:00 to 23:59.
#[tactic(auto, using(crate::proofs::Minutes::in_day), unfolding(crate::specs::DayEnds::minute_of))]
fn minute_of(text: &str) -> Option<u32>
    ensures found { result ≡ minute_of text.now }
    ensures bound { IfSome result (λ minute. minute < 1440) }
{
    (0..1440).find(|minute| is_time(*minute, text))
}

/// The time of the day that the text is; `None` if it is no time from 00:00 to 23:59.
pub fn time_of(text: &str) -> Option<TimeOfDay>
    ensures { option_map (λ (t : TimeOfDay). t.minute) result ≡ minute_of text.now }
{
    match minute_of(text) {
        Some(minute) => Some(TimeOfDay { minute }),
        None => None,
    }
}

/// When a day ends; `None` if its key isn't given. The value of the key has to be a time.
pub fn day_ends_of(value: Option<Option<TimeOfDay>>) -> Result<Option<TimeOfDay>, ConfigFlaw>
    ensures read { Finds (option_map (λ (t : TimeOfDay). t.minute)) result
        (day_ends_of (option_map (option_map (λ (t : TimeOfDay). t.minute)) value)) }
    ensures memory { result ≢ Err ConfigFlaw.OutOfMemory }
{
    match value {
        None => Ok(None),
        Some(None) => Err(ConfigFlaw::NotTimeOfDay(Place::At(Section::Serve, Key::DayEnds))),
        Some(Some(time)) => Ok(Some(time)),
    }
}

fn is_zone_byte(byte: u8) -> bool
    ensures { result ≡ is_zone_byte byte }
{
    byte.is_ascii_alphanumeric() || byte == b'+' || byte == b'-' || byte == b'_'
}

/// Whether the bytes are parts with `/` between them, none of them empty and each of bytes that a zone's name may have.
fn are_zone_parts(bytes: &[u8]) -> bool
    ensures { result ≡ are_zone_parts false bytes.now }
{
    let mut has_begun = false;
    for byte in bytes {
        let is_slash = *byte == b'/';
        if is_slash && !has_begun {
            return false;
        }
        if !is_slash && !is_zone_byte(*byte) {
            return false;
        }
        has_begun = !is_slash;
    }
    has_begun
}

fn is_zone_name(text: &str) -> bool
    ensures { result ≡ is_zone_name text.now }
{
    text.len() <= MOST_OF_NAME && are_zone_parts(text.as_bytes())
}

/// The zone that the text names; `None` if it can't be a zone's name.
pub fn zone_in(text: &str) -> Option<ZoneName>
    ensures { option_map (λ (name : Name). name.bytes) result ≡ zone_in text.now }
{
    if is_zone_name(text) {
        ZoneName::from(text).ok()
    } else {
        None
    }
}

/// The zone in which a day ends at its time; `None` if its key isn't given. The value of the key has to be a zone's name.
pub fn zone_of(value: Option<Option<ZoneName>>) -> Result<Option<ZoneName>, ConfigFlaw>
    ensures read { Finds (option_map (λ (name : Name). name.bytes)) result
        (zone_of (option_map (option_map (λ (name : Name). name.bytes)) value)) }
    ensures memory { result ≢ Err ConfigFlaw.OutOfMemory }
{
    match value {
        None => Ok(None),
        Some(None) => Err(ConfigFlaw::NotZoneName(Place::At(Section::Serve, Key::Zone))),
        Some(Some(name)) => Ok(Some(name)),
    }
}
