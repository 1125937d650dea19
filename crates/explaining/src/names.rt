//! The names of what a rule can be given by words, and the numbers that each takes.

ghost use Rattle.std.specs.Prelude.{◌≡◌, ◌==◌, codes};
ghost use Rattle.std.specs.List.{before_first};
ghost use Rattle.std.specs.Option.{option_copied};
ghost use Rattle.explaining.specs.Named.{behind, context_name, counter_name, index_in, kind_named, least_of, most_of, name_of};
ghost use Rattle.explaining.specs.Named.{numbered_name, point_name, point_part, price_name, setting_by, setting_of};
ghost use Rattle.explaining.specs.Named.{counter_setting, value_in, value_of};

use till_request::numbers::{number_u32, number_u64};

/// A field of what a rule is given: of its context, or of counter, point or product N.
#[derive(Clone, Copy, PartialEq)]
pub enum Name {
    Till,
    Point,
    Kind,
    State,
    Nozzle,
    Product,
    Asked,
    Moment,
    Price,
    BusyPoints,
    Unpaid,
    Slot,
    Cleared,
    Clears,
    OpenPoints,
    Counter(u32),
    PointState(u32),
    PointNozzle(u32),
    PointAmount(u32),
    PriceOf(u32),
}

/// A field and its number. `bound` is 0 but for a counter.
#[derive(Clone, Copy)]
pub struct Setting {
    pub name: Name,
    pub number: u64,
    pub bound: u64,
}

fn before_equals(text: &str) -> &str
    ensures { result.now ≡ before_first (λ byte. byte == 61) text.now }
{
    match text.split_once('=') {
        Some((front, _)) => front,
        None => text,
    }
}

fn behind_equals(text: &str) -> Option<&str>
    ensures { option_copied result ≡ behind 61 text.now }
{
    match text.split_once('=') {
        Some((_, rest)) => Some(rest),
        None => None,
    }
}

fn before_dot(text: &str) -> &str
    ensures { result.now ≡ before_first (λ byte. byte == 46) text.now }
{
    match text.split_once('.') {
        Some((front, _)) => front,
        None => text,
    }
}

fn behind_dot(text: &str) -> Option<&str>
    ensures { option_copied result ≡ behind 46 text.now }
{
    match text.split_once('.') {
        Some((_, rest)) => Some(rest),
        None => None,
    }
}

fn before_slash(text: &str) -> &str
    ensures { result.now ≡ before_first (λ byte. byte == 47) text.now }
{
    match text.split_once('/') {
        Some((front, _)) => front,
        None => text,
    }
}

fn behind_slash(text: &str) -> Option<&str>
    ensures { option_copied result ≡ behind 47 text.now }
{
    match text.split_once('/') {
        Some((_, rest)) => Some(rest),
        None => None,
    }
}

fn context_name(text: &str) -> Option<Name>
    ensures { result ≡ context_name text.now }
{
    match text {
        "till" => Some(Name::Till),
        "point" => Some(Name::Point),
        "kind" => Some(Name::Kind),
        "state" => Some(Name::State),
        "nozzle" => Some(Name::Nozzle),
        "product" => Some(Name::Product),
        "asked" => Some(Name::Asked),
        "moment" => Some(Name::Moment),
        "price" => Some(Name::Price),
        "busy_points" => Some(Name::BusyPoints),
        "unpaid" => Some(Name::Unpaid),
        "slot" => Some(Name::Slot),
        "cleared" => Some(Name::Cleared),
        "clears" => Some(Name::Clears),
        "open_points" => Some(Name::OpenPoints),
        _ => None,
    }
}

/// The number of `least` to `most` that a text writes.
fn index_in(least: u32, most: u32, text: &str) -> Option<u32>
    ensures { result ≡ index_in least most text.now }
{
    match number_u32(text.as_bytes()) {
        Ok(number) => {
            if least <= number && number <= most {
                Some(number)
            } else {
                None
            }
        }
        Err(_) => None,
    }
}

fn counter_name(rest: &str) -> Option<Name>
    ensures { result ≡ counter_name rest.now }
{
    match index_in(0, 31, rest) {
        Some(number) => Some(Name::Counter(number)),
        None => None,
    }
}

fn price_name(rest: &str) -> Option<Name>
    ensures { result ≡ price_name rest.now }
{
    match index_in(1, 8, rest) {
        Some(number) => Some(Name::PriceOf(number)),
        None => None,
    }
}

fn point_part(number: u32, part: &str) -> Option<Name>
    ensures { result ≡ point_part number part.now }
{
    match part {
        "state" => Some(Name::PointState(number)),
        "nozzle" => Some(Name::PointNozzle(number)),
        "amount" => Some(Name::PointAmount(number)),
        _ => None,
    }
}

fn point_name(rest: &str) -> Option<Name>
    ensures { result ≡ point_name rest.now }
{
    match index_in(1, 32, before_dot(rest)) {
        Some(number) => match behind_dot(rest) {
            Some(part) => point_part(number, part),
            None => None,
        },
        None => None,
    }
}

fn numbered_name(head: &str, rest: &str) -> Option<Name>
    ensures { result ≡ numbered_name head.now rest.now }
{
    match head {
        "counter" => counter_name(rest),
        "price" => price_name(rest),
        "point" => point_name(rest),
        _ => None,
    }
}

/// The field that a text names, as `asked`, `price.2` or `point.3.state`.
pub(crate) fn name_of(text: &str) -> Option<Name>
    ensures { result ≡ name_of text.now }
{
    match behind_dot(text) {
        Some(rest) => numbered_name(before_dot(text), rest),
        None => context_name(text),
    }
}

/// The least number that a field takes.
pub(crate) fn least_of(name: Name) -> u64
    ensures { result ≡ least_of name }
{
    match name {
        Name::Kind => 1,
        _ => 0,
    }
}

/// The largest number that a field takes.
pub(crate) fn most_of(name: Name) -> u64
    ensures { result ≡ most_of name }
{
    match name {
        Name::Till | Name::Price | Name::Unpaid | Name::PriceOf(_) => 4_294_967_295,
        Name::Point | Name::BusyPoints | Name::OpenPoints => 32,
        Name::Kind => 3,
        Name::State | Name::PointState(_) => 9,
        Name::Nozzle | Name::Product | Name::PointNozzle(_) => 8,
        Name::Slot => 15,
        Name::Asked
        | Name::Moment
        | Name::Cleared
        | Name::Clears
        | Name::Counter(_)
        | Name::PointAmount(_) => 18_446_744_073_709_551_615,
    }
}

fn kind_named(text: &str) -> Option<u64>
    ensures { result ≡ kind_named text.now }
{
    match text {
        "release" => Some(1),
        "preset" => Some(2),
        "price" => Some(3),
        _ => None,
    }
}

fn value_in(name: Name, text: &str) -> Option<u64>
    ensures { result ≡ value_in name text.now }
{
    match number_u64(text.as_bytes()) {
        Ok(number) => {
            if least_of(name) <= number && number <= most_of(name) {
                Some(number)
            } else {
                None
            }
        }
        Err(_) => None,
    }
}

/// The number that a text gives a field; of the kind also by its word.
fn value_of(name: Name, text: &str) -> Option<u64>
    ensures { result ≡ value_of name text.now }
{
    match name {
        Name::Kind => match kind_named(text) {
            Some(number) => Some(number),
            None => value_in(name, text),
        },
        _ => value_in(name, text),
    }
}

fn counter_setting(number: u32, value: &str, bound: &str) -> Option<Setting>
    ensures { result ≡ counter_setting number value.now bound.now }
{
    let name = Name::Counter(number);
    let value = value_in(name, value)?;
    let bound = value_in(name, bound)?;
    if value <= bound {
        Some(Setting {
            name,
            number: value,
            bound,
        })
    } else {
        None
    }
}

fn setting_by(name: Name, text: &str) -> Option<Setting>
    ensures { result ≡ setting_by name text.now }
{
    match name {
        Name::Counter(number) => match behind_slash(text) {
            Some(bound) => counter_setting(number, before_slash(text), bound),
            None => counter_setting(number, text, "18446744073709551615"),
        },
        _ => {
            let number = value_of(name, text)?;
            Some(Setting {
                name,
                number,
                bound: 0,
            })
        }
    }
}

/// The field and the number that a word gives, as `asked=8000`; `None` if it gives none.
pub fn setting_of(word: &str) -> Option<Setting>
    // proved: A word NAME=NUMBER gives that field that number, if it takes it | counter_above_its_bound
    ensures { result ≡ setting_of word.now }
{
    match behind_equals(word) {
        Some(text) => match name_of(before_equals(word)) {
            Some(name) => setting_by(name, text),
            None => None,
        },
        None => None,
    }
}
