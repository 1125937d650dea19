//! Reads the values of keys, and checks which are given and their types (K2).
ghost use Rattle.std.specs.Prelude.{◌≡◌, ◌≢◌, Err, not, option_map, string_bytes};
ghost use Rattle.std.specs.List.{find};
ghost use Rattle.std.specs.BTreeMap.{keys};
ghost use Rattle.toml.specs.View.{view, table_view, items_view};
ghost use Rattle.toml.specs.Data.{as_str, get_member};
ghost use Rattle.site_config.specs.Document.{Finds};
ghost use Rattle.site_config.specs.Typed.{is_top_key, is_point_key, is_counter_key, is_serve_key, is_till_key};
ghost use Rattle.site_config.specs.Typed.{is_port_key, is_socket_key, is_number_key, is_dispenser_key};
ghost use Rattle.site_config.specs.Typed.{is_key_of, other_key, known_in, has_key, integer_of, text_of, table_of};
ghost use Rattle.site_config.specs.Typed.{array_of, integer_at, integer_in, array_at, each_in};
ghost use Rattle.site_config.specs.Typed.{limit_of, limit_at, optional_at, stray_by};
ghost use Rattle.site_config.specs.Memory.{CopiesKey, KeepsFirst, TakesNone};

use crate::flaw::{ConfigFlaw, Key, Place, Section, Type};
use crate::text::Text;
use std::alloc::Global;
use till_request::Stray;
use toml::{Table, Value};

pub fn find_value<'a>(table: &'a Table, key: &str) -> Option<&'a Value>
    ensures { option_map (λ v. view v.now) result ≡ get_member key.now (table_view table.now) }
{
    table.get(key)
}

pub fn has_key(table: &Table, key: Key) -> bool
    ensures { result ≡ has_key key (table_view table.now) }
{
    find_value(table, key.name()).is_some()
}

fn is_known(section: Section, key: &str) -> bool
    ensures { result ≡ is_key_of section key.now }
{
    match section {
        Section::Top => is_top(key),
        Section::Point(_) => is_point(key),
        Section::Counter(_) => is_counter(key),
        Section::Serve => is_serve(key),
        Section::Till(_) => is_till(key),
        Section::Dispenser(_) => is_dispenser(key),
    }
}

fn find_unknown(table: &Table, section: Section) -> Option<&String>
    ensures { option_map (λ key. key.now) result ≡ find (λ key. not (is_key_of section (string_bytes key))) (keys
        table.now) }
{
    table.keys().find(|key| !is_known(section, key.as_str()))
}

/// The first key of `table`, by its bytes, that this section doesn't have.
fn unknown_key(table: &Table, section: Section) -> Option<&str>
    ensures { option_map (λ key. key.now) result ≡ other_key (is_key_of section) (table_view table.now) }
{
    match find_unknown(table, section) {
        Some(key) => Some(key.as_str()),
        None => None,
    }
}

/// A whole number; `place` is where it stands.
pub fn integer_of(value: &Value, place: Place) -> Result<i64, ConfigFlaw>
    ensures read { Finds (λ x. x) result (integer_of place (view value.now)) }
    ensures memory { result ≢ Err ConfigFlaw.OutOfMemory }
{
    value
        .as_integer()
        .ok_or(ConfigFlaw::WrongType(place, Type::Integer))
}

/// A whole number, or `None` for `"unlimited"`; `place` is where it stands.
fn limit_of(value: &Value, place: Place) -> Result<Option<i64>, ConfigFlaw>
    ensures read { Finds (λ x. x) result (limit_of place (view value.now)) }
    ensures memory { result ≢ Err ConfigFlaw.OutOfMemory }
{
    if let Some(number) = value.as_integer() {
        return Ok(Some(number));
    }
    match value.as_str() {
        Some(text) if text == "unlimited" => Ok(None),
        _ => Err(ConfigFlaw::WrongType(place, Type::IntegerOrUnlimited)),
    }
}

/// What a stray line is told: `"L2"` or `"L5"`. `place` is where it stands.
pub fn stray_of(value: &Value, place: Place) -> Result<Stray, ConfigFlaw>
    ensures read { Finds (λ x. x) result (stray_by place (as_str (view value.now))) }
    ensures memory { result ≢ Err ConfigFlaw.OutOfMemory }
{
    match value.as_str() {
        Some(text) if text == "L2" => Ok(Stray::BadLine),
        Some(text) if text == "L5" => Ok(Stray::OtherDoor),
        _ => Err(ConfigFlaw::WrongType(place, Type::L2OrL5)),
    }
}

/// A text; `place` is where it stands.
pub fn text_of(value: &Value, place: Place) -> Result<&str, ConfigFlaw>
    ensures read { Finds (λ t. t.now) result (text_of place (view value.now)) }
    ensures memory { result ≢ Err ConfigFlaw.OutOfMemory }
{
    value
        .as_str()
        .ok_or(ConfigFlaw::WrongType(place, Type::Text))
}

/// A table; `place` is where it stands.
pub fn table_of(value: &Value, place: Place) -> Result<&Table, ConfigFlaw>
    ensures read { Finds (λ t. table_view t.now) result (table_of place (view value.now)) }
    ensures memory { result ≢ Err ConfigFlaw.OutOfMemory }
{
    value
        .as_table()
        .ok_or(ConfigFlaw::WrongType(place, Type::Table))
}

/// An array; `place` is where it stands.
pub fn array_of(value: &Value, place: Place) -> Result<&Vec<Value>, ConfigFlaw>
    ensures read { Finds (λ v. items_view v.now.items) result (array_of place (view value.now)) }
    ensures memory { result ≢ Err ConfigFlaw.OutOfMemory }
{
    value
        .as_array()
        .ok_or(ConfigFlaw::WrongType(place, Type::Array))
}

/// The whole number at a key that must be given.
pub fn read_integer(table: &Table, section: Section, key: Key) -> Result<i64, ConfigFlaw>
    ensures read { Finds (λ x. x) result (integer_at section key (table_view table.now)) }
    ensures memory { result ≢ Err ConfigFlaw.OutOfMemory }
{
    let place = Place::At(section, key);
    match find_value(table, key.name()) {
        Some(value) => integer_of(value, place),
        None => Err(ConfigFlaw::Missing(place)),
    }
}

/// The whole number at a key that must be given, or `None` for `"unlimited"`.
pub fn read_limit(table: &Table, section: Section, key: Key) -> Result<Option<i64>, ConfigFlaw>
    ensures read { Finds (λ x. x) result (limit_at section key (table_view table.now)) }
    ensures memory { result ≢ Err ConfigFlaw.OutOfMemory }
{
    let place = Place::At(section, key);
    match find_value(table, key.name()) {
        Some(value) => limit_of(value, place),
        None => Err(ConfigFlaw::Missing(place)),
    }
}

/// The whole number at a key, 0 if it isn't given.
pub fn read_optional(table: &Table, section: Section, key: Key) -> Result<i64, ConfigFlaw>
    ensures read { Finds (λ x. x) result (optional_at section key (table_view table.now)) }
    ensures memory { result ≢ Err ConfigFlaw.OutOfMemory }
{
    match find_value(table, key.name()) {
        Some(value) => integer_of(value, Place::At(section, key)),
        None => Ok(0),
    }
}

#[tactic(auto, unfolding(crate::specs::Typed::is_top_key))]
fn is_top(key: &str) -> bool
    ensures { result ≡ is_top_key key.now }
{
    key == "tills"
        || key == "price_slot"
        || key == "prices"
        || key == "point"
        || key == "counter"
        || key == "serve"
}

#[tactic(auto, unfolding(crate::specs::Typed::is_point_key))]
fn is_point(key: &str) -> bool
    ensures { result ≡ is_point_key key.now }
{
    key == "release" || key == "preset"
}

#[tactic(auto, unfolding(crate::specs::Typed::is_counter_key))]
fn is_counter(key: &str) -> bool
    ensures { result ≡ is_counter_key key.now }
{
    key == "value" || key == "bound"
}

#[tactic(auto, unfolding(crate::specs::Typed::is_port_key))]
fn is_port(key: &str) -> bool
    ensures { result ≡ is_port_key key.now }
{
    key == "till_port" || key == "dispenser_port" || key == "owner_port" || key == "page_port"
}

#[tactic(auto, unfolding(crate::specs::Typed::is_socket_key))]
fn is_socket(key: &str) -> bool
    ensures { result ≡ is_socket_key key.now }
{
    key == "till_socket" || key == "dispenser_socket" || key == "owner_socket"
}

#[tactic(auto, unfolding(crate::specs::Typed::is_number_key))]
fn is_number(key: &str) -> bool
    ensures { result ≡ is_number_key key.now }
{
    key == "till_workers"
        || key == "dispenser_workers"
        || key == "connections"
        || key == "idle_seconds"
        || key == "lines_per_second"
}

#[tactic(auto, unfolding(crate::specs::Typed::is_serve_key))]
fn is_serve(key: &str) -> bool
    ensures { result ≡ is_serve_key key.now }
{
    is_port(key)
        || is_socket(key)
        || is_number(key)
        || key == "till"
        || key == "dispenser"
        || key == "own_lines"
        || key == "day_ends"
        || key == "zone"
}

#[tactic(auto, unfolding(crate::specs::Typed::is_till_key))]
fn is_till(key: &str) -> bool
    ensures { result ≡ is_till_key key.now }
{
    key == "number" || key == "port" || key == "socket" || key == "lines_per_second"
}

#[tactic(auto, unfolding(crate::specs::Typed::is_dispenser_key))]
fn is_dispenser(key: &str) -> bool
    ensures { result ≡ is_dispenser_key key.now }
{
    key == "points" || key == "port" || key == "socket" || key == "lines_per_second"
}

/// Checks that `table` has no key, by its bytes the first, that this section doesn't have.
pub fn check_keys(alloc: Global, table: &Table, section: Section) -> Result<(), ConfigFlaw>
    ensures read { Finds (λ x. x) result (known_in section (table_view table.now)) }
    ensures memory { result ≡ Err ConfigFlaw.OutOfMemory → CopiesKey section (table_view table.now) }
{
    let Some(key) = unknown_key(table, section) else {
        return Ok(());
    };
    let name = room_for!(Text::copied(alloc, key));
    Err(ConfigFlaw::UnknownKey(section, name))
}

/// The whole numbers of a list.
pub fn read_integers(
    alloc: Global,
    values: &[Value],
    section: Section,
    key: Key,
) -> Result<Vec<i64>, ConfigFlaw>
    ensures read { Finds (λ v. v.items) result (each_in (integer_in section key) 0 (items_view values.now)) }
    ensures memory { result ≡ Err ConfigFlaw.OutOfMemory
        → KeepsFirst (integer_in section key) TakesNone (items_view values.now) }
{
    let mut numbers = Vec::new(alloc);
    for value in values {
        let place = Place::Item(section, key, numbers.len());
        room_for!(numbers.push(value_of!(integer_of(value, place))));
    }
    Ok(numbers)
}

/// The array at a key that must be given.
pub fn find_array(table: &Table, section: Section, key: Key) -> Result<&Vec<Value>, ConfigFlaw>
    ensures read { Finds
        (λ v. items_view v.now.items) result (array_at section key (table_view table.now)) }
    ensures memory { result ≢ Err ConfigFlaw.OutOfMemory }
{
    let place = Place::At(section, key);
    match find_value(table, key.name()) {
        Some(value) => array_of(value, place),
        None => Err(ConfigFlaw::Missing(place)),
    }
}
