//! Checks the values of a configuration (K3), and makes the settings from them.
ghost use Rattle.std.specs.Prelude.{◌≡◌, ◌≢◌, ◌≤◌, ◌-◌, ◌++◌, length, replicate, option_map, IfErr, IfOk, All};
ghost use Rattle.std.specs.Prelude.{None, Some, Err, IsOkAnd, IsSomeAnd, true};
ghost use Rattle.std.specs.Str.{is_utf8};
ghost use Rattle.toml.specs.Data.{Members};
ghost use Rattle.toml.specs.Errors.{IsBlank};
ghost use Rattle.toml.specs.View.{table_view};
ghost use Rattle.site_core.specs.Limits.{IsCounter};
ghost use Rattle.site_config.specs.Document.{Finds, Gives, document_of, each_of};
ghost use Rattle.site_config.specs.Flaws.{HasRightPosition, numbered};
ghost use Rattle.site_config.specs.Typed.{seen, seen_serve};
ghost use Rattle.site_config.specs.Demands.{ranged};
ghost use Rattle.site_config.specs.Doors.{serve_seen};
ghost use Rattle.site_config.specs.Ranges.{price_of, point_of, counter_of, prices_of, points_of, counters_of};
ghost use Rattle.site_config.specs.Ranges.{serve_from, settings_of_typed, settings_view, settings_of, config_of};
ghost use Rattle.site_config.specs.Memory.{MakesFirst, HasDoors, TakesPrices, TakesSettings, TakesDocument};
ghost use Rattle.bpf_model.specs.declared.limits.TheConstants.{COUNTERS, POINTS};

use crate::document::read_document;
use crate::doors::make_serve;
use crate::fault::ConfigFault;
use crate::flaw::{ConfigFlaw, Key, Place, Section};
use crate::number::in_range;
use crate::raw::{Raw, Served};
use crate::settings::{Serve, Settings};
use crate::typed::read_typed;
use site_core::Config;
use std::alloc::Global;
use toml::Table;

/// The greatest value and bound of a counter: the greatest number of a document.
const MOST_COUNTER: u64 = 9_223_372_036_854_775_807;

/// The greatest price of a litre, in thousandths of the currency.
const MOST_PRICE: u32 = 9_999_999;

fn not_negative(place: Place, value: i64) -> Result<u64, ConfigFlaw>
    ensures read { Finds (λ x. x) result (ranged place 0 MOST_COUNTER value) }
    ensures memory { result ≢ Err ConfigFlaw.OutOfMemory }
{
    match u64::try_from(value) {
        Ok(number) => Ok(number),
        Err(_) => Err(ConfigFlaw::OutOfRange(place, value, 0, MOST_COUNTER)),
    }
}

fn wrong_count(key: Key, count: usize, low: usize, high: usize) -> ConfigFlaw
    ensures { result ≡ ConfigFlaw.WrongCount (Place.At Section.Top key) count low high }
{
    ConfigFlaw::WrongCount(Place::At(Section::Top, key), count, low, high)
}

#[tactic(auto, unfolding(crate::specs::Ranges::point_of))]
fn make_point(place: usize, pair: (i64, i64)) -> Result<(u32, u32), ConfigFlaw>
    ensures read { Finds (λ x. x) result (point_of place pair) }
    ensures range { IfOk result (λ p. (p.0 ≤ 15) × (p.1 ≤ 15)) }
    ensures memory { result ≢ Err ConfigFlaw.OutOfMemory }
{
    let section = Section::Point(place);
    let release = value_of!(in_range(Place::At(section, Key::Release), pair.0, 0, 15));
    let preset = value_of!(in_range(Place::At(section, Key::Preset), pair.1, 0, 15));
    Ok((release, preset))
}

#[tactic(auto, unfolding(crate::specs::Ranges::counter_of))]
fn make_counter(place: usize, pair: (i64, i64)) -> Result<(u64, u64), ConfigFlaw>
    ensures read { Finds (λ x. x) result (counter_of place pair) }
    ensures range { IfOk result IsCounter }
    ensures memory { result ≢ Err ConfigFlaw.OutOfMemory }
{
    let section = Section::Counter(place);
    let value = value_of!(not_negative(Place::At(section, Key::Value), pair.0));
    let bound = value_of!(not_negative(Place::At(section, Key::Bound), pair.1));
    if value > bound {
        return Err(ConfigFlaw::OverBound(place, value, bound));
    }
    Ok((value, bound))
}

/// The price of the product at `place`, counted from 0: 0 to 9,999,999.
fn make_price(place: usize, value: i64) -> Result<u32, ConfigFlaw>
    ensures read { Finds (λ x. x) result (price_of place value) }
    ensures range { IfOk result (λ price. price ≤ MOST_PRICE) }
    ensures memory { result ≢ Err ConfigFlaw.OutOfMemory }
{
    in_range(
        Place::Item(Section::Top, Key::Prices, place),
        value,
        0,
        MOST_PRICE,
    )
}

fn each_price(alloc: Global, values: &[i64]) -> Result<Vec<u32>, ConfigFlaw>
    ensures read { Finds (λ v. v.items) result (each_of price_of 0 values.now) }
    ensures memory { result ≡ Err ConfigFlaw.OutOfMemory → MakesFirst (price_of 0) values.now }
    ensures each { IfOk result (λ v. length v.items ≡ length values.now) }
    ensures range { IfOk result (λ v. All (λ price. price ≤ MOST_PRICE) v.items) }
{
    let mut prices = Vec::new(alloc);
    for value in values {
        let place = prices.len();
        let price = match make_price(place, *value) {
            Ok(price) => price,
            Err(flaw) => return Err(flaw),
        };
        prices.push(price)?;
    }
    Ok(prices)
}

fn eight_of(list: &[u32]) -> [u32; 8]
    requires { length list.now ≡ 8 }
    ensures { result ≡ list.now }
{
    let mut array = [0; 8];
    array.copy_from_slice(list);
    array
}

#[tactic(auto, unfolding(crate::specs::Ranges::prices_of, crate::specs::Memory::TakesPrices))]
fn make_prices(alloc: Global, values: &[i64]) -> Result<[u32; 8], ConfigFlaw>
    ensures read { Finds (λ x. x) result (prices_of values.now) }
    ensures memory { result ≡ Err ConfigFlaw.OutOfMemory → TakesPrices values.now }
    ensures range { IfOk result (All (λ price. price ≤ MOST_PRICE)) }
{
    if values.len() != 8 {
        return Err(wrong_count(Key::Prices, values.len(), 8, 8));
    }
    let prices = value_of!(each_price(alloc, values));
    Ok(eight_of(prices.as_slice()))
}

fn each_point(alloc: Global, pairs: &[(i64, i64)]) -> Result<Vec<(u32, u32)>, ConfigFlaw>
    ensures read { Finds (λ v. v.items) result (each_of point_of 0 pairs.now) }
    ensures memory { result ≡ Err ConfigFlaw.OutOfMemory → MakesFirst (point_of 0) pairs.now }
    ensures each { IfOk result (λ v. length v.items ≡ length pairs.now) }
    ensures range { IfOk result (λ v. All (λ p. (p.0 ≤ 15) × (p.1 ≤ 15)) v.items) }
{
    let mut points = Vec::new(alloc);
    for pair in pairs {
        room_for!(points.push(value_of!(make_point(points.len(), *pair))));
    }
    Ok(points)
}

#[tactic(auto, unfolding(crate::specs::Ranges::points_of))]
fn make_points(alloc: Global, pairs: &[(i64, i64)]) -> Result<Vec<(u32, u32)>, ConfigFlaw>
    ensures read { Finds (λ v. v.items) result (points_of pairs.now) }
    ensures memory { result ≡ Err ConfigFlaw.OutOfMemory
        → (length pairs.now ≤ POINTS) × MakesFirst (point_of 0) pairs.now }
    ensures count { IfOk result (λ v. (1 ≤ length v.items) × (length v.items ≤ POINTS)) }
    ensures range { IfOk result (λ v. All (λ p. (p.0 ≤ 15) × (p.1 ≤ 15)) v.items) }
{
    if pairs.is_empty() || pairs.len() > 32 {
        return Err(wrong_count(Key::Point, pairs.len(), 1, 32));
    }
    each_point(alloc, pairs)
}

fn each_counter(alloc: Global, pairs: &[(i64, i64)]) -> Result<Vec<(u64, u64)>, ConfigFlaw>
    ensures read { Finds (λ v. v.items) result (each_of counter_of 0 pairs.now) }
    ensures memory { result ≡ Err ConfigFlaw.OutOfMemory → MakesFirst (counter_of 0) pairs.now }
    ensures each { IfOk result (λ v. length v.items ≡ length pairs.now) }
    ensures range { IfOk result (λ v. All IsCounter v.items) }
{
    let mut counters = Vec::new(alloc);
    for pair in pairs {
        room_for!(counters.push(value_of!(make_counter(counters.len(), *pair))));
    }
    Ok(counters)
}

/// Copies at most 32 counters, each within its bound, and fills up with 0 and bound 0.
fn table_of(list: &[(u64, u64)]) -> [(u64, u64); 32]
    requires room { length list.now ≤ COUNTERS }
    requires range { All IsCounter list.now }
    ensures after { result ≡ list.now ++ replicate (COUNTERS - length list.now) (0, 0) }
    ensures range { All IsCounter result }
{
    let mut array = [(0, 0); 32];
    array[..list.len()].copy_from_slice(list);
    array
}

#[tactic(auto, unfolding(crate::specs::Ranges::counters_of))]
fn make_counters(alloc: Global, pairs: &[(i64, i64)]) -> Result<[(u64, u64); 32], ConfigFlaw>
    ensures read { Finds (λ x. x) result (counters_of pairs.now) }
    ensures memory { result ≡ Err ConfigFlaw.OutOfMemory
        → (length pairs.now ≤ COUNTERS) × MakesFirst (counter_of 0) pairs.now }
    ensures range { IfOk result (All IsCounter) }
{
    if pairs.len() > 32 {
        return Err(wrong_count(Key::Counter, pairs.len(), 0, 32));
    }
    let counters = value_of!(each_counter(alloc, pairs));
    Ok(table_of(counters.as_slice()))
}

fn maybe_serve(
    alloc: Global,
    tills: u32,
    points: u32,
    served: &Option<Served>,
) -> Result<Option<Serve>, ConfigFlaw>
    requires { points ≤ POINTS }
    ensures read { Finds (option_map serve_seen) result (serve_from tills points (option_map seen_serve served.now)) }
    ensures memory { result ≡ Err ConfigFlaw.OutOfMemory
        → IsOkAnd (serve_from tills points (option_map seen_serve served.now)) (λ s. IsSomeAnd s HasDoors) }
{
    match served {
        Some(served) => Ok(Some(value_of!(make_serve(alloc, tills, points, served)))),
        None => Ok(None),
    }
}

/// Checks the values of a document's keys (K3), and makes the settings.
#[tactic(auto, using(crate::proofs::Making::prices_made), unfolding(crate::specs::Ranges::settings_of_typed, crate::specs::Memory::TakesSettings))]
fn make_settings(alloc: Global, raw: &Raw) -> Result<Settings, ConfigFlaw>
    ensures read { Finds settings_view result (settings_of_typed (seen raw.now)) }
    ensures memory { result ≡ Err ConfigFlaw.OutOfMemory → TakesSettings (seen raw.now) }
{
    let section = Section::Top;
    let tills = value_of!(in_range(Place::At(section, Key::Tills), raw.tills, 1, 64));
    let price_slot = value_of!(in_range(
        Place::At(section, Key::PriceSlot),
        raw.price_slot,
        0,
        15,
    ));
    let prices = value_of!(make_prices(alloc, &raw.prices));
    let points = value_of!(make_points(alloc, &raw.points));
    let counters = value_of!(make_counters(alloc, &raw.counters));
    let serve = value_of!(maybe_serve(alloc, tills, points.len() as u32, &raw.serve));
    match Config::new(tills, price_slot, prices, points, counters) {
        Some(config) => Ok(Settings { config, serve }),
        None => unreachable!(),
    }
}

/// Reads the settings of a document: keys and types first (K2), then values (K3).
#[tactic(auto, unfolding(crate::specs::Ranges::settings_of, crate::specs::Memory::TakesDocument))]
fn settings_in(alloc: Global, document: &Table) -> Result<Settings, ConfigFlaw>
    ensures read { Finds settings_view result (settings_of (table_view document.now)) }
    ensures memory { result ≡ Err ConfigFlaw.OutOfMemory → TakesDocument (table_view document.now) }
{
    let raw = value_of!(read_typed(alloc, document));
    make_settings(alloc, &raw)
}

/// Reads the settings of a text. The error is its first flaw: it is no TOML (K1), keys or types are wrong (K2), or
/// values are (K3).
#[tactic(auto, unfolding(crate::specs::Ranges::config_of))]
pub fn read_settings(alloc: Global, bytes: &[u8]) -> Result<Settings, ConfigFlaw>
    // proved: The same, with a flaw of the fault's number
    ensures found { Gives settings_view (numbered result) (config_of bytes.now) }
    // proved: The flaw is the document's first, with the key that it names
    ensures named { (document : Members) → document_of bytes.now ≡ Some document
        → Finds settings_view result (settings_of document) }
    // proved: It names the line and column of a fault (K1)
    ensures position { document_of bytes.now ≡ None → IfErr result (HasRightPosition bytes.now) }
    // proved: It takes memory only for UTF-8 that isn't blank
    ensures memory { result ≡ Err ConfigFlaw.OutOfMemory → (is_utf8 bytes.now ≡ true) × (¬ IsBlank bytes.now) }
{
    match read_document(alloc, bytes) {
        Ok(document) => settings_in(alloc, &document),
        Err(flaw) => Err(flaw),
    }
}

/// As `read_settings`, with the fault's number alone.
pub fn read_config(alloc: Global, bytes: &[u8]) -> Result<Settings, ConfigFault>
    // proved: It is Ok exactly with what the document says
    ensures found { Gives settings_view result (config_of bytes.now) }
    ensures memory { result ≡ Err ConfigFault.OutOfMemory → (is_utf8 bytes.now ≡ true) × (¬ IsBlank bytes.now) }
{
    match read_settings(alloc, bytes) {
        Ok(settings) => Ok(settings),
        Err(flaw) => Err(flaw.fault()),
    }
}
