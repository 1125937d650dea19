//! Reads the keys of a document, and checks them and the types of their values (K2).
ghost use Rattle.std.specs.Prelude.{◌≡◌, Err};
ghost use Rattle.toml.specs.View.{view, table_view, items_view};
ghost use Rattle.site_config.specs.Document.{Finds};
ghost use Rattle.site_config.specs.Typed.{pair_in, point_in, counter_in, each_in, integers_at, points_at};
ghost use Rattle.site_config.specs.Typed.{counters_at, typed_of, seen};
ghost use Rattle.site_config.specs.Memory.{KeepsFirst, TakesPair, TakesPoint, TakesCounter, TakesIntegers};
ghost use Rattle.site_config.specs.Memory.{TakesPoints, TakesCounters, TakesTyped};

use crate::flaw::{ConfigFlaw, Key, Place, Section};
use crate::raw::Raw;
use crate::served::find_served;
use crate::values::{
    array_of, check_keys, find_array, find_value, read_integer, read_integers, table_of,
};
use std::alloc::Global;
use toml::{Table, Value};

/// Reads the numbers of two keys from `value`, which stands at `place` and has to be a table with no other keys than
/// those of `section`.
#[tactic(auto, unfolding(crate::specs::Typed::pair_in, crate::specs::Memory::TakesPair))]
fn read_pair(
    alloc: Global,
    value: &Value,
    place: Place,
    section: Section,
    keys: (Key, Key),
) -> Result<(i64, i64), ConfigFlaw>
    ensures read { Finds (λ x. x) result (pair_in place section keys (view value.now)) }
    ensures memory { result ≡ Err ConfigFlaw.OutOfMemory → TakesPair place section (view value.now) }
{
    let table = value_of!(table_of(value, place));
    value_of!(check_keys(alloc, table, section));
    let first = value_of!(read_integer(table, section, keys.0));
    let second = value_of!(read_integer(table, section, keys.1));
    Ok((first, second))
}

#[tactic(auto, unfolding(crate::specs::Typed::point_in, crate::specs::Memory::TakesPoint))]
fn read_point(alloc: Global, value: &Value, place: usize) -> Result<(i64, i64), ConfigFlaw>
    ensures read { Finds (λ x. x) result (point_in place (view value.now)) }
    ensures memory { result ≡ Err ConfigFlaw.OutOfMemory → TakesPoint place (view value.now) }
{
    let keys = (Key::Release, Key::Preset);
    read_pair(
        alloc,
        value,
        Place::Item(Section::Top, Key::Point, place),
        Section::Point(place),
        keys,
    )
}

#[tactic(auto, unfolding(crate::specs::Typed::counter_in, crate::specs::Memory::TakesCounter))]
fn read_counter(alloc: Global, value: &Value, place: usize) -> Result<(i64, i64), ConfigFlaw>
    ensures read { Finds (λ x. x) result (counter_in place (view value.now)) }
    ensures memory { result ≡ Err ConfigFlaw.OutOfMemory → TakesCounter place (view value.now) }
{
    let keys = (Key::Value, Key::Bound);
    read_pair(
        alloc,
        value,
        Place::Counter(place),
        Section::Counter(place),
        keys,
    )
}

/// The slots of each point: `release`, then `preset`.
fn read_points(alloc: Global, values: &[Value]) -> Result<Vec<(i64, i64)>, ConfigFlaw>
    ensures read { Finds (λ v. v.items) result (each_in point_in 0 (items_view values.now)) }
    ensures memory { result ≡ Err ConfigFlaw.OutOfMemory → KeepsFirst point_in TakesPoint (items_view values.now) }
{
    let mut pairs = Vec::new(alloc);
    for value in values {
        room_for!(pairs.push(value_of!(read_point(alloc, value, pairs.len()))));
    }
    Ok(pairs)
}

/// The value and the bound of each counter.
fn read_counters(alloc: Global, values: &[Value]) -> Result<Vec<(i64, i64)>, ConfigFlaw>
    ensures read { Finds (λ v. v.items) result (each_in counter_in 0 (items_view values.now)) }
    ensures memory { result ≡ Err ConfigFlaw.OutOfMemory → KeepsFirst counter_in TakesCounter (items_view values.now) }
{
    let mut pairs = Vec::new(alloc);
    for value in values {
        room_for!(pairs.push(value_of!(read_counter(alloc, value, pairs.len()))));
    }
    Ok(pairs)
}

#[tactic(auto, unfolding(crate::specs::Typed::integers_at, crate::specs::Memory::TakesIntegers))]
fn find_prices(alloc: Global, table: &Table) -> Result<Vec<i64>, ConfigFlaw>
    ensures read { Finds (λ v. v.items) result (integers_at Section.Top Key.Prices (table_view table.now)) }
    ensures memory { result ≡ Err ConfigFlaw.OutOfMemory → TakesIntegers Section.Top Key.Prices (table_view table.now) }
{
    let values = value_of!(find_array(table, Section::Top, Key::Prices));
    read_integers(alloc, values, Section::Top, Key::Prices)
}

#[tactic(auto, unfolding(crate::specs::Typed::points_at, crate::specs::Memory::TakesPoints))]
fn find_points(alloc: Global, table: &Table) -> Result<Vec<(i64, i64)>, ConfigFlaw>
    ensures read { Finds (λ v. v.items) result (points_at (table_view table.now)) }
    ensures memory { result ≡ Err ConfigFlaw.OutOfMemory → TakesPoints (table_view table.now) }
{
    let values = value_of!(find_array(table, Section::Top, Key::Point));
    read_points(alloc, values)
}

#[tactic(auto, unfolding(crate::specs::Typed::counters_at, crate::specs::Memory::TakesCounters))]
fn find_counters(alloc: Global, table: &Table) -> Result<Vec<(i64, i64)>, ConfigFlaw>
    ensures read { Finds (λ v. v.items) result (counters_at (table_view table.now)) }
    ensures memory { result ≡ Err ConfigFlaw.OutOfMemory → TakesCounters (table_view table.now) }
{
    match find_value(table, Key::Counter.name()) {
        Some(value) => {
            let values = value_of!(array_of(value, Place::At(Section::Top, Key::Counter)));
            read_counters(alloc, values)
        }
        None => Ok(Vec::new(alloc)),
    }
}

/// Reads the values of all keys.
#[tactic(auto, unfolding(crate::specs::Typed::typed_of, crate::specs::Memory::TakesTyped))]
pub fn read_typed(alloc: Global, table: &Table) -> Result<Raw, ConfigFlaw>
    ensures read { Finds seen result (typed_of (table_view table.now)) }
    ensures memory { result ≡ Err ConfigFlaw.OutOfMemory → TakesTyped (table_view table.now) }
{
    let section = Section::Top;
    value_of!(check_keys(alloc, table, section));
    let tills = value_of!(read_integer(table, section, Key::Tills));
    let price_slot = value_of!(read_integer(table, section, Key::PriceSlot));
    let prices = value_of!(find_prices(alloc, table));
    let points = value_of!(find_points(alloc, table));
    let counters = value_of!(find_counters(alloc, table));
    let serve = value_of!(find_served(alloc, table));
    Ok(Raw {
        tills,
        price_slot,
        prices,
        points,
        counters,
        serve,
    })
}
