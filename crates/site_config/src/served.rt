//! Reads the table `[serve]` and its tables of doors, and checks their keys and types (K2).
ghost use Rattle.std.specs.Prelude.{◌≡◌, ◌≢◌, ◌<◌, Err, IsOkAnd, IsSomeAnd, length, option_map};
ghost use Rattle.arrayvec.specs.ArrayString.{ArrayString as Name};
ghost use Rattle.toml.specs.View.{view, table_view, items_view};
ghost use Rattle.toml.specs.Data.{as_str, get_member};
ghost use Rattle.site_config.specs.Document.{Finds, with_front};
ghost use Rattle.site_config.specs.Keys.{name_of};
ghost use Rattle.site_config.specs.Typed.{text_of, has_shared, door_at, shared_at, workers_at, till_in};
ghost use Rattle.site_config.specs.Typed.{dispenser_in, single_in, each_in, tables_from, owner_at, doors_at};
ghost use Rattle.site_config.specs.Typed.{own_door_at, own_lines_from, page_from, day_ends_from, zone_from};
ghost use Rattle.site_config.specs.Typed.{served_in, served_at, seen_serve};
ghost use Rattle.site_config.specs.Memory.{KeepsFirst, TakesDoor, TakesShared, TakesTill, TakesDispenser};
ghost use Rattle.site_config.specs.Memory.{TakesSingle, TakesTables, TakesDoors, TakesServed};

use crate::day_ends::{TimeOfDay, ZoneName, time_of, zone_in};
use crate::flaw::{ConfigFlaw, Key, Place, Section, Side};
use crate::raw::{Numbers, RawAddress, RawDoor, RawRole, Served};
use crate::text::Text;
use crate::values::{
    array_of, check_keys, find_array, find_value, has_key, integer_of, read_integer, read_integers,
    read_limit, read_optional, stray_of, table_of, text_of,
};
use std::alloc::Global;
use till_request::Stray;
use toml::{Table, Value};

/// Port and socket of the tills' shared door.
const TILL_KEYS: (Key, Key) = (Key::TillPort, Key::TillSocket);

/// Port and socket of the dispensers' shared door.
const DISPENSER_KEYS: (Key, Key) = (Key::DispenserPort, Key::DispenserSocket);

/// Port and socket of the owner's door.
const OWNER_KEYS: (Key, Key) = (Key::OwnerPort, Key::OwnerSocket);

/// Port and socket of a door in a table of its own.
const KEYS: (Key, Key) = (Key::Port, Key::Socket);

fn read_text(alloc: Global, value: &Value, place: Place) -> Result<Text, ConfigFlaw>
    ensures read { Finds (λ t. t) result (text_of place (view value.now)) }
    ensures memory { result ≡ Err ConfigFlaw.OutOfMemory
        → IsOkAnd (text_of place (view value.now)) (λ t. 0 < length t) }
{
    let text = value_of!(text_of(value, place));
    Ok(room_for!(Text::copied(alloc, text)))
}

/// Reads a door whose port is at the key `keys.0`, or its socket at `keys.1`: exactly one of them.
#[tactic(auto, unfolding(crate::specs::Typed::door_at, crate::specs::Memory::TakesDoor))]
fn read_door(
    alloc: Global,
    table: &Table,
    section: Section,
    keys: (Key, Key),
    role: RawRole,
) -> Result<RawDoor, ConfigFlaw>
    ensures read { Finds (λ x. x) result (door_at section keys role (table_view table.now)) }
    ensures memory { result ≡ Err ConfigFlaw.OutOfMemory → TakesDoor section keys (table_view table.now) }
{
    let port = Place::At(section, keys.0);
    let socket = Place::At(section, keys.1);
    match (
        find_value(table, keys.0.name()),
        find_value(table, keys.1.name()),
    ) {
        (Some(value), None) => Ok(RawDoor {
            place: port,
            address: RawAddress::Port(value_of!(integer_of(value, port))),
            role,
            lines_per_second: None,
        }),
        (None, Some(value)) => Ok(RawDoor {
            place: socket,
            address: RawAddress::Socket(value_of!(read_text(alloc, value, socket))),
            role,
            lines_per_second: None,
        }),
        (None, None) => Err(ConfigFlaw::Missing(port)),
        (Some(_), Some(_)) => Err(ConfigFlaw::BothThere(port, socket)),
    }
}

/// Whether the port or the socket of a shared door is given.
fn is_shared(table: &Table, keys: (Key, Key)) -> bool
    ensures { result ≡ has_shared keys (table_view table.now) }
{
    has_key(table, keys.0) || has_key(table, keys.1)
}

/// Adds the shared door whose port and socket are at `keys`, if one of them is given. If neither is, the key `tables`
/// of the doors that aren't shared has to be there.
#[tactic(auto, unfolding(crate::specs::Typed::shared_at, crate::specs::Memory::TakesShared))]
fn add_shared(
    alloc: Global,
    table: &Table,
    keys: (Key, Key),
    tables: Key,
    role: RawRole,
    mut doors: Vec<RawDoor>,
) -> Result<Vec<RawDoor>, ConfigFlaw>
    ensures read { Finds (λ v. v.items) result
        (with_front doors.items (shared_at keys tables role (table_view table.now))) }
    ensures memory { result ≡ Err ConfigFlaw.OutOfMemory → TakesShared keys role (table_view table.now) }
{
    if is_shared(table, keys) {
        room_for!(doors.push(value_of!(read_door(alloc, table, Section::Serve, keys, role))));
        return Ok(doors);
    }
    if !has_key(table, tables) {
        return Err(ConfigFlaw::Missing(Place::At(Section::Serve, keys.0)));
    }
    Ok(doors)
}

/// How many workers the shared door has whose port and socket are at `keys`. `key` has to be given exactly if the door
/// is.
#[tactic(auto, unfolding(crate::specs::Typed::workers_at))]
fn read_workers(table: &Table, keys: (Key, Key), key: Key) -> Result<Option<i64>, ConfigFlaw>
    ensures read { Finds (λ x. x) result (workers_at keys key (table_view table.now)) }
    ensures memory { result ≢ Err ConfigFlaw.OutOfMemory }
{
    if is_shared(table, keys) {
        return Ok(Some(value_of!(read_integer(table, Section::Serve, key))));
    }
    if has_key(table, key) {
        return Err(ConfigFlaw::Needless(
            Place::At(Section::Serve, key),
            Place::At(Section::Serve, keys.0),
            Place::At(Section::Serve, keys.1),
        ));
    }
    Ok(None)
}

/// Reads a door from a table of its own, with the bound on its lines.
#[tactic(auto, unfolding(crate::specs::Typed::own_door_at))]
fn read_own_door(
    alloc: Global,
    table: &Table,
    section: Section,
    role: RawRole,
) -> Result<RawDoor, ConfigFlaw>
    ensures read { Finds (λ x. x) result (own_door_at section role (table_view table.now)) }
    ensures memory { result ≡ Err ConfigFlaw.OutOfMemory → TakesDoor section (Key.Port, Key.Socket) (table_view table.now) }
{
    let door = value_of!(read_door(alloc, table, section, KEYS, role));
    let lines = value_of!(read_optional(table, section, Key::LinesPerSecond));
    Ok(RawDoor {
        lines_per_second: Some(lines),
        ..door
    })
}

/// Reads the door of one till, item `place` (from 0) of `[[serve.till]]`.
#[tactic(auto, unfolding(crate::specs::Typed::till_in, crate::specs::Memory::TakesTill))]
fn read_till(alloc: Global, value: &Value, place: usize) -> Result<RawDoor, ConfigFlaw>
    ensures read { Finds (λ x. x) result (till_in place (view value.now)) }
    ensures memory { result ≡ Err ConfigFlaw.OutOfMemory → TakesTill place (view value.now) }
{
    let section = Section::Till(place);
    let table = value_of!(table_of(value, Place::Item(Section::Serve, Key::Till, place)));
    value_of!(check_keys(alloc, table, section));
    let number = value_of!(read_integer(table, section, Key::Number));
    read_own_door(alloc, table, section, RawRole::OneTill(number))
}

/// Reads the door of some points, item `place` (from 0) of `[[serve.dispenser]]`.
#[tactic(auto, unfolding(crate::specs::Typed::dispenser_in, crate::specs::Typed::integers_at, crate::specs::Memory::TakesDispenser, crate::specs::Memory::TakesIntegers))]
fn read_dispenser(alloc: Global, value: &Value, place: usize) -> Result<RawDoor, ConfigFlaw>
    ensures read { Finds (λ x. x) result (dispenser_in place (view value.now)) }
    ensures memory { result ≡ Err ConfigFlaw.OutOfMemory → TakesDispenser place (view value.now) }
{
    let section = Section::Dispenser(place);
    let table = value_of!(table_of(value, Place::Item(Section::Serve, Key::Dispenser, place)));
    value_of!(check_keys(alloc, table, section));
    let values = value_of!(find_array(table, section, Key::Points));
    let points = value_of!(read_integers(alloc, values, section, Key::Points));
    let role = RawRole::SomePoints(Numbers::new(points));
    read_own_door(alloc, table, section, role)
}

/// Reads the door of one till or of some points, item `place` (from 0) of its list.
fn read_single(
    alloc: Global,
    side: Side,
    value: &Value,
    place: usize,
) -> Result<RawDoor, ConfigFlaw>
    ensures read { Finds (λ x. x) result (single_in side place (view value.now)) }
    ensures memory { result ≡ Err ConfigFlaw.OutOfMemory → TakesSingle side place (view value.now) }
{
    match side {
        Side::Tills => read_till(alloc, value, place),
        Side::Dispensers => read_dispenser(alloc, value, place),
    }
}

/// Adds a door for each of `values`, in this order.
fn each_single(
    alloc: Global,
    side: Side,
    values: &[Value],
    mut doors: Vec<RawDoor>,
) -> Result<Vec<RawDoor>, ConfigFlaw>
    ensures read { Finds (λ v. v.items) result
        (with_front doors.items (each_in (single_in side) 0 (items_view values.now))) }
    ensures memory { result ≡ Err ConfigFlaw.OutOfMemory
        → KeepsFirst (single_in side) (TakesSingle side) (items_view values.now) }
{
    let mut place = 0;
    for value in values {
        room_for!(doors.push(value_of!(read_single(alloc, side, value, place))));
        place += 1;
    }
    Ok(doors)
}

/// Adds the doors of the tables at `key`, if it is given.
fn add_singles(
    alloc: Global,
    table: &Table,
    key: Key,
    side: Side,
    doors: Vec<RawDoor>,
) -> Result<Vec<RawDoor>, ConfigFlaw>
    ensures read { Finds (λ v. v.items) result
        (with_front doors.items (tables_from (single_in side) key (get_member (name_of key) (table_view table.now)))) }
    ensures memory { result ≡ Err ConfigFlaw.OutOfMemory
        → TakesTables side key (get_member (name_of key) (table_view table.now)) }
{
    match find_value(table, key.name()) {
        Some(value) => {
            let values = value_of!(array_of(value, Place::At(Section::Serve, key)));
            each_single(alloc, side, values, doors)
        }
        None => Ok(doors),
    }
}

#[tactic(auto, unfolding(crate::specs::Typed::owner_at, crate::specs::Memory::TakesShared))]
fn add_owner(
    alloc: Global,
    table: &Table,
    mut doors: Vec<RawDoor>,
) -> Result<Vec<RawDoor>, ConfigFlaw>
    ensures read { Finds (λ v. v.items) result (with_front doors.items (owner_at (table_view table.now))) }
    ensures memory { result ≡ Err ConfigFlaw.OutOfMemory
        → TakesShared (Key.OwnerPort, Key.OwnerSocket) RawRole.Owner (table_view table.now) }
{
    room_for!(doors.push(value_of!(read_door(
        alloc,
        table,
        Section::Serve,
        OWNER_KEYS,
        RawRole::Owner
    ))));
    Ok(doors)
}

/// Reads all doors, in the order in which workers get their passes (rights to call the site).
#[tactic(auto, unfolding(crate::specs::Typed::doors_at, crate::specs::Typed::tills_at, crate::specs::Typed::dispensers_at, crate::specs::Memory::TakesDoors))]
fn read_doors(alloc: Global, table: &Table) -> Result<Vec<RawDoor>, ConfigFlaw>
    ensures read { Finds (λ v. v.items) result (doors_at (table_view table.now)) }
    ensures memory { result ≡ Err ConfigFlaw.OutOfMemory → TakesDoors (table_view table.now) }
{
    let doors = Vec::new(alloc);
    let doors = value_of!(add_shared(alloc, table, TILL_KEYS, Key::Till, RawRole::Tills, doors));
    let doors = value_of!(add_singles(alloc, table, Key::Till, Side::Tills, doors));
    let role = RawRole::Dispensers;
    let doors = value_of!(add_shared(alloc, table, DISPENSER_KEYS, Key::Dispenser, role, doors));
    let doors = value_of!(add_singles(alloc, table, Key::Dispenser, Side::Dispensers, doors));
    add_owner(alloc, table, doors)
}

/// The page's port; `None` if its key isn't given.
fn read_page(table: &Table) -> Result<Option<i64>, ConfigFlaw>
    ensures read { Finds (λ x. x) result (page_from (get_member (name_of Key.PagePort) (table_view table.now))) }
    ensures memory { result ≢ Err ConfigFlaw.OutOfMemory }
{
    match find_value(table, Key::PagePort.name()) {
        Some(value) => {
            let place = Place::At(Section::Serve, Key::PagePort);
            Ok(Some(value_of!(integer_of(value, place))))
        }
        None => Ok(None),
    }
}

/// What a stray line is told at the doors of one till or of some points: `BadLine` if the key isn't given.
fn read_own_lines(table: &Table) -> Result<Stray, ConfigFlaw>
    ensures read { Finds (λ x. x) result
        (own_lines_from (get_member (name_of Key.OwnLines) (table_view table.now))) }
    ensures memory { result ≢ Err ConfigFlaw.OutOfMemory }
{
    match find_value(table, Key::OwnLines.name()) {
        Some(value) => stray_of(value, Place::At(Section::Serve, Key::OwnLines)),
        None => Ok(Stray::BadLine),
    }
}

/// When a day ends; `None` if the key isn't given, `Some(None)` if its text is no time.
fn read_day_ends(table: &Table) -> Result<Option<Option<TimeOfDay>>, ConfigFlaw>
    ensures read { Finds (option_map (option_map (λ (t : TimeOfDay). t.minute))) result
        (day_ends_from (get_member (name_of Key.DayEnds) (table_view table.now))) }
    ensures memory { result ≢ Err ConfigFlaw.OutOfMemory }
{
    match find_value(table, Key::DayEnds.name()) {
        Some(value) => {
            let place = Place::At(Section::Serve, Key::DayEnds);
            Ok(Some(time_of(value_of!(text_of(value, place)))))
        }
        None => Ok(None),
    }
}

/// The zone of that time; `None` if the key isn't given, `Some(None)` if its text can't be a zone's name.
fn read_zone(table: &Table) -> Result<Option<Option<ZoneName>>, ConfigFlaw>
    ensures read { Finds (option_map (option_map (λ (name : Name). name.bytes))) result
        (zone_from (get_member (name_of Key.Zone) (table_view table.now))) }
    ensures memory { result ≢ Err ConfigFlaw.OutOfMemory }
{
    match find_value(table, Key::Zone.name()) {
        Some(value) => {
            let place = Place::At(Section::Serve, Key::Zone);
            Ok(Some(zone_in(value_of!(text_of(value, place)))))
        }
        None => Ok(None),
    }
}

#[tactic(auto, unfolding(crate::specs::Typed::served_in, crate::specs::Memory::TakesServed))]
fn read_served(alloc: Global, value: &Value) -> Result<Served, ConfigFlaw>
    ensures read { Finds seen_serve result (served_in (view value.now)) }
    ensures memory { result ≡ Err ConfigFlaw.OutOfMemory → TakesServed (view value.now) }
{
    let table = value_of!(table_of(value, Place::At(Section::Top, Key::Serve)));
    value_of!(check_keys(alloc, table, Section::Serve));
    let doors = value_of!(read_doors(alloc, table));
    let till_workers = value_of!(read_workers(table, TILL_KEYS, Key::TillWorkers));
    let dispenser_workers = value_of!(read_workers(table, DISPENSER_KEYS, Key::DispenserWorkers));
    let connections = value_of!(read_limit(table, Section::Serve, Key::Connections));
    let idle_seconds = value_of!(read_optional(table, Section::Serve, Key::IdleSeconds));
    let page_port = value_of!(read_page(table));
    let lines_per_second = value_of!(read_optional(table, Section::Serve, Key::LinesPerSecond));
    let own_lines = value_of!(read_own_lines(table));
    let day_ends = value_of!(read_day_ends(table));
    let zone = value_of!(read_zone(table));
    Ok(Served {
        doors,
        till_workers,
        dispenser_workers,
        connections,
        idle_seconds,
        page_port,
        lines_per_second,
        own_lines,
        day_ends,
        zone,
    })
}

/// Reads the table `[serve]`, if there is one. Ranges are checked later.
#[tactic(auto, unfolding(crate::specs::Typed::served_at))]
pub fn find_served(alloc: Global, table: &Table) -> Result<Option<Served>, ConfigFlaw>
    ensures read { Finds (option_map seen_serve) result (served_at (table_view table.now)) }
    ensures memory { result ≡ Err ConfigFlaw.OutOfMemory
        → IsSomeAnd (get_member (name_of Key.Serve) (table_view table.now)) TakesServed }
{
    match find_value(table, Key::Serve.name()) {
        Some(value) => Ok(Some(value_of!(read_served(alloc, value)))),
        None => Ok(None),
    }
}
