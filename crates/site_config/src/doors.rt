//! Checks and makes the doors of `[serve]`, where connections come in. All flaws are K3.
ghost use Rattle.std.specs.Prelude.{◌≡◌, ◌≢◌, ◌<◌, ◌≤◌, ◌+◌, length, map, IfOk, IfSome, IsOkAnd, Err};
ghost use Rattle.site_config.specs.Document.{Finds};
ghost use Rattle.site_config.specs.Demands.{ranged};
ghost use Rattle.site_config.specs.Typed.{seen_serve};
ghost use Rattle.site_config.specs.Document.{without};
ghost use Rattle.site_config.specs.Doors.{sibling_key, item_of, address_of, with_point, with_points, bits_of, role_of, telling};
ghost use Rattle.site_config.specs.Doors.{door_fits, doors_fit, address_clash, till_clash, pair_clash, clash_with};
ghost use Rattle.site_config.specs.Doors.{clash_among, page_clash, page_of, shared_workers, workers_of, is_single};
ghost use Rattle.site_config.specs.Doors.{count_single, takes, is_taken, first_without_door, side_fits, door_of};
ghost use Rattle.site_config.specs.Doors.{each_door, serve_of, address_seen, address_fits, door_seen, serve_seen};
ghost use Rattle.site_config.specs.Doors.{lines_of, connections_of};
ghost use Rattle.site_config.specs.Memory.{HasPath, HasDoors};
ghost use Rattle.site_config.specs.Laws.{DoorsTakeOwnLines};
ghost use Rattle.bpf_model.specs.declared.limits.TheConstants.{POINTS};

use crate::day_ends::{day_ends_of, zone_of};
use crate::flaw::{ConfigFlaw, Key, Place, Section, Side};
use crate::number::in_range;
use crate::raw::{RawAddress, RawDoor, RawRole, Served};
use crate::settings::{Address, Door, Serve};
use std::alloc::Global;
use till_request::{Role, Stray};

/// The most workers of all doors of tills. A worker serves one connection at a time.
const MOST_OF_TILLS: u32 = 64;

/// The most workers of all doors of dispensers.
const MOST_OF_DISPENSERS: u32 = 31;

/// The most lines a second at a door.
const MOST_LINES: u32 = 1_000_000;

/// The place of `key` in the table of the key at `place`; else `place`.
fn sibling_key(place: Place, key: Key) -> Place
    ensures { result ≡ sibling_key place key }
{
    match place {
        Place::At(section, _) => Place::At(section, key),
        _ => place,
    }
}

/// The place of an item, counted from 0, of the list at `list`; else `list`.
fn item_of(list: Place, place: usize) -> Place
    ensures { result ≡ item_of list place }
{
    match list {
        Place::At(section, key) => Place::Item(section, key, place),
        _ => list,
    }
}

/// The address of a door; `place` is that of its key.
#[tactic(auto, unfolding(crate::specs::Doors::address_of))]
fn make_address(alloc: Global, place: Place, address: &RawAddress) -> Result<Address, ConfigFlaw>
    ensures read { Finds address_seen result (address_of place address.now) }
    ensures memory { result ≡ Err ConfigFlaw.OutOfMemory → HasPath address.now }
{
    match address {
        RawAddress::Port(port) => Ok(Address::Port(value_of!(in_range(place, *port, 1, 65_535)))),
        RawAddress::Socket(path) => {
            if path.as_str().is_empty() {
                return Err(ConfigFlaw::Empty(place));
            }
            Ok(Address::Socket(room_for!(String::from_str(alloc, path.as_str()))))
        }
    }
}

/// Checks the address of a door; `place` is that of its key.
#[tactic(auto, unfolding(crate::specs::Doors::address_fits, crate::specs::Doors::address_of))]
fn check_address(place: Place, address: &RawAddress) -> Result<(), ConfigFlaw>
    ensures read { Finds (λ x. x) result (address_fits place address.now) }
    ensures memory { result ≢ Err ConfigFlaw.OutOfMemory }
{
    match address {
        RawAddress::Port(port) => {
            let _port = value_of!(in_range(place, *port, 1, 65_535));
        }
        RawAddress::Socket(path) => {
            if path.as_str().is_empty() {
                return Err(ConfigFlaw::Empty(place));
            }
        }
    }
    Ok(())
}

/// Adds a point, item `place` (counted from 0) of the list at `list`, to `bits`, in which point p is bit p - 1. The
/// site has `points`, at most 32.
#[tactic(auto, unfolding(crate::specs::Doors::with_point))]
fn add_point(
    list: Place,
    place: usize,
    points: u32,
    bits: u32,
    value: i64,
) -> Result<u32, ConfigFlaw>
    requires { points ≤ POINTS }
    ensures read { Finds (λ x. x) result (with_point list place points bits value) }
    ensures memory { result ≢ Err ConfigFlaw.OutOfMemory }
{
    let point = value_of!(in_range(item_of(list, place), value, 1, points));
    if (bits >> (point - 1)) % 2 != 0 {
        return Err(ConfigFlaw::PointTwice(list, point));
    }
    Ok(bits | 1 << (point - 1))
}

fn add_points(list: Place, points: u32, values: &[i64]) -> Result<u32, ConfigFlaw>
    requires { points ≤ POINTS }
    ensures read { Finds (λ x. x) result (with_points list 0 points 0 values.now) }
    ensures memory { result ≢ Err ConfigFlaw.OutOfMemory }
{
    let mut bits = 0;
    let mut place = 0;
    for value in values {
        bits = match add_point(list, place, points, bits, *value) {
            Ok(more) => more,
            Err(flaw) => return Err(flaw),
        };
        place += 1;
    }
    Ok(bits)
}

/// The points of the list at `list` as bits: point p is bit p - 1. The site has `points`, at most 32.
#[tactic(auto, unfolding(crate::specs::Doors::bits_of))]
fn make_bits(list: Place, points: u32, values: &[i64]) -> Result<u32, ConfigFlaw>
    requires { points ≤ POINTS }
    ensures read { Finds (λ x. x) result (bits_of list points values.now) }
    ensures memory { result ≢ Err ConfigFlaw.OutOfMemory }
{
    if values.is_empty() {
        return Err(ConfigFlaw::WrongCount(list, 0, 1, points as usize));
    }
    add_points(list, points, values)
}

/// A law: a door takes a line exactly if its sessions may send it, by the role made of its `RawRole`: each till's line,
/// and each dispenser's of a point from 1 to 32.
pub fn law_of_own_lines()
    // proved: A door takes what its role may send of a till or a point
    ensures { DoorsTakeOwnLines }
{}

/// The role of a door at a site with `tills` and `points`, at most 32. `place` is that of its address.
#[tactic(auto, unfolding(crate::specs::Doors::role_of))]
fn make_role(tills: u32, points: u32, place: Place, role: &RawRole) -> Result<Role, ConfigFlaw>
    requires { points ≤ POINTS }
    ensures read { Finds (λ x. x) result (role_of tills points place role.now) }
    ensures memory { result ≢ Err ConfigFlaw.OutOfMemory }
{
    match role {
        RawRole::Tills => Ok(Role::Till),
        RawRole::OneTill(number) => {
            let place = sibling_key(place, Key::Number);
            let number = value_of!(in_range(place, *number, 1, tills));
            Ok(Role::OneTill(number, Stray::BadLine))
        }
        RawRole::Dispensers => Ok(Role::Dispenser),
        RawRole::SomePoints(numbers) => {
            let place = sibling_key(place, Key::Points);
            let bits = value_of!(make_bits(place, points, numbers.as_slice()));
            Ok(Role::SomePoints(bits, Stray::BadLine))
        }
        RawRole::Owner => Ok(Role::Owner),
    }
}

/// The role of a door's sessions: `role`, with what a stray line is told at a door of one till or of some points.
fn telling(stray: Stray, role: Role) -> Role
    ensures { result ≡ telling stray role }
{
    match role {
        Role::OneTill(number, _) => Role::OneTill(number, stray),
        Role::SomePoints(points, _) => Role::SomePoints(points, stray),
        Role::Till | Role::Dispenser | Role::Owner | Role::DaysOwner | Role::All => role,
    }
}

/// How many lines a second are read at a door, 0 without a bound: `own`, else `shared`. `place` is that of its address.
fn lines_of(shared: u32, place: Place, own: Option<i64>) -> Result<u32, ConfigFlaw>
    ensures read { Finds (λ x. x) result (lines_of shared place own) }
    ensures memory { result ≢ Err ConfigFlaw.OutOfMemory }
{
    match own {
        Some(lines) => in_range(
            sibling_key(place, Key::LinesPerSecond),
            lines,
            0,
            MOST_LINES,
        ),
        None => Ok(shared),
    }
}

/// Checks a door's address, then its role, then the bound on its lines. `points` must be at most 32.
#[tactic(auto, unfolding(crate::specs::Doors::door_fits, crate::specs::Doors::address_fits))]
fn check_door(tills: u32, points: u32, door: &RawDoor) -> Result<(), ConfigFlaw>
    requires { points ≤ POINTS }
    ensures read { Finds (λ x. x) result (door_fits tills points door.now) }
    ensures memory { result ≢ Err ConfigFlaw.OutOfMemory }
{
    value_of!(check_address(door.place, &door.address));
    let _role = value_of!(make_role(tills, points, door.place, &door.role));
    let _lines = value_of!(lines_of(0, door.place, door.lines_per_second));
    Ok(())
}

fn check_doors(tills: u32, points: u32, doors: &[RawDoor]) -> Result<(), ConfigFlaw>
    requires { points ≤ POINTS }
    ensures read { Finds (λ x. x) result (doors_fit tills points doors.now) }
    ensures memory { result ≢ Err ConfigFlaw.OutOfMemory }
{
    for door in doors {
        value_of!(check_door(tills, points, door));
    }
    Ok(())
}

/// The flaw that two doors have one address.
fn address_clash(first: &RawDoor, second: &RawDoor) -> Option<ConfigFlaw>
    ensures found { result ≡ address_clash first.now.place second.now.place first.now.address second.now.address }
    ensures memory { IfSome result (λ flaw. flaw ≢ ConfigFlaw.OutOfMemory) }
{
    match (&first.address, &second.address) {
        (RawAddress::Port(port), RawAddress::Port(other)) if port == other => {
            Some(ConfigFlaw::SamePort(first.place, second.place, *port))
        }
        (RawAddress::Socket(path), RawAddress::Socket(other)) if path.is_same(other) => {
            Some(ConfigFlaw::SameSocket(first.place, second.place))
        }
        _ => None,
    }
}

/// The flaw that two doors are for one single till.
fn till_clash(first: &RawDoor, second: &RawDoor) -> Option<ConfigFlaw>
    ensures found { result ≡ till_clash first.now.place second.now.place first.now.role second.now.role }
    ensures memory { IfSome result (λ flaw. flaw ≢ ConfigFlaw.OutOfMemory) }
{
    match (&first.role, &second.role) {
        (RawRole::OneTill(till), RawRole::OneTill(other)) if till == other => {
            Some(ConfigFlaw::SameTill(first.place, second.place, *till))
        }
        _ => None,
    }
}

fn pair_clash(first: &RawDoor, second: &RawDoor) -> Option<ConfigFlaw>
    ensures found { result ≡ pair_clash first.now second.now }
    ensures memory { IfSome result (λ flaw. flaw ≢ ConfigFlaw.OutOfMemory) }
{
    match address_clash(first, second) {
        Some(flaw) => Some(flaw),
        None => till_clash(first, second),
    }
}

fn clash_with(door: &RawDoor, others: &[RawDoor]) -> Option<ConfigFlaw>
    ensures found { result ≡ clash_with door.now others.now }
    ensures memory { IfSome result (λ flaw. flaw ≢ ConfigFlaw.OutOfMemory) }
{
    for other in others {
        if let Some(flaw) = pair_clash(door, other) {
            return Some(flaw);
        }
    }
    None
}

/// Checks that doors have different addresses, and each till at most one of its own.
fn check_apart(doors: &[RawDoor]) -> Result<(), ConfigFlaw>
    ensures read { Finds (λ x. x) result (without (clash_among doors.now)) }
    ensures memory { result ≢ Err ConfigFlaw.OutOfMemory }
{
    let mut rest = doors;
    while let [first, others @ ..] = rest {
        if let Some(flaw) = clash_with(first, others) {
            return Err(flaw);
        }
        rest = others;
    }
    Ok(())
}

/// The flaw that a door has the page's port.
fn page_clash(port: i64, doors: &[RawDoor]) -> Option<ConfigFlaw>
    ensures found { result ≡ page_clash port doors.now }
    ensures memory { IfSome result (λ flaw. flaw ≢ ConfigFlaw.OutOfMemory) }
{
    for door in doors {
        match &door.address {
            RawAddress::Port(other) if *other == port => {
                let page = Place::At(Section::Serve, Key::PagePort);
                return Some(ConfigFlaw::SamePort(door.place, page, port));
            }
            _ => {}
        }
    }
    None
}

/// How many connections each worker serves, 1 to 1,000,000; `None` without end.
fn connections_of(connections: Option<i64>) -> Result<Option<u32>, ConfigFlaw>
    ensures read { Finds (λ x. x) result (connections_of connections) }
    ensures memory { result ≢ Err ConfigFlaw.OutOfMemory }
{
    match connections {
        Some(count) => Ok(Some(value_of!(number_of(Key::Connections, count, 1, 1_000_000)))),
        None => Ok(None),
    }
}

/// The page's port, 1 to 65,535, which no door has; `None` without a page.
#[tactic(auto, unfolding(crate::specs::Doors::page_of))]
fn page_of(doors: &[RawDoor], port: Option<i64>) -> Result<Option<u32>, ConfigFlaw>
    ensures read { Finds (λ x. x) result (page_of doors.now port) }
    ensures memory { result ≢ Err ConfigFlaw.OutOfMemory }
{
    let Some(port) = port else {
        return Ok(None);
    };
    let number = value_of!(number_of(Key::PagePort, port, 1, 65_535));
    match page_clash(port, doors) {
        Some(flaw) => Err(flaw),
        None => Ok(Some(number)),
    }
}

/// How many workers a shared door (of all tills or all dispensers) has, 1 to `most`; 0 without such a door.
fn shared_of(key: Key, value: Option<i64>, most: u32) -> Result<u32, ConfigFlaw>
    ensures read { Finds (λ x. x) result (shared_workers key most value) }
    ensures range { IfOk result (λ n. n ≤ most) }
    ensures memory { result ≢ Err ConfigFlaw.OutOfMemory }
{
    match value {
        Some(value) => in_range(Place::At(Section::Serve, key), value, 1, most),
        None => Ok(0),
    }
}

fn is_one(side: Side, role: &RawRole) -> bool
    ensures { result ≡ is_single side role.now }
{
    match (side, role) {
        (Side::Tills, RawRole::OneTill(_)) => true,
        (Side::Dispensers, RawRole::SomePoints(_)) => true,
        _ => false,
    }
}

/// How many doors are for one till each, or for some points each.
fn count_of(side: Side, doors: &[RawDoor]) -> usize
    ensures count { result ≡ count_single side doors.now }
    ensures bound { result ≤ length doors.now }
{
    let mut count = 0;
    for door in doors {
        count += usize::from(is_one(side, &door.role));
    }
    count
}

/// Whether a door takes the lines of till `number`, or those of point `number`.
fn takes_lines(side: Side, number: u32, role: &RawRole) -> bool
    ensures { result ≡ takes side number role.now }
{
    match (side, role) {
        (Side::Tills, RawRole::Tills) => true,
        (Side::Tills, RawRole::OneTill(till)) => *till == i64::from(number),
        (Side::Dispensers, RawRole::Dispensers) => true,
        (Side::Dispensers, RawRole::SomePoints(points)) => {
            points.as_slice().contains(&i64::from(number))
        }
        _ => false,
    }
}

fn is_taken(side: Side, number: u32, doors: &[RawDoor]) -> bool
    ensures { result ≡ is_taken side doors.now number }
{
    for door in doors {
        if takes_lines(side, number, &door.role) {
            return true;
        }
    }
    false
}

/// The flaw that the lines of the first till, or point, from 1 to `most` are taken at no door.
fn first_without_door(side: Side, doors: &[RawDoor], most: u32) -> Option<ConfigFlaw>
    ensures found { result ≡ first_without_door side doors.now most }
    ensures memory { IfSome result (λ flaw. flaw ≢ ConfigFlaw.OutOfMemory) }
{
    let mut number = 0;
    while number < most {
        number += 1;
        if !is_taken(side, number, doors) {
            return Some(ConfigFlaw::WithoutDoor(side, number));
        }
    }
    None
}

/// Checks the doors of one side: at most `most` workers in all, `shared` of them at the shared door, and a door for
/// each till or point from 1 to `numbers`.
#[tactic(auto, unfolding(crate::specs::Doors::side_fits))]
fn check_side(
    side: Side,
    shared: u32,
    most: u32,
    numbers: u32,
    doors: &[RawDoor],
) -> Result<(), ConfigFlaw>
    requires { shared ≤ most }
    ensures read { Finds (λ x. x) result (side_fits side shared most numbers doors.now) }
    ensures memory { result ≢ Err ConfigFlaw.OutOfMemory }
{
    let own = count_of(side, doors);
    if own > (most - shared) as usize {
        let count = own.saturating_add(shared as usize);
        return Err(ConfigFlaw::TooManyWorkers(side, count, most as usize));
    }
    match first_without_door(side, doors, numbers) {
        Some(flaw) => Err(flaw),
        None => Ok(()),
    }
}

/// How many workers a door has: those of the shared doors, else 1.
fn workers_for(till_workers: u32, dispenser_workers: u32, role: &RawRole) -> u32
    ensures { result ≡ workers_of till_workers dispenser_workers role.now }
{
    match role {
        RawRole::Tills => till_workers,
        RawRole::Dispensers => dispenser_workers,
        _ => 1,
    }
}

/// How many tills and points a site has, how many workers its shared doors (0 where there is none), how many lines a
/// second are read at each door without a table of its own (0 without a bound), and what a stray line is told.
#[derive(Clone, Copy)]
struct DoorCounts {
    tills: u32,
    points: u32,
    till_workers: u32,
    dispenser_workers: u32,
    lines_per_second: u32,
    own_lines: Stray,
}

#[tactic(auto, unfolding(crate::specs::Doors::door_of))]
fn make_door(alloc: Global, counts: DoorCounts, door: &RawDoor) -> Result<Door, ConfigFlaw>
    requires { counts.points ≤ POINTS }
    ensures read { Finds door_seen result (door_of counts door.now) }
    ensures memory { result ≡ Err ConfigFlaw.OutOfMemory → HasPath door.now.address }
{
    let address = value_of!(make_address(alloc, door.place, &door.address));
    let role = value_of!(make_role(counts.tills, counts.points, door.place, &door.role));
    let shared_lines = counts.lines_per_second;
    let lines_per_second = value_of!(lines_of(shared_lines, door.place, door.lines_per_second));
    let workers = workers_for(counts.till_workers, counts.dispenser_workers, &door.role);
    Ok(Door {
        place: door.place,
        address,
        role: telling(counts.own_lines, role),
        workers,
        lines_per_second,
    })
}

fn make_doors(alloc: Global, counts: DoorCounts, doors: &[RawDoor]) -> Result<Vec<Door>, ConfigFlaw>
    requires { counts.points ≤ POINTS }
    ensures read { Finds (λ v. map door_seen v.items) result (each_door (door_of counts) doors.now) }
    ensures memory { result ≡ Err ConfigFlaw.OutOfMemory → 0 < length doors.now }
{
    let mut made = Vec::new(alloc);
    for door in doors {
        room_for!(made.push(value_of!(make_door(alloc, counts, door))));
    }
    Ok(made)
}

/// `value`, that of `key` in `[serve]`, if it is from `low` to `high`.
fn number_of(key: Key, value: i64, low: u32, high: u32) -> Result<u32, ConfigFlaw>
    ensures read { Finds (λ x. x) result (ranged (Place.At Section.Serve key) low high value) }
    ensures memory { result ≢ Err ConfigFlaw.OutOfMemory }
{
    in_range(Place::At(Section::Serve, key), value, low, high)
}

/// Checks `served`, and makes the settings of `[serve]` for a site with `tills` and `points`, at most 32.
#[tactic(auto, unfolding(crate::specs::Doors::serve_of))]
pub(crate) fn make_serve(
    alloc: Global,
    tills: u32,
    points: u32,
    served: &Served,
) -> Result<Serve, ConfigFlaw>
    requires { points ≤ POINTS }
    ensures read { Finds serve_seen result (serve_of tills points (seen_serve served.now)) }
    ensures memory { result ≡ Err ConfigFlaw.OutOfMemory
        → IsOkAnd (serve_of tills points (seen_serve served.now)) HasDoors }
{
    value_of!(check_doors(tills, points, &served.doors));
    value_of!(check_apart(&served.doors));
    let till_workers = value_of!(shared_of(Key::TillWorkers, served.till_workers, MOST_OF_TILLS));
    let workers = served.dispenser_workers;
    let most = MOST_OF_DISPENSERS;
    let dispenser_workers = value_of!(shared_of(Key::DispenserWorkers, workers, most));
    let connections = value_of!(connections_of(served.connections));
    let idle_seconds = value_of!(number_of(Key::IdleSeconds, served.idle_seconds, 0, 86_400));
    let lines = served.lines_per_second;
    let lines_per_second = value_of!(number_of(Key::LinesPerSecond, lines, 0, MOST_LINES));
    let doors = &served.doors;
    let page_port = value_of!(page_of(doors, served.page_port));
    let day_ends = value_of!(day_ends_of(served.day_ends));
    let zone = value_of!(zone_of(served.zone));
    value_of!(check_side(Side::Tills, till_workers, MOST_OF_TILLS, tills, doors));
    value_of!(check_side(Side::Dispensers, dispenser_workers, most, points, doors));
    let counts = DoorCounts {
        tills,
        points,
        till_workers,
        dispenser_workers,
        lines_per_second,
        own_lines: served.own_lines,
    };
    Ok(Serve {
        doors: value_of!(make_doors(alloc, counts, doors)),
        connections,
        idle_seconds,
        page_port,
        day_ends,
        zone,
    })
}
