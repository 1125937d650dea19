//! What a look shows of a site. It takes no memory, since it is made under a lock: rows go into room made beforehand.

ghost use Rattle.std.specs.Prelude.{◌≡◌, ◌==◌, ◌+◌, ◌++◌, ◌<◌, ◌≤◌, List, [], IfOk, map, not, option_map, option_to_list, reverse};
ghost use Rattle.std.specs.Prelude.{vec_capacity, vec_len};
ghost use Rattle.std.specs.List.{filter_map, find, range_with_len};
ghost use Rattle.bpf_model.specs.declared.limits.TheConstants.{COUNTERS};
ghost use Rattle.site_core.specs.Limits.{ConfigValue};
ghost use Rattle.site_core.specs.SightRooms.{most_rows, most_unpaid, slot_row};
ghost use Rattle.site_core.specs.Sights.{all_unpaid, counter_row, first_moment, seen_at, seen_value, unpaid_row, unpaid_seen};
ghost use Rattle.site_core.specs.SiteInvariant.{Agrees};

use crate::replies::NO_SUCH_POINT;
use crate::slots::{SLOTS, Slots};
use crate::station::Station;
use decision_journal::Entry;
use fuelling_point::{Point, Transaction};
use std::alloc::{AllocError, Global};
use std::marker::Model;
use till_request::{LookAt, Seen};
use verifier::Counters;

/// Room for the rows of one look, none of which is there yet.
#[derive(Drop)]
pub struct SightRoom {
    look: LookAt,
    unpaid: Vec<[u64; 7]>,
    rows: Vec<[u64; 3]>,
}

impl Model for SightRoom {
    ghost use Rattle.std.specs.Prelude.{◌≡◌, ◌≤◌, [], vec_capacity};
    ghost use Rattle.till_request.specs.declared.look.LookAt.{LookAt};
    ghost use Rattle.site_core.specs.SightRooms.{most_rows, most_unpaid};

    ghost Value = { LookAt };

    ghost view = { λ r. r.look };

    ghost invariant = { λ r. (r.unpaid.items ≡ []) × (most_unpaid r.look ≤ vec_capacity r.unpaid)
        × (r.rows.items ≡ []) × (most_rows r.look ≤ vec_capacity r.rows) };
}

impl SightRoom {
    /// Allocates memory for the rows that this look can show at most.
    pub fn ready(alloc: Global, look: LookAt) -> Result<SightRoom, AllocError>
        ensures { IfOk result (λ room. room ≡ look) }
    {
        Ok(SightRoom {
            look,
            unpaid: Vec::with_capacity(alloc, most_unpaid(look))?,
            rows: Vec::with_capacity(alloc, most_rows(look))?,
        })
    }
}

fn most_unpaid(look: LookAt) -> usize
    ensures { result ≡ most_unpaid look }
{
    match look {
        LookAt::Unpaid(_) => 2,
        LookAt::AllUnpaid => 64,
        _ => 0,
    }
}

fn most_rows(look: LookAt) -> usize
    ensures { result ≡ most_rows look }
{
    match look {
        LookAt::Rules => 16,
        LookAt::Counters => 32,
        _ => 0,
    }
}

fn first_with_moment(history: &[Entry]) -> Option<&Entry>
    ensures { option_map (λ entry. entry.now) result ≡ find (λ e. not (e.moment == 0)) history.now }
{
    history.iter().find(|entry| entry.moment != 0)
}

/// The moment of the first entry that bears one; 0 if none does.
pub(crate) fn first_moment(history: &[Entry]) -> u64
    ensures { result ≡ first_moment history.now }
{
    match first_with_moment(history) {
        Some(entry) => entry.moment,
        None => 0,
    }
}

/// Returns what the look shows that the room was made for, on the day of this number, whose first moment is `since`.
#[tactic(auto, unfolding(crate::specs::State::view_of))]
pub(crate) fn show(
    station: &Station,
    slots: &Slots,
    room: SightRoom,
    number: u32,
    since: u64,
) -> Seen
    ensures { (config : ConfigValue) (past : List Entry) → Agrees config slots.now past
        → first_moment (reverse past) ≡ since → seen_value result ≡ seen_at config past station.now number room }
{
    let SightRoom { look, unpaid, rows } = room;
    match look {
        LookAt::Day => Seen::Day { number, since },
        LookAt::Point(n) => Seen::Reply(station.show(n)),
        LookAt::Prices => Seen::Prices(station.view().prices),
        LookAt::Unpaid(n) => unpaid_at(station, n, unpaid),
        LookAt::AllUnpaid => Seen::Unpaid(all_unpaid(station, unpaid)),
        LookAt::Rules => Seen::Rules(rules(slots, rows)),
        LookAt::Counters => Seen::Counters(counters(station.counters(), rows)),
    }
}

fn unpaid_at(station: &Station, n: u32, room: Vec<[u64; 7]>) -> Seen
    requires { (room.items ≡ []) × (2 ≤ vec_capacity room) }
    ensures { seen_value result ≡ unpaid_seen station.now n }
{
    let Some(point) = station.point(n) else {
        return Seen::Reply(NO_SUCH_POINT);
    };
    let mut rows = room;
    push_unpaid(&mut rows, n, point);
    Seen::Unpaid(rows)
}

fn all_unpaid(station: &Station, room: Vec<[u64; 7]>) -> Vec<[u64; 7]>
    requires { (room.items ≡ []) × (64 ≤ vec_capacity room) }
    ensures { result.items ≡ all_unpaid station.now }
{
    // So the prover knows that there are at most 32 points.
    let _view = station.view();
    let mut rows = room;
    for (i, point) in station.points().iter().enumerate() {
        push_unpaid(&mut rows, i as u32 + 1, point);
    }
    rows
}

// Adds the rows of point `n`.
fn push_unpaid(rows: &mut Vec<[u64; 7]>, n: u32, point: &Point)
    requires { vec_len rows.old + 2 ≤ vec_capacity rows.old }
    ensures items { rows.new.items ≡ rows.old.items ++ map (unpaid_row n) point.now.unpaid }
    ensures len { vec_len rows.new ≤ vec_len rows.old + 2 }
    ensures capacity { vec_capacity rows.new ≡ vec_capacity rows.old }
{
    let [older, newer] = point.transactions();
    push_some(rows, unpaid_row(n, older));
    push_some(rows, unpaid_row(n, newer));
}

fn unpaid_row(n: u32, transaction: Option<Transaction>) -> Option<[u64; 7]>
    ensures { result ≡ option_map (unpaid_row n) transaction }
{
    let transaction = transaction?;
    Some([
        u64::from(n),
        u64::from(transaction.number),
        u64::from(transaction.product),
        u64::from(transaction.price),
        transaction.volume,
        transaction.amount,
        u64::from(transaction.holder),
    ])
}

fn rules(slots: &Slots, room: Vec<[u64; 3]>) -> Vec<[u64; 3]>
    requires { (room.items ≡ []) × (16 ≤ vec_capacity room) }
    ensures { result.items ≡ filter_map (slot_row slots.now) (range_with_len 0 16) }
{
    let mut rows = room;
    for slot in 0..SLOTS {
        push_some(&mut rows, slot_row(slots, slot));
    }
    rows
}

fn slot_row(slots: &Slots, slot: u32) -> Option<[u64; 3]>
    ensures { result ≡ slot_row slots.now slot }
{
    let (version, _program) = slots.in_slot(slot)?;
    Some([
        u64::from(slot),
        u64::from(version),
        u64::from(slots.since(slot)),
    ])
}

fn counters(counters: &Counters, room: Vec<[u64; 3]>) -> Vec<[u64; 3]>
    requires { (room.items ≡ []) × (32 ≤ vec_capacity room) }
    ensures { result.items ≡ filter_map (counter_row counters.now) (range_with_len 0 32) }
{
    let mut rows = room;
    for c in 0..32 {
        push_some(&mut rows, counter_row(counters, c));
    }
    rows
}

fn counter_row(counters: &Counters, c: u32) -> Option<[u64; 3]>
    requires { c < COUNTERS }
    ensures { result ≡ counter_row counters.now c }
{
    let bound = counters.bound(c);
    if bound == 0 {
        return None;
    }
    Some([u64::from(c), counters.get(c), bound])
}

// Adds the row, if there is one, where there is room for it.
fn push_some<T: Copy + Drop>(rows: &mut Vec<T>, row: Option<T>)
    requires { vec_len rows.old < vec_capacity rows.old }
    ensures items { rows.new.items ≡ rows.old.items ++ option_to_list row }
    ensures len { vec_len rows.new ≤ vec_len rows.old + 1 }
    ensures capacity { vec_capacity rows.new ≡ vec_capacity rows.old }
{
    if let Some(row) = row {
        rows.push_reserved(row);
    }
}
