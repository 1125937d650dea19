//! The comparison of the site's current state with the state that a run was made on. Places are counted from 0.

ghost use Rattle.std.specs.Prelude.{◌≡◌, ◌≢◌, ◌↔◌, ◌<◌, IsTrue, ◌^◌, length, MatchOption, MatchResult, Some, None};
ghost use Rattle.std.specs.Prelude.{option_map, IfSome, ◌≤◌, drop, max};
ghost use Rattle.std.specs.Arc.{arc_value};
ghost use Rattle.interp.specs.Depends.{Agrees};
ghost use Rattle.site_core.specs.SlotsValue.{Version};
ghost use Rattle.site_core.specs.Slots.{version_in};
ghost use Rattle.bpf_model.specs.Machine.{counter};
ghost use Rattle.site_core.specs.Decide.{is_declared};
ghost use Rattle.site_core.specs.Differences.{FirstDiffers, CounterDiffers};
ghost use Rattle.bpf_model.specs.declared.limits.TheConstants.{COUNTERS, POINTS};

use crate::slots::Slots;
use std::sync::Arc;
use verifier::{Counters, PointView, Program, View};

pub fn first_byte(a: &[u8], b: &[u8]) -> Option<u32>
    requires many { length a.now ≡ length b.now }
    requires small { length a.now < 2 ^ 32 }
    ensures { MatchOption result (a.now ≡ b.now) (FirstDiffers a.now b.now) }
{
    // `==` compares several bytes at once.
    if a == b {
        return None;
    }
    for i in 0..a.len() {
        if a[i] != b[i] {
            return Some(i as u32);
        }
    }
    None
}

pub fn greater_point_count(a: &View, b: &View) -> u32
    ensures { result ≡ max a.now.count b.now.count }
{
    if a.count < b.count { b.count } else { a.count }
}

/// Returns the first of `count` points that differs, counted from 0. All others must be the same.
pub fn first_point(count: u32, a: &[PointView; 32], b: &[PointView; 32]) -> Option<u32>
    requires count { count ≤ POINTS }
    requires others { drop count a.now ≡ drop count b.now }
    ensures within { IfSome result (λ place. place < POINTS) }
    ensures first { MatchOption result (a.now ≡ b.now) (FirstDiffers a.now b.now) }
{
    for i in 0..count as usize {
        if a[i] != b[i] {
            return Some(i as u32);
        }
    }
    None
}

pub fn first_price(a: &[u32; 8], b: &[u32; 8]) -> Option<u32>
    ensures within { IfSome result (λ place. place < 8) }
    ensures first { MatchOption result (a.now ≡ b.now) (FirstDiffers a.now b.now) }
{
    // `==` compares several prices at once.
    if a == b {
        return None;
    }
    for i in 0..8 {
        if a[i] != b[i] {
            return Some(i as u32);
        }
    }
    None
}

fn is_same_counter(declared: u32, a: &Counters, b: &Counters, c: u32) -> bool
    requires { c < COUNTERS }
    ensures { IsTrue result ↔ (IsTrue (is_declared declared c) → counter a.now c ≡ counter b.now c) }
{
    if (declared >> c) % 2 != 1 {
        return true;
    }
    a.get(c) == b.get(c) && a.bound(c) == b.bound(c)
}

pub fn first_counter(declared: u32, a: &Counters, b: &Counters) -> Option<u32>
    ensures { MatchOption result (Agrees declared b.now a.now) (CounterDiffers declared a.now b.now) }
{
    if declared == 0 {
        return None;
    }
    // So the prover knows that there are 32 counters each.
    let _counters = (a.get(0), b.get(0));
    for c in 0..32 {
        if !is_same_counter(declared, a, b, c) {
            return Some(c);
        }
    }
    None
}

pub fn is_same_program(a: &Program, b: &Program) -> bool
    ensures { IsTrue result ↔ (a.now ≡ b.now) }
{
    a.declared() == b.declared() && a.layout() == b.layout() && a.bytes() == b.bytes()
}

/// Returns whether the slot has this version. The error is the number of the version that it has, if any.
pub fn is_version(
    slots: &Slots,
    slot: u32,
    number: u32,
    program: &Program,
) -> Result<(), Option<u32>>
    ensures { let version : Version = record { number = number; program = program.now } in
        MatchResult result (λ _. version_in slots.now slot ≡ Some version)
        (λ now. (version_in slots.now slot ≢ Some version)
        × (now ≡ option_map (λ (v : Version). v.number) (version_in slots.now slot))) }
{
    match slots.in_slot(slot) {
        None => Err(None),
        Some((installed, held)) => {
            if installed == number && is_same_program(held, program) {
                Ok(())
            } else {
                Err(Some(installed))
            }
        }
    }
}
