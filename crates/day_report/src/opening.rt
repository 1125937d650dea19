//! What a day begins with: the points, the prices, and the rules that are carried in from the day before.

ghost use Rattle.std.specs.Prelude.{◌≡◌, ◌≤◌, [], IfOk, IsOk, length, replicate};
ghost use Rattle.fuelling_point.specs.Table.{fresh_point};
ghost use Rattle.site_core.specs.State.{opening_state, opened_state, fresh_state};
ghost use Rattle.day_report.specs.Carried.{carried_at, carried_from, carried_rules};

use crate::pushing::push_some;
use fuelling_point::Point;
use site_core::{Config, Opening, Version};
use std::alloc::{AllocError, Global};

/// Returns the points that a site of this configuration starts with: the points of the configuration's opening (the
/// state that a day begins with), or, if there is no opening, a closed point for each point of the configuration.
pub fn opening_points(alloc: Global, config: &Config) -> Result<Vec<Point>, AllocError>
    // proved: A day begins with its opening's points | carried_points_are_left_out
    ensures { IfOk result (λ points. points.items ≡ (opening_state config.now).points) }
{
    match config.opening() {
        None => closed_points(alloc, config),
        Some(opening) => points_in(alloc, opening),
    }
}

/// Returns a closed point for each point of the configuration.
fn closed_points(alloc: Global, config: &Config) -> Result<Vec<Point>, AllocError>
    ensures { IfOk result (λ points. points.items ≡ (fresh_state config.now).points) }
{
    new_points(alloc, config.points().len())
}

fn new_points(alloc: Global, count: usize) -> Result<Vec<Point>, AllocError>
    ensures { IfOk result (λ points. points.items ≡ replicate count fresh_point) }
{
    vec![in alloc; Point::new(); count]
}

/// Returns a copy of the points of an opening (the state that a day begins with).
fn points_in(alloc: Global, opening: &Opening) -> Result<Vec<Point>, AllocError>
    ensures { IfOk result (λ points. points.items ≡ (opened_state opening.now).points) }
{
    Vec::from_slice(alloc, opening.points.as_slice())
}

/// Returns the prices of products 1 to 8 that a site of this configuration starts with: the prices of the
/// configuration's opening, or the configuration's own prices if there is no opening. Prices are in thousandths of the
/// currency per litre; 0 is no price.
pub fn opening_prices(config: &Config) -> [u32; 8]
    // proved: A day begins with its opening's prices
    ensures { result ≡ (opening_state config.now).prices }
{
    match config.opening() {
        None => config.prices(),
        Some(opening) => opening.prices,
    }
}

/// A rule that is carried in from the day before: its slot, 0 to 15, and the number of its version.
#[derive(Clone, Copy)]
pub struct CarriedRule {
    pub slot: u32,
    pub version: u32,
}

fn carried_at(slot: u32, rule: &Option<Version>) -> Option<CarriedRule>
    ensures { result ≡ carried_at slot rule.now }
{
    match rule {
        None => None,
        Some(version) => Some(CarriedRule {
            slot,
            version: version.number,
        }),
    }
}

/// Returns the rules of the slots that aren't empty, in the order of the slots. `rules` has an item for each slot, slot
/// 0 first, and must have at most 16 items.
pub(crate) fn rules_in(
    alloc: Global,
    rules: &[Option<Version>],
) -> Result<Vec<CarriedRule>, AllocError>
    requires { length rules.now ≤ 16 }
    ensures found { IfOk result (λ found. found.items ≡ carried_from 0 rules.now) }
    ensures none { carried_from 0 rules.now ≡ [] → IsOk result }
{
    let mut found = Vec::new(alloc);
    for (slot, rule) in rules.iter().enumerate() {
        push_some(&mut found, carried_at(slot as u32, rule))?;
    }
    Ok(found)
}

/// Returns the rules that a site of this configuration begins with, in the order of the slots.
pub fn carried_rules(alloc: Global, config: &Config) -> Result<Vec<CarriedRule>, AllocError>
    // proved found, none: It finds the rules that are carried in
    ensures found { IfOk result (λ found. found.items ≡ carried_rules config.now) }
    ensures none { carried_rules config.now ≡ [] → IsOk result }
{
    match config.opening() {
        None => Ok(Vec::new(alloc)),
        Some(opening) => rules_in(alloc, &opening.rules),
    }
}
