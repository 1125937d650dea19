//! The configuration of a site.

ghost use Rattle.std.specs.Prelude.{◌≡◌, ◌<◌, ◌≤◌, ◌↔◌, All, IfOk, IfErr, OnOk, IfSome, IsTrue, MatchOption, Some, None, is_some, length, option_map};
ghost use Rattle.std.specs.Arc.{arc_value};
ghost use Rattle.site_core.specs.Opening.{IsOpening};
ghost use Rattle.site_core.specs.Fitting.{Misfits};
ghost use Rattle.site_core.specs.Limits.{ConfigValue, IsConfig, IsCounter};
ghost use Rattle.std.specs.Bool.{OnTrue};
ghost use Rattle.site_core.specs.Decide.{is_till, slots_of};

use crate::opening::{Opening, OpeningFault};
use std::alloc::{AllocError, Global};
use std::marker::Model;
use std::sync::Arc;

/// The greatest bound of a counter: the greatest number that a configuration's text can have.
const MOST_COUNTER: u64 = 9_223_372_036_854_775_807;

/// The configuration that a site is started from. Each value is in the range that `Config::new` names. With an opening
/// the site begins with the opening's prices and counters, and with its points, versions and totals.
#[derive(Drop)]
pub struct Config {
    tills: u32,
    price_slot: u32,
    prices: [u32; 8],
    points: Vec<(u32, u32)>,
    counters: [(u64, u64); 32],
    opening: Option<Arc<Opening>>,
}

impl Model for Config {
    ghost use Rattle.std.specs.Prelude.{option_map};
    ghost use Rattle.std.specs.Arc.{arc_value};
    ghost use Rattle.site_core.specs.Limits.{ConfigValue, IsConfig};

    ghost Value = { ConfigValue };

    ghost view = { λ c. record {
      tills = c.tills;
      price_slot = c.price_slot;
      prices = c.prices;
      points = c.points.items;
      counters = c.counters;
      opening = option_map (λ o. arc_value o) c.opening;
    } };

    ghost invariant = { λ c. IsConfig (record {
      tills = c.tills;
      price_slot = c.price_slot;
      prices = c.prices;
      points = c.points.items;
      counters = c.counters;
      opening = option_map (λ o. arc_value o) c.opening;
    }) };
}

fn are_in_range(prices: &[u32; 8], points: &[(u32, u32)], counters: &[(u64, u64); 32]) -> bool
    ensures { IsTrue result ↔ All (λ price. price ≤ 9999999) prices.now × (1 ≤ length points.now)
        × (length points.now ≤ 32) × All (λ p. (p.0 ≤ 15) × (p.1 ≤ 15)) points.now × All IsCounter counters.now }
{
    (1..=32).contains(&points.len())
        && prices.iter().all(|price| *price <= 9_999_999)
        && points
            .iter()
            .all(|(release, preset)| *release <= 15 && *preset <= 15)
        && counters
            .iter()
            .all(|(value, bound)| value <= bound && *bound <= MOST_COUNTER)
}

impl Config {
    /// Makes a configuration without an opening: for each point the slots of the programs that decide its releases and
    /// its presets, for each counter its value and its bound. Returns `None` if a value is out of its range: 1 to 64
    /// tills, 1 to 32 points, slots 0 to 15, prices up to 9,999,999 thousandths of the currency per litre (0 for none),
    /// counters' values up to their bounds, and bounds up to 2^63 - 1.
    pub fn new(
        tills: u32,
        price_slot: u32,
        prices: [u32; 8],
        points: Vec<(u32, u32)>,
        counters: [(u64, u64); 32],
    ) -> Option<Config>
        ensures value { let value : ConfigValue = record {
          tills = tills;
          price_slot = price_slot;
          prices = prices;
          points = points.items;
          counters = counters;
          opening = None;
        } in
            IfSome result (λ config. config ≡ value) }
        ensures variant { let value : ConfigValue = record {
          tills = tills;
          price_slot = price_slot;
          prices = prices;
          points = points.items;
          counters = counters;
          opening = None;
        } in
            IsTrue (is_some result) ↔ IsConfig value }
    {
        if tills < 1 || tills > 64 || price_slot > 15 {
            return None;
        }
        if !are_in_range(&prices, points.as_slice(), &counters) {
            return None;
        }
        Some(Config {
            tills,
            price_slot,
            prices,
            points,
            counters,
            opening: None,
        })
    }

    /// Returns a copy, which shares the opening. The opening's `Arc` may have too many owners for that.
    pub fn copied(&self, alloc: Global) -> Result<Config, AllocError>
        ensures { IfOk result (λ config. config ≡ self.now) }
    {
        let points = Vec::from_slice(alloc, self.points.as_slice())?;
        let opening = match &self.opening {
            None => None,
            Some(opening) => Some(Arc::try_clone(opening)?),
        };
        Ok(Config {
            tills: self.tills,
            price_slot: self.price_slot,
            prices: self.prices,
            points,
            counters: self.counters,
            opening,
        })
    }

    /// Returns this configuration with this opening. The error is the opening's first fault, or that memory ran out.
    pub fn opened(self, alloc: Global, opening: Opening) -> Result<Config, OpeningFault>
        // proved value, fits, fault: It adds an opening that fits to a configuration
        ensures value { IfOk result (λ config. config ≡ record self { opening = Some opening }) }
        // proved fits, fault: No two slots have one version | two_slots_of_one_version
        ensures fits { OnOk result (IsOpening (length self.points) opening) }
        ensures fault { IfErr result (λ fault. Misfits (length self.points) opening fault) }
        ensures memory { IfErr result (λ fault. fault ≡ OpeningFault.OutOfMemory
            → IsOpening (length self.points) opening) }
    {
        if let Some(fault) = opening.fault(self.points.len()) {
            return Err(fault);
        }
        let opening = match Arc::new(alloc, opening) {
            Ok(opening) => opening,
            Err(_) => return Err(OpeningFault::OutOfMemory),
        };
        Ok(Config {
            tills: self.tills,
            price_slot: self.price_slot,
            prices: self.prices,
            points: self.points,
            counters: self.counters,
            opening: Some(opening),
        })
    }

    pub fn opening(&self) -> Option<&Opening>
        ensures there { MatchOption result (self.now.opening ≡ None) (λ opening. self.now.opening ≡ Some opening.now) }
        ensures good { IfSome result (λ opening. IsOpening (length self.now.points) opening.now) }
        ensures range { IsConfig self.now }
    {
        match &self.opening {
            None => None,
            Some(opening) => Some(opening),
        }
    }

    pub fn is_same(&self, other: &Config) -> bool
        ensures { IsTrue result ↔ (self.now ≡ other.now) }
    {
        if self.tills != other.tills
            || self.price_slot != other.price_slot
            || self.prices != other.prices
        {
            return false;
        }
        is_same_points(self.points.as_slice(), other.points.as_slice())
            && is_same_counters(self.counters.as_slice(), other.counters.as_slice())
            && is_same_opening(&self.opening, &other.opening)
    }

    pub fn tills(&self) -> u32
        ensures { result ≡ self.now.tills }
    {
        self.tills
    }

    pub(crate) fn has_till(&self, till: u32) -> bool
        ensures there { result ≡ is_till self.now till }
        ensures numbered { OnTrue result (0 < till) }
    {
        till >= 1 && till <= self.tills
    }

    pub fn price_slot(&self) -> u32
        ensures { result ≡ self.now.price_slot }
    {
        self.price_slot
    }

    /// Returns the prices in thousandths, 0 for none. A site with an opening begins with the opening's instead.
    pub fn prices(&self) -> [u32; 8]
        ensures { result ≡ self.now.prices }
    {
        self.prices
    }

    /// Returns each counter's value and bound. A site with an opening begins with the opening's instead.
    pub fn counters(&self) -> [(u64, u64); 32]
        ensures { result ≡ self.now.counters }
    {
        self.counters
    }

    /// Returns 0 for a point that the site doesn't have, and for point 0 the slot of point 1.
    pub(crate) fn release_slot(&self, n: u32) -> u32
        ensures { result ≡ (slots_of self.now n).0 }
    {
        self.slots_of(n).0
    }

    /// Returns 0 for a point that the site doesn't have, and for point 0 the slot of point 1.
    pub(crate) fn preset_slot(&self, n: u32) -> u32
        ensures { result ≡ (slots_of self.now n).1 }
    {
        self.slots_of(n).1
    }

    fn slots_of(&self, n: u32) -> (u32, u32)
        ensures { result ≡ slots_of self.now n }
    {
        let at = (n as usize).saturating_sub(1);
        if at < self.points.len() {
            self.points[at]
        } else {
            (0, 0)
        }
    }

    /// Returns for each point the slots whose programs decide its releases and its presets.
    pub fn points(&self) -> &[(u32, u32)]
        ensures points { result.now ≡ self.now.points }
        ensures range { IsConfig self.now }
    {
        self.points.as_slice()
    }
}

fn is_same_opening(a: &Option<Arc<Opening>>, b: &Option<Arc<Opening>>) -> bool
    ensures { IsTrue result ↔ (option_map (λ o. arc_value o) a.now ≡ option_map (λ o. arc_value o) b.now) }
{
    match (a, b) {
        (None, None) => true,
        (Some(a), Some(b)) => a.is_same(b),
        _ => false,
    }
}

// These contracts tell the prover that `==` decides whether two lists of pairs are equal.
fn is_same_points(a: &[(u32, u32)], b: &[(u32, u32)]) -> bool
    ensures { IsTrue result ↔ (a.now ≡ b.now) }
{
    a == b
}

fn is_same_counters(a: &[(u64, u64)], b: &[(u64, u64)]) -> bool
    ensures { IsTrue result ↔ (a.now ≡ b.now) }
{
    a == b
}
