//! What another configuration changes at a site, and when.

use site_core::Config;
use std::alloc::{AllocError, Global};
use std::fmt::{self, Display, Write};

/// A key of which two configurations say different things. Points, products and counters have their numbers; what the
/// first configuration says comes before what the second one says.
#[derive(Clone, Copy)]
pub enum KeyDifference {
    Tills(u32, u32),
    Points(usize, usize),
    PriceSlot(u32, u32),
    ReleaseSlot(usize, u32, u32),
    PresetSlot(usize, u32, u32),
    Bound(usize, u64, u64),
    Price(usize, u32, u32),
    Value(usize, u64, u64),
}

impl KeyDifference {
    /// Whether the next day takes what the second configuration says. It doesn't take prices, which tills change, nor the
    /// values of counters, which rules change.
    pub fn is_taken(self) -> bool {
        !matches!(self, KeyDifference::Price(..) | KeyDifference::Value(..))
    }
}

impl Display for KeyDifference {
    fn fmt<W: fmt::Write>(&self, f: &mut fmt::Formatter<W>) -> fmt::Result {
        match *self {
            KeyDifference::Tills(now, then) => write!(f, "tills {then} for {now}"),
            KeyDifference::Points(now, then) => write!(f, "points {then} for {now}"),
            KeyDifference::PriceSlot(now, then) => write!(f, "price_slot {then} for {now}"),
            KeyDifference::ReleaseSlot(point, now, then) => {
                write!(f, "release of point {point} {then} for {now}")
            }
            KeyDifference::PresetSlot(point, now, then) => {
                write!(f, "preset of point {point} {then} for {now}")
            }
            KeyDifference::Bound(counter, now, then) => {
                write!(f, "bound of counter {counter} {then} for {now}")
            }
            KeyDifference::Price(product, ..) => write!(f, "price of product {product}"),
            KeyDifference::Value(counter, ..) => write!(f, "value of counter {counter}"),
        }
    }
}

/// Returns in what `given` differs from `own`, in the order of the variants.
pub fn differences(
    alloc: Global,
    own: &Config,
    given: &Config,
) -> Result<Vec<KeyDifference>, AllocError> {
    let mut found = Vec::new(alloc);
    if own.tills() != given.tills() {
        found.push(KeyDifference::Tills(own.tills(), given.tills()))?;
    }
    add_points(&mut found, own.points(), given.points())?;
    if own.price_slot() != given.price_slot() {
        found.push(KeyDifference::PriceSlot(own.price_slot(), given.price_slot()))?;
    }
    add_counters(&mut found, &own.counters(), &given.counters())?;
    add_prices(&mut found, &own.prices(), &given.prices())?;
    Ok(found)
}

fn add_points(
    found: &mut Vec<KeyDifference>,
    own: &[(u32, u32)],
    given: &[(u32, u32)],
) -> Result<(), AllocError> {
    if own.len() != given.len() {
        found.push(KeyDifference::Points(own.len(), given.len()))?;
    }
    for (at, (now, then)) in own.iter().zip(given).enumerate() {
        let point = at.saturating_add(1);
        if now.0 != then.0 {
            found.push(KeyDifference::ReleaseSlot(point, now.0, then.0))?;
        }
        if now.1 != then.1 {
            found.push(KeyDifference::PresetSlot(point, now.1, then.1))?;
        }
    }
    Ok(())
}

fn add_counters(
    found: &mut Vec<KeyDifference>,
    own: &[(u64, u64); 32],
    given: &[(u64, u64); 32],
) -> Result<(), AllocError> {
    for (counter, (now, then)) in own.iter().zip(given).enumerate() {
        if now.1 != then.1 {
            found.push(KeyDifference::Bound(counter, now.1, then.1))?;
        }
        if now.0 != then.0 {
            found.push(KeyDifference::Value(counter, now.0, then.0))?;
        }
    }
    Ok(())
}

fn add_prices(
    found: &mut Vec<KeyDifference>,
    own: &[u32; 8],
    given: &[u32; 8],
) -> Result<(), AllocError> {
    for (at, (now, then)) in own.iter().zip(given).enumerate() {
        if now != then {
            found.push(KeyDifference::Price(at.saturating_add(1), *now, *then))?;
        }
    }
    Ok(())
}

/// Returns what the next day takes of `given`, as in `tills 3 for 2, points 6 for 5`, or `nothing`.
pub fn taken_words(alloc: Global, found: &[KeyDifference]) -> Result<String, AllocError> {
    words_of(alloc, found, true)
}

/// Returns what no day takes of `given`, as in `price of product 1`, or `nothing`.
pub fn untaken_words(alloc: Global, found: &[KeyDifference]) -> Result<String, AllocError> {
    words_of(alloc, found, false)
}

fn words_of(alloc: Global, found: &[KeyDifference], is_taken: bool) -> Result<String, AllocError> {
    let mut words = String::new(alloc);
    for difference in found {
        if difference.is_taken() == is_taken {
            if !words.is_empty() {
                words.push_str(", ")?;
            }
            write!(words, "{difference}")?;
        }
    }
    if words.is_empty() {
        words.push_str("nothing")?;
    }
    Ok(words)
}
