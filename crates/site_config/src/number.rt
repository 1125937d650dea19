//! Checks that a number is in its range (K3).
ghost use Rattle.std.specs.Prelude.{◌≤◌, ◌≢◌, Err, IfOk};
ghost use Rattle.site_config.specs.Document.{Finds};
ghost use Rattle.site_config.specs.Demands.{ranged};

use crate::flaw::{ConfigFlaw, Place};

/// `value`, which stands at `place`, if it is from `low` to `high`.
pub fn in_range(place: Place, value: i64, low: u32, high: u32) -> Result<u32, ConfigFlaw>
    ensures read { Finds (λ x. x) result (ranged place low high value) }
    ensures range { IfOk result (λ n. (low ≤ n) × (n ≤ high)) }
    ensures memory { result ≢ Err ConfigFlaw.OutOfMemory }
{
    match u32::try_from(value) {
        Ok(number) if low <= number && number <= high => Ok(number),
        _ => Err(ConfigFlaw::OutOfRange(place, value, u64::from(low), u64::from(high))),
    }
}
