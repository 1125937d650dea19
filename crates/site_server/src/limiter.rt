//! A limit on how many lines are printed for an operator in a period, such as a second.
ghost use Rattle.std.specs.Prelude.{◌≡◌};
ghost use Rattle.site_server.specs.Limits.{after_line, may_print};

use std::marker::Model;

/// Lets at most so many lines of a period through, and counts those that it holds back.
#[derive(Drop)]
pub struct Limiter {
    most: u32,
    period: u64,
    allowed: u32,
    held: u64,
}

impl Model for Limiter {
    ghost use Rattle.std.specs.Prelude.{◌≤◌};
    ghost use Rattle.site_server.specs.Limits.{LimiterValue};

    ghost Value = { LimiterValue };

    ghost view = { λ l. record { most = l.most; period = l.period; allowed = l.allowed; held = l.held } };

    ghost invariant = { λ l. l.allowed ≤ l.most };
}

impl Limiter {
    pub fn new(most: u32) -> Limiter
        ensures most { result.most ≡ most }
        ensures period { result.period ≡ 0 }
        ensures allowed { result.allowed ≡ 0 }
        ensures held { result.held ≡ 0 }
    {
        Limiter {
            most,
            period: 0,
            allowed: 0,
            held: 0,
        }
    }

    /// Whether a line of this period (a number of seconds or minutes, say) is let through: if so, how many were held
    /// back since the last one that was.
    pub fn admit(&mut self, period: u64) -> Option<u64>
        // proved admitted, after: So many lines of a period pass | one_line_more_in_a_period
        ensures admitted { result ≡ may_print self.old period }
        ensures after { self.new ≡ after_line self.old period }
    {
        if period != self.period {
            self.period = period;
            self.allowed = 0;
        }
        if self.allowed < self.most {
            let held = self.held;
            self.allowed += 1;
            self.held = 0;
            Some(held)
        } else {
            self.held = self.held.saturating_add(1);
            None
        }
    }
}
