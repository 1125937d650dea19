//! The machine's clock, which gives the sessions their moments.
ghost use Rattle.std.specs.Prelude.{◌≡◌};

use crate::desk::Clock;
use std::time;
use std::time::{SystemTime, UNIX_EPOCH};

/// Gives the machine's time in whole seconds since the start of 1970. If that can't be read, or is before 1970, it
/// gives its last moment again.
#[derive(Drop)]
pub struct MachineClock<'a, R: time::Clock> {
    rt: &'a R,
    /// 0 if there is none yet.
    pub last: u64,
}

impl<'a, R: time::Clock> MachineClock<'a, R> {
    pub fn new(rt: &'a R) -> MachineClock<'a, R>
        ensures { result.last ≡ 0 }
    {
        MachineClock { rt, last: 0 }
    }
}

impl<R: time::Clock> Clock for MachineClock<'_, R> {
    ghost tick = { λ _ moment after. after.last ≡ moment };

    fn now(&mut self) -> u64 {
        if let Ok(time) = SystemTime::now(self.rt) {
            if let Ok(since) = time.duration_since(UNIX_EPOCH) {
                self.last = since.as_secs();
            }
        }
        self.last
    }
}
