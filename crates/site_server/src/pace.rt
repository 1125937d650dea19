//! How many lines of a door are read in a second.
ghost use Rattle.std.specs.Prelude.{◌≡◌, ◌<◌, ◌≤◌, ℕ, List};
ghost use Rattle.site_server.specs.Pace.{bucket_after, full_credit, refilled, turn_at};
ghost use Rattle.site_server.specs.Pacing.{IsBounded, IsPrompt};

/// The credit for a line, in millionths of a line.
const LINE: u64 = 1_000_000;

/// The credit for lines that the connections of a door have together.
#[derive(Clone, Copy)]
pub struct Bucket {
    /// When the last line was read, in microseconds on the door's own clock.
    pub at: u64,
    /// The credit that was left then, in millionths of a line.
    pub credit: u64,
}

#[derive(Clone, Copy)]
pub enum Turn {
    Now,
    /// Not before this many microseconds have passed, more than 0.
    Later(u64),
}

impl Bucket {
    pub fn full(bound: u32) -> Bucket
        ensures at { result.at ≡ 0 }
        ensures credit { result.credit ≡ full_credit bound }
    {
        Bucket {
            at: 0,
            credit: u64::from(bound) * LINE,
        }
    }

    fn refilled(&self, bound: u32, now: u64) -> u64
        ensures { result ≡ refilled bound now self.now }
    {
        let gained = now.saturating_sub(self.at).saturating_mul(u64::from(bound));
        self.credit
            .saturating_add(gained)
            .min(u64::from(bound) * LINE)
    }

    /// Asks to read a line at `now`, in microseconds on the door's own clock. `bound`, over 0, is how many are read in
    /// a second.
    pub fn take_turn(&mut self, bound: u32, now: u64) -> Turn
        requires { 0 < bound }
        // proved turn, after: A line takes credit, or waits | one_line_more_a_second
        ensures turn { result ≡ turn_at bound now self.old }
        // proved: Clocks don't go back | clock_that_goes_back_gives_credit
        ensures after { self.new ≡ bucket_after bound now self.old }
    {
        let bound_wide = u64::from(bound);
        let credit = self.refilled(bound, now);
        if credit < LINE {
            return Turn::Later((LINE - credit + (bound_wide - 1)) / bound_wide);
        }
        *self = Bucket {
            at: now.max(self.at),
            credit: credit - LINE,
        };
        Turn::Now
    }
}

/// A law: however often a line is asked for, the lines that are read keep to the bound, and one that waits is allowed
/// after its pause.
pub fn law_of_pace()
    // proved bounded, prompt: The law of pace holds
    ensures bounded { (bound : ℕ) (moments : List ℕ) (bucket : Bucket) → IsBounded bound moments bucket }
    ensures prompt { (bound : ℕ) (now : ℕ) (bucket : Bucket) → IsPrompt bound now bucket }
{}
