// The counters that programs read and change through helpers. Each has a bound that its value never exceeds.

ghost use Rattle.std.specs.Prelude.{◌≡◌, ℕ, ◌≤◌, ◌<◌, ◌^◌};
ghost use Rattle.std.specs.List.{All};
ghost use Rattle.bpf_model.specs.Machine.{counter};
ghost use Rattle.bpf_model.specs.Runs.{AreCounters};
ghost use Rattle.verifier.specs.CounterChanges.{can_add, after_add, can_take, after_take, adopted};
ghost use Rattle.bpf_model.specs.declared.limits.TheConstants.{COUNTERS};

use std::marker::Model;

/// The 32 counters, each a pair of its value and its bound.
#[derive(Clone, Copy)]
pub struct Counters {
    cells: [(u64, u64); 32],
}

impl Model for Counters {
    ghost use Rattle.std.specs.Prelude.{List, ℕ};
    ghost use Rattle.bpf_model.specs.Runs.{AreCounters};

    ghost Value = { List (ℕ × ℕ) };

    ghost view = { λ c. c.cells };

    ghost invariant = { λ c. AreCounters c.cells };

    ghost inverse = { λ cells. record { cells = cells } };
}

impl Counters {
    pub fn new(cells: [(u64, u64); 32]) -> Counters
        requires { All (λ c. c.0 ≤ c.1) cells }
        ensures { result ≡ cells }
    {
        prove_small(&cells);
        Counters { cells }
    }

    pub fn get(&self, c: u32) -> u64
        requires { c < COUNTERS }
        // proved value, right: It gives a counter's value, within its bound | get_gives_the_bound
        ensures value { result ≡ (counter self.now c).0 }
        ensures right { AreCounters self.now }
    {
        self.cells[c as usize].0
    }

    pub fn bound(&self, c: u32) -> u64
        requires { c < COUNTERS }
        ensures { result ≡ (counter self.now c).1 }
    {
        self.cells[c as usize].1
    }

    /// Returns false, and changes nothing, if the sum would be above the bound.
    pub fn add(&mut self, c: u32, n: u64) -> bool
        requires { c < COUNTERS }
        // proved answer, after: It adds where the sum is within the bound | add_passes_the_bound
        ensures answer { result ≡ can_add self.old c n }
        ensures after { self.new ≡ after_add self.old c n }
    {
        let (value, bound) = self.cells[c as usize];
        if n > bound - value {
            return false;
        }
        self.cells[c as usize] = (value + n, bound);
        true
    }

    /// Copies from `other` the values and bounds of the counters that the mask declares: bit c for counter c.
    pub fn adopt(&mut self, declared: u32, other: &Counters)
        ensures { (c : ℕ) → counter self.new c ≡ adopted declared other.now self.old c }
    {
        if declared == 0 {
            return;
        }
        for c in 0..32 {
            if (declared >> c) % 2 == 1 {
                self.cells[c] = other.cells[c];
            }
        }
    }

    /// Returns false, and changes nothing, if `n` is above the value.
    pub fn take(&mut self, c: u32, n: u64) -> bool
        requires { c < COUNTERS }
        // proved answer, after: It subtracts where there is as much | take_leaves_the_value
        ensures answer { result ≡ can_take self.old c n }
        ensures after { self.new ≡ after_take self.old c n }
    {
        let (value, bound) = self.cells[c as usize];
        if n > value {
            return false;
        }
        self.cells[c as usize] = (value - n, bound);
        true
    }
}

// A law: each bound is below 2^64, because it is a `u64`.
fn prove_small(cells: &[(u64, u64); 32])
    ensures { All (λ c. c.1 < 2 ^ 64) cells.now }
{
    for i in 0..32 {
        let _small = bound_at(cells, i);
    }
}

fn bound_at(cells: &[(u64, u64); 32], c: usize) -> u64
    requires { c < COUNTERS }
    ensures bound { result ≡ (counter cells.now c).1 }
    ensures small { result < 2 ^ 64 }
{
    cells[c].1
}
