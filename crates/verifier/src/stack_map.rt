// Sets of bytes of a program's stack. A byte is named by its place: 0 to 511, counted from the lowest byte.

ghost use Rattle.std.specs.Prelude.{◌≡◌, ℕ, ◌+◌, ◌-◌, ◌*◌, ◌^◌, ◌<◌, ◌≤◌, ◌⊎◌, ◌↔◌, IsTrue};
ghost use Rattle.std.specs.Int.{bit_at};
ghost use Rattle.verifier.specs.Places.{Has, Within};
ghost use Rattle.bpf_model.specs.declared.limits.TheConstants.{STACK_BYTES};

use std::marker::Model;

/// Bit i of word k is 1 if place 64 k + i is in the set.
#[derive(Clone, Copy)]
pub struct StackMap {
    words: [u64; 8],
}

impl Model for StackMap {
    ghost use Rattle.std.specs.Prelude.{List, Bool};
    ghost use Rattle.std.proofs.Common.{ap};
    ghost use Rattle.verifier.specs.Places.{places_of, words_of, AreWords};
    ghost use Rattle.verifier.specs.StackWords.{words_kept};

    ghost Value = { List Bool };

    ghost view = { λ s. places_of s.words };

    ghost inverse = { λ places. record { words = words_of 8 places } };

    ghost invariant = { λ s. AreWords s.words };

    ghost inverse_ok = { λ s h. ap (λ words. record { words = words }) (words_kept s.words h.many h.small) };
}

fn low_bits(n: u32) -> u64
    requires { n ≤ 64 }
    ensures { result ≡ 2 ^ n - 1 }
{
    if n == 64 { u64::MAX } else { (1 << n) - 1 }
}

// The bits of word number `word` for those of the `len` places from `at` on that it has.
fn mask_of(word: u32, at: u32, len: u32) -> u64
    requires word { word < 8 }
    requires inside { at + len ≤ STACK_BYTES }
    ensures { (i : ℕ) → i < 64 → (bit_at result i ≡ 1) ↔ Within at len (64 * word + i) }
{
    let first = 64 * word;
    let from = at.clamp(first, first + 64) - first;
    let to = (at + len).clamp(first, first + 64) - first;
    low_bits(to) - low_bits(from)
}

impl StackMap {
    pub fn empty() -> StackMap
        ensures { (p : ℕ) → ¬ (Has result p) }
    {
        StackMap { words: [0; 8] }
    }

    /// Adds the `len` places from `at` on.
    pub fn mark(&mut self, at: u32, len: u32)
        requires { at + len ≤ STACK_BYTES }
        // proved: It adds places to the set | mark_takes_places_away
        ensures { (p : ℕ) → Has self.new p ↔ (Has self.old p ⊎ Within at len p) }
    {
        for k in at / 64..(at + len).div_ceil(64) {
            self.words[k as usize] |= mask_of(k, at, len);
        }
    }

    /// Removes the `len` places from `at` on.
    pub fn clear(&mut self, at: u32, len: u32)
        requires { at + len ≤ STACK_BYTES }
        // proved: It removes places from the set | clear_a_place_short
        ensures { (p : ℕ) → Has self.new p ↔ (Has self.old p × ¬ (Within at len p)) }
    {
        for k in at / 64..(at + len).div_ceil(64) {
            self.words[k as usize] &= !mask_of(k, at, len);
        }
    }

    pub fn all_set(&self, at: u32, len: u32) -> bool
        requires { at + len ≤ STACK_BYTES }
        // proved: It says whether places are all set | all_set_returns_the_opposite
        ensures { IsTrue result ↔ ((p : ℕ) → Within at len p → Has self.now p) }
    {
        for k in at / 64..(at + len).div_ceil(64) {
            let mask = mask_of(k, at, len);
            if self.words[k as usize] & mask != mask {
                return false;
            }
        }
        true
    }

    /// Removes each place that isn't in `other`.
    pub fn meet(&mut self, other: &StackMap)
        // proved: It gives what two sets share | meet_is_the_union
        ensures { (p : ℕ) → Has self.new p ↔ (Has self.old p × Has other.now p) }
    {
        for k in 0..8 {
            self.words[k] &= other.words[k];
        }
    }
}
