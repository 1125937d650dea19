// The facts that the verifier stores. An index gives a unit's fact without a search.

ghost use Rattle.std.specs.Prelude.{◌≡◌, ℕ, ◌≤◌, ◌+◌, ◌∷◌, [], IfOk, IfSome, OnOk, IsTrue};
ghost use Rattle.std.specs.Prelude.{false, Some, None, replicate};
ghost use Rattle.std.specs.Prelude.{◌≢◌, IsOk, slice_set};
ghost use Rattle.verifier.specs.Facts.{IsPlace, AreDistinct, stored};
ghost use Rattle.verifier.specs.Inference.{arrived};
ghost use Rattle.verifier.specs.Passing.{AreSame, IsJoined, fact_if};
ghost use Rattle.bpf_model.specs.declared.limits.TheConstants.{UNITS};

use crate::types::{Fact, StoredFact};
use std::alloc::{AllocError, Global};
use std::marker::Model;

/// At most one fact for each of the units 0 to 512: what is known so far of the state in which a run comes there.
#[derive(Drop)]
pub struct Table {
    facts: Vec<StoredFact>,
    // For each unit, one more than the index of its fact in `facts`; 0 if it has none.
    places: [usize; 513],
}

impl Model for Table {
    ghost use Rattle.std.specs.Prelude.{List};
    ghost use Rattle.verifier.specs.declared.types.StoredFact.{StoredFact};
    ghost use Rattle.verifier.specs.Facts.{IsIndexed};

    ghost Value = { List StoredFact };

    ghost view = { λ t. t.facts.items };

    ghost invariant = { λ t. IsIndexed t.facts.items t.places };
}

fn first_alone() -> [usize; 513]
    ensures { result ≡ slice_set (replicate (UNITS + 1) 0) 0 1 }
{
    let mut places = [0; 513];
    places[0] = 1;
    places
}

impl Table {
    /// Has `fact` for unit 0, and no other.
    pub fn new(alloc: Global, fact: &Fact) -> Result<Table, AllocError>
        ensures { IfOk result (λ table. table ≡ record { at = 0; fact = fact.now } ∷ []) }
    {
        let mut facts = Vec::new(alloc);
        facts.push(StoredFact { at: 0, fact: *fact })?;
        Ok(Table {
            facts,
            places: first_alone(),
        })
    }

    fn place_of(&self, at: u32) -> Option<usize>
        requires { at ≤ UNITS }
        ensures found { IfSome result (λ k. IsPlace self.now at k) }
        ensures none { result ≡ None → stored self.now at ≡ None }
    {
        match self.places[at as usize] {
            0 => None,
            behind => Some(behind - 1),
        }
    }

    /// Copies the stored fact of unit `at`, if it has one, and returns whether it has.
    pub fn read_at(&self, at: u32, fact: &mut Fact) -> bool
        requires { at ≤ UNITS }
        ensures { fact_if result fact.new ≡ stored self.now at }
    {
        match self.place_of(at) {
            Some(k) => {
                *fact = self.facts[k].fact;
                true
            }
            None => false,
        }
    }

    /// Sets both `fact` and the stored fact of unit `at` to their join. False, and nothing changes, if it has none.
    pub fn join_at(&mut self, at: u32, fact: &mut Fact) -> bool
        requires { at ≤ UNITS }
        ensures joined { IsTrue result → IsJoined at fact.old (stored self.old) (stored self.new) }
        ensures both { IsTrue result → stored self.new at ≡ Some fact.new }
        ensures none { result ≡ false → (stored self.old at ≡ None) × (self.new ≡ self.old) × (fact.new ≡ fact.old) }
    {
        let Some(k) = self.place_of(at) else {
            return false;
        };
        self.facts[k].fact.join(fact);
        true
    }

    fn push(&mut self, at: u32, fact: &Fact) -> Result<(), AllocError>
        requires small { at ≤ UNITS }
        requires new { stored self.old at ≡ None }
        ensures { OnOk result ((q : ℕ) → AreSame (stored self.new q) (arrived q fact.now at (stored self.old q))) }
    {
        self.facts.push(StoredFact { at, fact: *fact })?;
        self.places[at as usize] = self.facts.len();
        Ok(())
    }

    /// Adds the fact that a jump brings to its target `at`. Memory is taken only if the target has no stored fact.
    pub fn enter(&mut self, at: u32, fact: &Fact) -> Result<(), AllocError>
        requires { at ≤ UNITS }
        ensures entered { OnOk result ((q : ℕ)
            → AreSame (stored self.new q) (arrived q fact.now at (stored self.old q))) }
        ensures known { stored self.old at ≢ None → IsOk result }
    {
        if self.place_of(at).is_none() {
            return self.push(at, fact);
        }
        let mut entering = *fact;
        let _stored = self.join_at(at, &mut entering);
        Ok(())
    }

    /// In the order in which the units first got a fact, which the contract doesn't promise.
    pub fn into_facts(self) -> Vec<StoredFact>
        ensures same { result.items ≡ self }
        ensures distinct { AreDistinct result.items }
    {
        self.facts
    }
}
