//! The slots that programs are installed in. Each installed program becomes a version, whose number is never used
//! again. The programs of replaced versions are kept.

ghost use Rattle.std.specs.Prelude.{◌≡◌, ℕ, ◌+◌, ◌≤◌, length, map, All, slice_index_or, Some, None};
ghost use Rattle.std.specs.Prelude.{MatchOption, OnErr, IfOk, IsOk};
ghost use Rattle.std.specs.List.{range_with_len};
ghost use Rattle.std.specs.Arc.{arc_value};
ghost use Rattle.site_core.specs.Slots.{IsRule, no_versions, opened_slots, version_in, number_in, since_in, program_of};
ghost use Rattle.site_core.specs.Slots.{program_among};
ghost use Rattle.site_core.specs.Installing.{Installs, Refuses};

use crate::version::Version;
use std::alloc::{AllocError, Global};
use std::marker::Model;
use std::sync::Arc;
use verifier::Program;

/// The most versions that can be installed in all slots together, besides those that the slots begin with.
pub const VERSIONS: usize = 4096;

/// Slots are numbered from 0.
pub const SLOTS: u32 = 16;

/// Why a program wasn't installed in a slot, and nothing has changed.
#[derive(Clone, Copy)]
pub enum SlotFault {
    /// S32: there is no such slot; the slots are 0 to 15.
    NoSuchSlot,
    /// S30: 4,096 versions were installed already.
    VersionsFull,
    /// S31: memory ran out.
    OutOfMemory,
}

#[derive(Drop)]
pub struct Slots {
    /// How many versions there were before these slots were made.
    before: u32,
    opened: Vec<Option<Version>>,
    /// For each slot, the number of the version that was installed there last.
    installed: [Option<u32>; 16],
    /// For each slot, the number of the entry that installed this version, or 0.
    since: [u32; 16],
    programs: Vec<Arc<Program>>,
}

impl Model for Slots {
    ghost use Rattle.site_core.specs.SlotsValue.{SlotsValue};

    ghost Value = { SlotsValue };

    ghost use Rattle.site_core.specs.SlotsView.{slots_view, AreSlots};

    ghost view = { slots_view };

    ghost invariant = { AreSlots };
}

impl Slots {
    /// Allocates no memory.
    pub fn new(alloc: Global) -> Self
        ensures { result ≡ no_versions }
    {
        Self::opened(alloc, 0, Vec::new(alloc))
    }

    /// Makes slots that begin with these versions, after `before` versions that were made earlier. Allocates no memory.
    pub fn opened(alloc: Global, before: u32, opened: Vec<Option<Version>>) -> Self
        requires few { before ≤ 4290000000 }
        requires rules { All (IsRule before) opened.items }
        requires places { length opened.items ≤ 16 }
        // proved: Slots begin with the versions of an opening
        ensures { result ≡ opened_slots before opened.items }
    {
        Slots {
            before,
            opened,
            installed: [None; 16],
            since: [0; 16],
            programs: Vec::new(alloc),
        }
    }

    /// Installs a program as a new version, and returns its number. `entry` is the number of the load's entry. After an
    /// error the program is dropped.
    pub fn install(
        &mut self,
        slot: u32,
        program: Arc<Program>,
        entry: u32,
    ) -> Result<u32, SlotFault>
        // proved step, refusal, unchanged: Versions are appended | number_is_used_again
        ensures step { IfOk result
            (λ number. Installs self.old slot (arc_value program) entry number self.new) }
        ensures refusal { Refuses self.old slot result }
        ensures unchanged { OnErr result (self.new ≡ self.old) }
    {
        if slot >= SLOTS {
            return Err(SlotFault::NoSuchSlot);
        }
        if self.programs.len() >= VERSIONS {
            return Err(SlotFault::VersionsFull);
        }
        if self.programs.push(program).is_err() {
            return Err(SlotFault::OutOfMemory);
        }
        let number = self.before + self.programs.len() as u32;
        self.installed[slot as usize] = Some(number);
        self.since[slot as usize] = entry;
        Ok(number)
    }

    /// Returns the number and the program of the version in a slot: the one installed last, else the one of the
    /// beginning.
    pub fn in_slot(&self, slot: u32) -> Option<(u32, &Arc<Program>)>
        ensures { MatchOption result (version_in self.now slot ≡ None)
            (λ v. version_in self.now slot ≡ Some (record { number = v.0; program = arc_value v.1.now })) }
    {
        let Some(number) = *self.installed.get(slot as usize)? else {
            return opened_in(self.opened.as_slice(), slot);
        };
        let program = self.programs.get((number - self.before - 1) as usize)?;
        Some((number, program))
    }

    pub fn installed(&self, slot: u32) -> Option<u32>
        ensures { result ≡ number_in self.now slot }
    {
        let (number, _program) = self.in_slot(slot)?;
        Some(number)
    }

    /// Returns the number of the entry that installed the version in a slot; 0 if the slot has the version of the
    /// beginning, or none.
    pub fn since(&self, slot: u32) -> u32
        // proved: It tells which entry loaded the version in a slot | entry_of_a_load_is_lost
        ensures { result ≡ since_in self.now slot }
    {
        match self.since.get(slot as usize) {
            Some(entry) => *entry,
            None => 0,
        }
    }

    /// Returns the program of a version that was installed in these slots, or that a slot began with.
    pub fn version(&self, number: u32) -> Option<&Arc<Program>>
        ensures { MatchOption result (program_of self.now number ≡ None)
            (λ program. program_of self.now number ≡ Some (arc_value program.now)) }
    {
        if number > self.before {
            self.programs.get((number - self.before - 1) as usize)
        } else {
            program_numbered(self.opened.as_slice(), number)
        }
    }

    /// Returns how many versions there have been, with those before these slots were made.
    pub fn versions(&self) -> u32
        ensures { result ≡ self.now.before + length self.now.programs }
    {
        self.before + self.programs.len() as u32
    }

    /// Returns the versions in slots 0 to 15, from which `Slots::opened` can make new slots. Programs are shared.
    pub fn rules(&self, alloc: Global) -> Result<Vec<Option<Version>>, AllocError>
        // proved each, good: It returns the version in each slot | replaced_version_is_carried
        ensures each { IfOk result
            (λ rules. rules.items ≡ map (λ slot. version_in self.now slot) (range_with_len 0 16)) }
        ensures good { IfOk result (λ rules. All (IsRule (self.now.before + length self.now.programs)) rules.items) }
    {
        let mut rules = Vec::with_capacity(alloc, SLOTS as usize)?;
        for slot in 0..SLOTS {
            rules.push(self.rule(slot)?)?;
        }
        Ok(rules)
    }

    fn rule(&self, slot: u32) -> Result<Option<Version>, AllocError>
        ensures empty { version_in self.now slot ≡ None → IsOk result }
        ensures same { IfOk result (λ rule. rule ≡ version_in self.now slot) }
        ensures good { IfOk result (λ rule. IsRule (self.now.before + length self.now.programs) rule) }
    {
        // So the prover knows that the invariant of `Slots` holds.
        let _before = &self.before;
        let Some((number, program)) = self.in_slot(slot) else {
            return Ok(None);
        };
        // So the prover knows that the program is good, and that the verifier accepts it.
        let _bytes = program.bytes();
        let program = Arc::try_clone(program)?;
        Ok(Some(Version { number, program }))
    }
}

fn opened_in(opened: &[Option<Version>], slot: u32) -> Option<(u32, &Arc<Program>)>
    ensures { MatchOption result (slice_index_or opened.now slot None ≡ None)
        (λ v. slice_index_or opened.now slot None ≡ Some (record { number = v.0; program = arc_value v.1.now })) }
{
    match opened.get(slot as usize)? {
        Some(version) => Some((version.number, &version.program)),
        None => None,
    }
}

fn program_numbered(versions: &[Option<Version>], number: u32) -> Option<&Arc<Program>>
    ensures { MatchOption result (program_among versions.now number ≡ None)
        (λ program. program_among versions.now number ≡ Some (arc_value program.now)) }
{
    for version in versions {
        let Some(version) = version else {
            continue;
        };
        if version.number == number {
            return Some(&version.program);
        }
    }
    None
}
