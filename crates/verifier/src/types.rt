// The types of the verifier's code: what is known of a register (`RegType`), facts, and what an instruction does to a
// fact.

ghost use Rattle.std.specs.Prelude.{◌≡◌, ℕ, ◌↔◌, ◌≤◌, ◌+◌};
ghost use Rattle.verifier.specs.Places.{Has};
ghost use Rattle.verifier.specs.Rules.{type_at, is_unset, is_pointer, is_numeric, join_type, spill_of as spill_by};
ghost use Rattle.verifier.specs.Effects.{effect_of};
ghost use Rattle.verifier.specs.Facts.{HasAfter, IsAfter, IsEntry, jump_of, next_of};
ghost use Rattle.verifier.specs.Inference.{join_fact, respilled};
ghost use Rattle.verifier.specs.Passing.{IsSame};
ghost use Rattle.bpf_model.specs.declared.limits.TheConstants.{STACK_BYTES};

use crate::spills::{join_spills, put_spill, spill_of};
use crate::stack_map::StackMap;
use bpf_model::context::Layout;

/// What is known of a register: nothing, that it holds a number, which one, or where it points. `Ctx` counts bytes from
/// the context's first byte, 0 to 80, and `Stk` from the stack's end, -512 to 0.
#[derive(Clone, Copy, PartialEq)]
pub enum RegType {
    Unset,
    Num,
    Const(u64),
    Ctx(u32),
    Stk(i32),
}

/// What a program is loaded with. Bit c of `mask` is 1 if it declares counter c.
#[derive(Clone, Copy)]
pub struct LoadOptions {
    pub mask: u32,
    pub layout: Layout,
}

/// The abstract state before an instruction: the types of registers 0 to 10, which stack bytes hold a byte of a number,
/// and the pointers spilled in the 64 aligned places of eight bytes, the lowest first (`spill_of` has the numbers).
#[derive(Clone, Copy)]
pub struct Fact {
    pub types: [RegType; 11],
    pub stack: StackMap,
    pub spills: [u16; 64],
}

#[derive(Clone, Copy)]
pub struct StoredFact {
    pub at: u32,
    pub fact: Fact,
}

/// The fact that goes on to the instruction at unit `at`; `None` if a run can't continue there.
#[derive(Clone, Copy)]
pub struct CarriedFact {
    pub at: Option<u32>,
    pub fact: Fact,
}

/// What an instruction writes to the stack: `len` bytes from byte `at` on, counted from the lowest; both 0 for nothing.
/// `spilled` is the pointer that it writes there; with `Unset` the bytes become those of a number.
#[derive(Clone, Copy)]
pub struct StackWrite {
    pub at: u32,
    pub len: u32,
    pub spilled: RegType,
}

/// A `TypeFault` without its unit. `NotANumber` has the register (0 to 10), and `BadArgument` the argument (1 or 2).
#[derive(Clone, Copy)]
pub enum Flaw {
    FallsOff,
    WriteR10,
    NotANumber(u8),
    NotAPointer,
    OutOfRange,
    UnsetBytes,
    StoreToContext,
    StorePointer,
    PointerArithmetic,
    NoSuchHelper,
    BadArgument(u8),
    UndeclaredCounter,
}

/// The units at which a run can continue. `Either` has the jump's target first.
#[derive(Clone, Copy)]
pub enum Successors {
    End,
    Next(u32),
    Jump(u32),
    Either(u32, u32),
}

impl Successors {
    pub fn jump(self) -> Option<u32>
        ensures { result ≡ jump_of self }
    {
        match self {
            Successors::Jump(to) | Successors::Either(to, _) => Some(to),
            Successors::End | Successors::Next(_) => None,
        }
    }

    /// The next instruction's unit; `None` if a run can't continue there.
    pub fn next(self) -> Option<u32>
        ensures { result ≡ next_of self }
    {
        match self {
            Successors::Next(to) | Successors::Either(_, to) => Some(to),
            Successors::End | Successors::Jump(_) => None,
        }
    }
}

impl RegType {
    pub fn is_unknown(self) -> bool
        ensures { result ≡ is_unset self }
    {
        matches!(self, RegType::Unset)
    }

    pub fn holds_pointer(self) -> bool
        ensures { result ≡ is_pointer self }
    {
        matches!(self, RegType::Ctx(_) | RegType::Stk(_))
    }

    pub fn holds_number(self) -> bool
        ensures { result ≡ is_numeric self }
    {
        matches!(self, RegType::Num | RegType::Const(_))
    }

    /// Sets both to the most exact type that includes both. Writes nothing if they are the same.
    #[inline(always)]
    pub fn join(&mut self, other: &mut RegType)
        ensures joined { self.new ≡ join_type self.old other.old }
        ensures both { other.new ≡ self.new }
    {
        if self.is_unknown() && other.is_unknown() {
            return;
        }
        if *self != *other {
            *self = if self.holds_number() && other.holds_number() {
                RegType::Num
            } else {
                RegType::Unset
            };
            *other = *self;
        }
    }
}

impl Fact {
    /// R1 points to the context's first byte and R10 to the stack's end. Nothing else is known.
    pub fn entry() -> Fact
        ensures { IsEntry result }
    {
        let mut types = [RegType::Unset; 11];
        types[1] = RegType::Ctx(0);
        types[10] = RegType::Stk(0);
        Fact {
            types,
            stack: StackMap::empty(),
            spills: [0; 64],
        }
    }

    /// Sets both to one fact, which says only what both said.
    pub fn join(&mut self, other: &mut Fact)
        ensures joined { IsSame self.new (join_fact self.old other.old) }
        ensures both { other.new ≡ self.new }
    {
        self.stack.meet(&other.stack);
        join_spills(&mut self.spills, &other.spills);
        for r in 0..11 {
            self.types[r].join(&mut other.types[r]);
        }
        // Copied last, since a processor stalls when it reads in wide words what it has just written in narrow ones.
        other.stack = self.stack;
        other.spills = self.spills;
    }

    /// Changes which bytes are set and which pointers are spilled; the types stay.
    pub fn apply(&mut self, mark: StackWrite)
        requires { mark.at + mark.len ≤ STACK_BYTES }
        ensures { IsAfter self.old (effect_of self.old.types mark) self.new }
    {
        if mark.at > 0 || mark.len > 0 {
            self.write(mark);
        }
    }

    // A number's bytes become set, and the places that they touch lose their pointers; a pointer's bytes are no longer
    // set. A write of 0 bytes sets and clears no byte, but can change what is spilled in the place that has byte
    // `mark.at`.
    fn write(&mut self, mark: StackWrite)
        requires { mark.at + mark.len ≤ STACK_BYTES }
        ensures types { self.new.types ≡ self.old.types }
        ensures places { (p : ℕ)
            → Has self.new.stack p ↔ HasAfter (is_unset mark.spilled) self.old.stack mark.at mark.len p }
        ensures spills { self.new.spills ≡ respilled (spill_by mark.spilled) mark.at mark.len 0 self.old.spills }
    {
        if mark.spilled.is_unknown() {
            self.stack.mark(mark.at, mark.len);
        } else {
            self.stack.clear(mark.at, mark.len);
        }
        put_spill(&mut self.spills, spill_of(mark.spilled), mark.at, mark.len);
    }
}
