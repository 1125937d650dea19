// Spills: pointers that are stored in the stack. For each aligned place of eight bytes, the verifier has a number that
// says which pointer is spilled there; 0 means none.

ghost use Rattle.std.specs.Prelude.{◌≡◌, ◌==◌, if◌then◌else◌, ◌≤◌, ◌+◌};
ghost use Rattle.verifier.specs.Rules.{spill_of as spill_by, spilled_type as spilled_by};
ghost use Rattle.verifier.specs.Inference.{join_spills as joined, respilled};
ghost use Rattle.bpf_model.specs.declared.limits.TheConstants.{STACK_BYTES};

use crate::rules::above_lowest_byte;
use crate::types::RegType;

/// The number that stands for a pointer of this type in `Fact::spills`: 1 to 81 for `Ctx(0)` to `Ctx(80)`, 82 to 594
/// for `Stk(-512)` to `Stk(0)`, and 82 also below that; 0 for anything else.
pub fn spill_of(value: RegType) -> u16
    ensures { result ≡ spill_by value }
{
    match value {
        RegType::Ctx(k) => if k <= 80 { k as u16 + 1 } else { 0 },
        RegType::Stk(k) => {
            let up = above_lowest_byte(k);
            if up <= 512 { 82 + up as u16 } else { 0 }
        }
        RegType::Unset | RegType::Num | RegType::Const(_) => 0,
    }
}

/// The pointer for which `spill` stands in `Fact::spills`; `Unset` for 0.
pub fn spilled_type(spill: u16) -> RegType
    ensures { result ≡ spilled_by spill }
{
    if spill == 0 {
        RegType::Unset
    } else if spill <= 81 {
        RegType::Ctx(u32::from(spill - 1))
    } else {
        RegType::Stk(i32::from(spill - 82) - 512)
    }
}

#[inline(always)]
fn common_spill(a: u16, b: u16) -> u16
    ensures { result ≡ (if a == b then a else 0) }
{
    if a == b { a } else { 0 }
}

/// A place that has the same pointer in both keeps it; all others have none (0).
pub fn join_spills(spills: &mut [u16; 64], others: &[u16; 64])
    ensures { spills.new ≡ joined spills.old others.now }
{
    for k in 0..64 {
        spills[k] = common_spill(spills[k], others[k]);
    }
}

/// Writes `spill` for each place of eight bytes that overlaps the `len` bytes from byte `at` of the stack on. Even if
/// `len` is 0, the place that has byte `at` gets it, unless `at` is its first byte.
pub fn put_spill(spills: &mut [u16; 64], spill: u16, at: u32, len: u32)
    requires { at + len ≤ STACK_BYTES }
    ensures { spills.new ≡ respilled spill at len 0 spills.old }
{
    for k in at / 8..(at + len).div_ceil(8) {
        spills[k as usize] = spill;
    }
}
