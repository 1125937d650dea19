// Writes numbers into the bytes of the stack.

ghost use Rattle.std.specs.Prelude.{◌≡◌, ◌+◌, ◌≤◌, length};
ghost use Rattle.byteorder.specs.Endian.{little_bytes};
ghost use Rattle.bpf_model.specs.Reading.{bytes_in};
ghost use Rattle.verifier.specs.HelperCalls.{stored};
ghost use Rattle.bpf_model.specs.declared.limits.TheConstants.{STACK_BYTES};

use bpf_model::instruction::Size;
use byteorder::{ByteOrder, LittleEndian};

#[inline(always)]
fn put_half(memory: &mut [u8; 512], at: usize, n: u64)
    requires { at + 2 ≤ STACK_BYTES }
    ensures { memory.new ≡ stored memory.old at (little_bytes 2 n) }
{
    LittleEndian::write_u16(&mut memory[at..], (n % 0x1_0000) as u16);
}

#[inline(always)]
fn put_word(memory: &mut [u8; 512], at: usize, n: u64)
    requires { at + 4 ≤ STACK_BYTES }
    ensures { memory.new ≡ stored memory.old at (little_bytes 4 n) }
{
    LittleEndian::write_u32(&mut memory[at..], (n % 0x1_0000_0000) as u32);
}

#[inline(always)]
fn put_double(memory: &mut [u8; 512], at: usize, n: u64)
    requires { at + 8 ≤ STACK_BYTES }
    ensures { memory.new ≡ stored memory.old at (little_bytes 8 n) }
{
    LittleEndian::write_u64(&mut memory[at..], n);
}

/// Writes as many of the lowest bytes of `n` as `size` says, the lowest first.
#[inline(always)]
pub fn put(memory: &mut [u8; 512], at: usize, size: Size, n: u64)
    requires { at + bytes_in size ≤ STACK_BYTES }
    ensures { memory.new ≡ stored memory.old at (little_bytes (bytes_in size) n) }
{
    match size {
        Size::Byte => memory[at] = (n % 0x100) as u8,
        Size::Half => put_half(memory, at, n),
        Size::Word => put_word(memory, at, n),
        Size::Double => put_double(memory, at, n),
    }
}
