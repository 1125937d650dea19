// The fields of a context, by the names that examples/c/forecourt.h gives them.

use bpf_model::context::Layout;

/// A field's name, where its first byte is, and how many it has.
#[derive(Clone, Copy)]
pub(crate) struct Field(pub(crate) &'static str, pub(crate) u64, pub(crate) u64);

const SHARED: [Field; 13] = [
    Field("till", 0, 4),
    Field("point", 4, 4),
    Field("kind", 8, 4),
    Field("state", 12, 4),
    Field("nozzle", 16, 4),
    Field("product", 20, 4),
    Field("asked", 24, 8),
    Field("moment", 32, 8),
    Field("price", 40, 4),
    Field("busy_points", 44, 4),
    Field("unpaid", 48, 4),
    Field("slot", 52, 4),
    Field("cleared", 56, 8),
];

const FURTHER: [Field; 2] = [Field("clears", 64, 8), Field("open_points", 72, 4)];

pub(crate) fn shared_fields() -> &'static [Field] {
    &SHARED
}

/// The fields that follow the shared ones.
pub(crate) fn further_fields(layout: Layout) -> &'static [Field] {
    match layout {
        Layout::One => &[],
        Layout::Two => &FURTHER,
    }
}

/// The name of the field that begins at this byte and has as many.
pub(crate) fn field_name(at: u64, size: u64) -> Option<&'static str> {
    name_in(&SHARED, at, size).or(name_in(&FURTHER, at, size))
}

fn name_in(fields: &'static [Field], at: u64, size: u64) -> Option<&'static str> {
    for Field(name, first, bytes) in fields {
        if *first == at && *bytes == size {
            return Some(*name);
        }
    }
    None
}

/// The number in `size` bytes from `at` on, the lowest byte first; 0 if they aren't all there.
pub(crate) fn number_in(bytes: &[u8], at: u64, size: u64) -> u64 {
    let mut number = 0u64;
    for place in (0..size).rev() {
        let byte = match bytes.get(at.wrapping_add(place) as usize) {
            Some(byte) => *byte,
            None => 0,
        };
        number = number.wrapping_mul(256).wrapping_add(u64::from(byte));
    }
    number
}
