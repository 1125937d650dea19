//! The bytes that a program is run on, made of fields of four or eight bytes.

ghost use Rattle.std.specs.Prelude.{◌≡◌, length};
ghost use Rattle.site_core.specs.Context.{kind_number, size_of, field_bytes, laid};

use crate::question::Kind;
use byteorder::{ByteOrder, LittleEndian};

#[derive(Clone, Copy)]
pub enum Field {
    Four(u32),
    Eight(u64),
}

impl Field {
    fn size(self) -> usize
        ensures { result ≡ size_of self }
    {
        match self {
            Field::Four(_) => 4,
            Field::Eight(_) => 8,
        }
    }

    fn put(self, bytes: &mut [u8])
        requires { length bytes.old ≡ size_of self }
        ensures { bytes.new ≡ field_bytes self }
    {
        match self {
            Field::Four(x) => LittleEndian::write_u32(bytes, x),
            Field::Eight(x) => LittleEndian::write_u64(bytes, x),
        }
    }
}

pub fn kind_number(kind: Kind) -> u32
    ensures { result ≡ kind_number kind }
{
    match kind {
        Kind::Release => 1,
        Kind::Preset => 2,
        Kind::Price => 3,
    }
}

pub fn lay(fields: &[Field], bytes: &mut [u8])
    requires { length bytes.old ≡ length (laid fields.now) }
    ensures { bytes.new ≡ laid fields.now }
{
    let mut at = 0;
    for field in fields {
        let end = at + field.size();
        field.put(&mut bytes[at..end]);
        at = end;
    }
}
