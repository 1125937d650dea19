//! The values of an opening, why a text isn't one, and why a day leaves none.

use site_core::{Opening, OpeningFault};
use std::fmt;
use verifier::Refusal;

/// What a day leaves for the next.
#[derive(Drop)]
pub struct OpeningFile {
    /// The number of the day that begins with the opening: 2 or more if it was read.
    pub day: u32,
    pub opening: Opening,
    /// How many entries the day before has.
    pub entries: u32,
    /// The SHA-256 of the journal of the day before.
    pub digest: [u8; 32],
}

/// Why bytes aren't the text of an opening. Lines count from 1, up to 4,294,967,295.
#[derive(Drop)]
pub enum OpeningFlaw {
    /// J1: the opening that was read has another line here, or none, and the same lines before.
    BadLine(u32),
    /// J1: the text ends before this line of an opening.
    Ends(u32),
    /// J2: the last line, of this number, has no LF.
    CutLine(u32),
    /// F2: this line is another than that opening has too, and is a version's, whose program the verifier refuses.
    BadProgram {
        line: u32,
        slot: u32,
        program: Vec<u8>,
        refusal: Refusal,
    },
    OutOfMemory,
}

/// Why a day's site leaves no opening.
#[derive(Clone, Copy)]
pub enum Uncarried {
    /// The day is the greatest, 4,294,967,295.
    LastDay,
    /// A number of the site is too great for an opening, or memory ran out.
    Fault(OpeningFault),
}

impl fmt::Display for Uncarried {
    ghost use Rattle.std.specs.Prelude.{Some};
    ghost use Rattle.days.specs.Words.{uncarried_text};

    ghost output = { λ why. Some (uncarried_text why) };

    fn fmt<W: fmt::Write>(&self, f: &mut fmt::Formatter<W>) -> fmt::Result {
        match self {
            Uncarried::LastDay => f.write_str("no day comes after day 4294967295"),
            Uncarried::Fault(fault) => fault.fmt(f),
        }
    }
}
