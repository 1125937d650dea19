//! What lines ask for or report (acts), who sends the lines (roles), and the answers to lines.

ghost use Rattle.std.specs.Prelude.{◌≡◌, ◌==◌, ◌↔◌, ◌<◌, IsTrue, IfOk, OnErr, length};
ghost use Rattle.std.proofs.Common.{rules};
ghost use Rattle.std.specs.Cmp.Rules.{comparing};
ghost use Rattle.std.specs.Cmp.Lexicographic.{pointwise};

use bpf_model::context::Layout;
use fuelling_point::{DispenserEvent, Order};
use std::alloc::{AllocError, Global};
use std::marker::Model;

/// A list of bytes, such as a program's. The vector is in a `Box` to keep `Act` small: few acts have bytes.
#[derive(Drop)]
pub struct Bytes {
    items: Option<Box<Vec<u8>>>,
}

impl Model for Bytes {
    ghost use Rattle.std.specs.Prelude.{List, ℕ, []};
    ghost use Rattle.std.specs.Option.{option_map_or};

    ghost Value = { List ℕ };

    ghost view = { λ b. option_map_or (λ v. v.value.items) b.items [] };
}

impl Bytes {
    /// An empty vector takes no memory.
    pub fn new(alloc: Global, items: Vec<u8>) -> Result<Self, AllocError>
        ensures same { IfOk result (λ b. b ≡ items.items) }
        ensures memory { OnErr result (0 < length items.items) }
    {
        if items.is_empty() {
            return Ok(Bytes { items: None });
        }
        match Box::new(alloc, items) {
            Ok(items) => Ok(Bytes { items: Some(items) }),
            Err(_) => Err(AllocError),
        }
    }

    /// Copies a slice; an empty one takes no memory.
    pub fn from_slice(alloc: Global, items: &[u8]) -> Result<Self, AllocError>
        ensures same { IfOk result (λ b. b ≡ items.now) }
        ensures memory { OnErr result (0 < length items.now) }
    {
        let mut copy = Vec::with_capacity(alloc, items.len())?;
        copy.extend_from_slice(items)?;
        Bytes::new(alloc, copy)
    }

    pub fn is_same(&self, other: &Bytes) -> bool
        ensures { IsTrue result ↔ self.now ≡ other.now }
    {
        self == other
    }

    pub fn as_slice(&self) -> &[u8]
        ensures { result.now ≡ self.now }
    {
        match &self.items {
            None => &[],
            Some(items) => items.as_slice(),
        }
    }
}

impl PartialEq for Bytes {
    ghost eq = { pointwise ◌==◌ };

    ghost laws = { Prim.search (comparing, rules) };

    fn eq(&self, other: &Bytes) -> bool {
        self.as_slice() == other.as_slice()
    }
}

/// A till's request. A lone number is a fuelling point's. Points, products and a point's transactions count from 1.
#[derive(Clone, Copy, PartialEq)]
pub enum Request {
    /// `Release(point, amount)`: allow a delivery of at most this amount, in cents.
    Release(u32, u64),
    /// `Preset(point, amount)`: limit the point's next release to this amount, in cents.
    Preset(u32, u64),
    /// `Price(product, price)`: set the product's price, in thousandths of the currency per litre.
    Price(u32, u64),
    OpenPoint(u32),
    ClosePoint(u32),
    Suspend(u32),
    Resume(u32),
    Stop(u32),
    /// `Lock(point, transaction)`: reserve the transaction for the till whose request this is.
    Lock(u32, u32),
    /// `Unlock(point, transaction)`: give the transaction back, so that any till can lock it.
    Unlock(u32, u32),
    /// `Clear(point, transaction)`: remove the transaction, because it was paid.
    Clear(u32, u32),
    /// `Show(point)`: answer with the point as it is (`Reply::Point`).
    Show(u32),
}

/// What a line asks for or reports. Tills and points count from 1.
#[derive(PartialEq, Drop)]
pub enum Act {
    Till {
        till: u32,
        request: Request,
    },
    Dispenser {
        point: u32,
        event: DispenserEvent,
    },
    /// Load the program in `bytes` into this slot, counted from 0. Bit c of `mask` declares counter c. `layout` is that
    /// of the context, the program's input.
    Load {
        slot: u32,
        mask: u32,
        layout: Layout,
        bytes: Bytes,
    },
}

/// The site's reply to an act.
#[derive(Clone, Copy, PartialEq)]
pub enum Reply {
    Done,
    /// `Granted(value, version)`: this version of a rule granted the request. The value is an amount in cents, or for
    /// `Price` a price in thousandths of the currency per litre.
    Granted(u64, u32),
    /// `Version(version)`: a program was loaded, and this is the number of its version, counted from 1.
    Version(u32),
    /// The order that was waiting for the dispenser to take it.
    Order(Order),
    /// A fuelling point: the number of its state (1 to 9), its lifted nozzle (0 for none), and how many transactions
    /// are unpaid. `amount` (cents) and `volume` (centilitres) are those of the delivery so far, and `limit` (cents) is
    /// what was granted to it: 0 when a delivery ends. `preset` (cents) bounds the next release; 0 for none.
    Point {
        state: u32,
        nozzle: u32,
        unpaid: u32,
        amount: u64,
        volume: u64,
        limit: u64,
        preset: u64,
    },
    /// The refusal's number, such as 22 for `S22`, and the state, slot or version that it names, if any.
    Refused(u32, Option<u32>),
}

/// What a stray line is told: one that has a form, but isn't of the till or the points of its door.
#[derive(Clone, Copy)]
pub enum Stray {
    BadLine,
    OtherDoor,
}

/// Who sends the lines, and so which well-formed lines are accepted. Others are a `BadLine`, or what the role says.
#[derive(Clone, Copy)]
pub enum Role {
    /// Any till: lines of all tills.
    Till,
    /// Any dispenser: lines of all points.
    Dispenser,
    /// The owner: loads.
    Owner,
    /// The owner of a station whose days follow one another: loads, and the line that ends a day.
    DaysOwner,
    /// Everybody: all lines.
    All,
    /// The till of this number: its lines.
    OneTill(u32, Stray),
    /// The dispensers of some points: their lines. Bit p - 1 is set for point p, 1 to 32.
    SomePoints(u32, Stray),
}

/// Why a line can't be read as an act.
#[derive(Clone, Copy, PartialEq)]
pub enum LineFault {
    /// `L1`: the line has more than 8,400 bytes before its LF, or before the end of the input.
    TooLong,
    /// `L2`: the words have no line's form, or the sender isn't allowed to send it.
    BadLine,
    /// `L3`: a number has other bytes than decimal digits, or a leading zero, or is too large; or hexadecimal is
    /// malformed.
    BadNumber,
    /// `L4`: the input ended before the line's LF.
    CutLine,
    /// `L5`: another door may take such a line, and this one doesn't.
    OtherDoor,
    /// `S31`: an allocation failed.
    OutOfMemory,
}

/// The answer to a line.
#[derive(Clone, Copy)]
pub enum Answer {
    /// The act was entered: the entry's number, and the site's reply.
    Entered { number: u32, reply: Reply },
    /// `S29`: the history is full, and nothing was entered.
    JournalFull,
    /// `S31`: an allocation failed, and nothing was entered.
    OutOfMemory,
    /// The line can't be read as an act.
    Line(LineFault),
    /// A program was refused: the refusal's number, such as 11 for `V11`, then what it names, if anything: the unit (an
    /// instruction slot of eight bytes, counted from 0), and the register (0 to 10) or the argument (1 or 2).
    Program(u32, Option<u32>, Option<u32>),
    /// The journal failed, and the site accepts no further act. Sessions end without writing this.
    JournalFailed,
}
