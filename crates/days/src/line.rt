//! The lines of an opening's text, as values.

use bpf_model::context::Layout;
use fuelling_point::{Snapshot, Transaction};
use till_request::Bytes;

/// A line of an opening. Amounts are in cents, volumes in centilitres, prices in thousandths of the currency per litre.
#[derive(Drop)]
pub enum Line {
    /// The day that begins with the opening.
    Day(u32),
    /// The total of all cleared amounts, and how many there were.
    Cleared(u64, u64),
    /// How many versions were ever loaded.
    Versions(u32),
    /// The version (a loaded rule) in a slot, counted from 0. Bit c of `mask` declares counter c.
    Version {
        slot: u64,
        number: u32,
        mask: u32,
        layout: Layout,
        bytes: Bytes,
    },
    /// A product, counted from 1, and its price.
    Price(u32, u32),
    /// A counter, counted from 0, its value and its bound.
    Counter(u32, u64, u64),
    /// A fuelling point, counted from 1, without its unpaid transactions.
    Point(u64, Snapshot),
    /// A fuelling point, counted from 1, and one of its unpaid transactions.
    Unpaid(u64, Transaction),
    /// How many entries the day before has, and the SHA-256 of its journal.
    Journal(u32, [u8; 32]),
}
