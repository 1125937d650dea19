//! The beginning of a connection's input: the bytes by which its peer is judged.
ghost use Rattle.std.specs.Prelude.{◌≡◌, ◌≢◌, ◌≤◌, ◌<◌, ◌↔◌, ◌++◌, ◌∷◌, ◌-◌, [], IsTrue, drop, length, min, take};
ghost use Rattle.site_server.specs.Guard.{speaks_another_protocol};
ghost use Rattle.site_server.specs.Guarding.{IsVerdict, verdict_on};

use crate::judging::{Verdict, judge, judge_all};
use arrayvec::ArrayVec;
use std::marker::Model;

/// The first bytes of a connection that were read and not passed on yet, and the verdict on its peer.
#[derive(Drop)]
pub(crate) struct Beginning {
    bytes: ArrayVec<u8, 9216>,
    given: usize,
    verdict: Verdict,
}

impl Model for Beginning {
    ghost use Rattle.std.specs.Prelude.{◌≡◌, ◌≤◌, ◌<◌, drop, length};
    ghost use Rattle.site_server.specs.Guarding.{BeginningValue};
    ghost use Rattle.site_server.specs.declared.judging.Verdict.TheVariants.{Unclear};

    ghost Value = { BeginningValue };

    ghost view = { λ b. record { kept = drop b.given b.bytes.items; verdict = b.verdict } };

    ghost invariant = { λ b. (b.given ≤ length b.bytes.items)
        × (b.verdict ≡ Unclear → (b.given ≡ 0) × (length b.bytes.items < 8402)) };
}

impl Beginning {
    pub(crate) fn new() -> Beginning
        ensures kept { result.kept ≡ [] }
        ensures verdict { result.verdict ≡ Verdict.Unclear }
    {
        Beginning {
            bytes: ArrayVec::new(),
            given: 0,
            verdict: Verdict::Unclear,
        }
    }

    /// Of a peer that was judged before, and is no stranger.
    pub(crate) fn of_client() -> Beginning
        ensures kept { result.kept ≡ [] }
        ensures verdict { result.verdict ≡ Verdict.Client }
    {
        Beginning {
            bytes: ArrayVec::new(),
            given: 0,
            verdict: Verdict::Client,
        }
    }

    pub(crate) fn verdict(&self) -> Verdict
        ensures { result ≡ self.now.verdict }
    {
        self.verdict
    }

    pub(crate) fn is_empty(&self) -> bool
        ensures { IsTrue result ↔ (self.now.kept ≡ []) }
    {
        self.kept().is_empty()
    }

    pub(crate) fn kept(&self) -> &[u8]
        ensures { result.now ≡ self.now.kept }
    {
        &self.bytes[self.given..]
    }

    /// Appends the bytes that were read next, at most 512, and judges the peer by all bytes so far.
    pub(crate) fn append(&mut self, bytes: &[u8])
        requires unclear { self.old.verdict ≡ Verdict.Unclear }
        requires few { length bytes.now ≤ 512 }
        ensures kept { self.new.kept ≡ self.old.kept ++ bytes.now }
        ensures verdict { IsVerdict self.new.kept self.new.verdict }
    {
        if self.bytes.try_extend_from_slice(bytes).is_err() {
            unreachable!();
        }
        self.verdict = judge(&self.bytes[self.given..]);
    }

    /// Judges the peer at the end of the input, by the bytes that it sent.
    pub(crate) fn finish(&mut self)
        requires { self.old.verdict ≡ Verdict.Unclear }
        ensures kept { self.new.kept ≡ self.old.kept }
        ensures verdict { self.new.verdict ≡ verdict_on (speaks_another_protocol self.old.kept) }
    {
        self.verdict = judge_all(&self.bytes[self.given..]);
    }

    /// Passes on as many of the bytes as have room in `buffer`, and returns how many.
    pub(crate) fn pass_on(&mut self, buffer: &mut [u8]) -> usize
        requires { self.old.verdict ≢ Verdict.Unclear }
        ensures count { result ≡ min (length self.old.kept) (length buffer.new) }
        // proved passed, kept: All of a client | first_bytes_of_a_client_are_lost
        ensures passed { take result buffer.new ≡ take result self.old.kept }
        ensures kept { self.new.kept ≡ drop result self.old.kept }
        ensures verdict { self.new.verdict ≡ self.old.verdict }
    {
        let count = buffer.len().min(self.bytes.len() - self.given);
        buffer[..count].copy_from_slice(&self.bytes[self.given..self.given + count]);
        self.given += count;
        count
    }
}
