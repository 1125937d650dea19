//! What has been read of an opening.

ghost use Rattle.std.specs.Prelude.{◌≡◌, ◌↔◌, ◌≤◌, ◌<◌, All};
ghost use Rattle.std.specs.Prelude.{IfErr, IfOk, IfSome, IsTrue, None, is_some, length, replicate, slice_index_or};
ghost use Rattle.bpf_model.specs.Program.{as_loaded};
ghost use Rattle.fuelling_point.specs.Snapshot.{IsPointState};
ghost use Rattle.days.specs.Reading.{Takes, TakesMemory, Verified, blank_file, with_unpaid};

use crate::file::OpeningFile;
use crate::line::Line;
use bpf_model::context::Layout;
use fuelling_point::{Point, Snapshot, Transaction};
use site_core::opening::is_new_number;
use site_core::{Opening, Version};
use std::alloc::{AllocError, Global};
use std::marker::Model;
use std::sync::Arc;
use verifier::verifying::verify;
use verifier::{Counters, Refusal};

/// The greatest number of a point's newest transaction, and of versions.
const MOST: u32 = 4_290_000_000;

/// The greatest total of cleared amounts in cents, and count of cleared transactions.
const MOST_CLEARED: u64 = 1_000_000_000_000_000_000;

/// What has been read of an opening. The rest is blank: 0, `None` or an empty list, and day 2. A counter is its value
/// and its bound.
#[derive(Drop)]
pub(crate) struct Reading {
    alloc: Global,
    day: u32,
    points: Vec<Point>,
    prices: [u32; 8],
    counters: [(u64, u64); 32],
    cleared: u64,
    clears: u64,
    versions: u32,
    rules: Vec<Option<Version>>,
    entries: u32,
    digest: [u8; 32],
}

impl Model for Reading {
    ghost use Rattle.std.specs.Prelude.{◌≡◌, length};
    ghost use Rattle.days.specs.declared.file.OpeningFile.{OpeningFile};

    ghost Value = { OpeningFile };

    ghost view = { λ r. record {
      day = r.day;
      opening = record {
        points = r.points.items;
        prices = r.prices;
        counters = r.counters;
        cleared = r.cleared;
        clears = r.clears;
        versions = r.versions;
        rules = r.rules.items;
      };
      entries = r.entries;
      digest = r.digest;
    } };

    ghost invariant = { λ r. length r.rules.items ≡ 16 };
}

/// 16 slots without a version.
fn empty_slots(alloc: Global) -> Result<Vec<Option<Version>>, AllocError>
    ensures { IfOk result (λ rules. rules.items ≡ replicate 16 None) }
{
    let mut rules = Vec::with_capacity(alloc, 16)?;
    for _added in 0..16usize {
        rules.push(None)?;
    }
    Ok(rules)
}

impl Reading {
    /// Nothing is read yet.
    pub(crate) fn new(alloc: Global) -> Result<Reading, AllocError>
        ensures { IfOk result (λ reading. reading ≡ blank_file) }
    {
        let rules = empty_slots(alloc)?;
        Ok(Reading {
            alloc,
            day: 2,
            points: Vec::new(alloc),
            prices: [0; 8],
            counters: [(0, 0); 32],
            cleared: 0,
            clears: 0,
            versions: 0,
            rules,
            entries: 0,
            digest: [0; 32],
        })
    }

    /// What was read. Each counter must be within its bound.
    pub(crate) fn finish(self) -> OpeningFile
        requires { All (λ c. c.0 ≤ c.1) self.opening.counters }
        ensures { result ≡ self }
    {
        let (prices, counters, digest) = (self.prices, Counters::new(self.counters), self.digest);
        OpeningFile {
            day: self.day,
            opening: Opening {
                points: self.points,
                prices,
                counters,
                cleared: self.cleared,
                clears: self.clears,
                versions: self.versions,
                rules: self.rules,
            },
            entries: self.entries,
            digest,
        }
    }

    fn take_day(&mut self, day: u32) -> bool
        ensures { Takes self.old (Line.Day day) result self.new }
    {
        if self.day != 2 || day < 2 {
            return false;
        }
        self.day = day;
        true
    }

    fn take_cleared(&mut self, total: u64, count: u64) -> bool
        ensures { Takes self.old (Line.Cleared total count) result self.new }
    {
        if self.cleared != 0 || self.clears != 0 || total > MOST_CLEARED || count > MOST_CLEARED {
            return false;
        }
        self.cleared = total;
        self.clears = count;
        true
    }

    fn take_versions(&mut self, count: u32) -> bool
        ensures { Takes self.old (Line.Versions count) result self.new }
    {
        if self.versions != 0 || count > MOST {
            return false;
        }
        self.versions = count;
        true
    }

    fn take_version(
        &mut self,
        slot: u64,
        number: u32,
        mask: u32,
        layout: Layout,
        bytes: &[u8],
    ) -> Result<bool, AllocError>
        ensures { IfOk result (λ taken.
            Takes self.old (Line.Version slot number mask layout bytes.now) taken self.new) }
    {
        if slot > 15 || !is_free(&self.rules, slot as usize) {
            return Ok(false);
        }
        if number < 1 || number > self.versions || !is_new_number(&self.rules, number) {
            return Ok(false);
        }
        match verified(self.alloc, number, mask, layout, bytes)? {
            Some(version) => {
                self.rules[slot as usize] = Some(version);
                Ok(true)
            }
            None => Ok(false),
        }
    }

    fn take_price(&mut self, product: u32, price: u32) -> bool
        ensures { Takes self.old (Line.Price product price) result self.new }
    {
        if product < 1 || product > 8 || price > 9_999_999 {
            return false;
        }
        if self.prices[product as usize - 1] != 0 {
            return false;
        }
        self.prices[product as usize - 1] = price;
        true
    }

    fn take_counter(&mut self, counter: u32, value: u64, bound: u64) -> bool
        ensures { Takes self.old (Line.Counter counter value bound) result self.new }
    {
        if counter > 31 || value > bound {
            return false;
        }
        if self.counters[counter as usize].1 != 0 {
            return false;
        }
        self.counters[counter as usize] = (value, bound);
        true
    }

    fn take_point(&mut self, number: u64, values: &Snapshot) -> Result<bool, AllocError>
        ensures { IfOk result (λ taken. Takes self.old (Line.Point number values.now) taken self.new) }
    {
        if values.last > MOST {
            return Ok(false);
        }
        let Some(point) = Point::from_snapshot(*values) else {
            return Ok(false);
        };
        self.points.push(point)?;
        Ok(true)
    }

    fn take_unpaid(&mut self, number: u64, unpaid: Transaction) -> bool
        ensures { Takes self.old (Line.Unpaid number unpaid) result self.new }
    {
        if number < 1 || number as usize > self.points.len() {
            return false;
        }
        let at = number as usize - 1;
        match with_unpaid(&self.points[at], unpaid) {
            Some(point) => {
                self.points[at] = point;
                true
            }
            None => false,
        }
    }

    fn take_journal(&mut self, entries: u32, digest: &[u8; 32]) -> bool
        ensures { Takes self.old (Line.Journal entries digest.now) result self.new }
    {
        if self.entries != 0 {
            return false;
        }
        self.entries = entries;
        self.digest = *digest;
        true
    }

    /// Takes a line, if what it says is still blank and allowed in an opening. Returns whether it was taken.
    pub(crate) fn take(&mut self, line: &Line) -> Result<bool, AllocError>
        ensures taken { IfOk result (λ taken. Takes self.old line.now taken self.new) }
        ensures memory { IfErr result (λ _. TakesMemory line.now) }
    {
        match line {
            Line::Day(day) => Ok(self.take_day(*day)),
            Line::Cleared(total, count) => Ok(self.take_cleared(*total, *count)),
            Line::Versions(count) => Ok(self.take_versions(*count)),
            Line::Version {
                slot,
                number,
                mask,
                layout,
                bytes,
            } => self.take_version(*slot, *number, *mask, *layout, bytes.as_slice()),
            Line::Price(product, price) => Ok(self.take_price(*product, *price)),
            Line::Counter(counter, value, bound) => Ok(self.take_counter(*counter, *value, *bound)),
            Line::Point(number, values) => self.take_point(*number, values),
            Line::Unpaid(number, unpaid) => Ok(self.take_unpaid(*number, *unpaid)),
            Line::Journal(entries, digest) => Ok(self.take_journal(*entries, digest)),
        }
    }
}

fn is_free(rules: &[Option<Version>], slot: usize) -> bool
    requires { slot < length rules.now }
    ensures { IsTrue result ↔ (slice_index_or rules.now slot None ≡ None) }
{
    rules[slot].is_none()
}

/// Verifies a program, and returns it as the version of this number; `None` if it is refused.
fn verified(
    alloc: Global,
    number: u32,
    mask: u32,
    layout: Layout,
    bytes: &[u8],
) -> Result<Option<Version>, AllocError>
    ensures { IfOk result (Verified number (as_loaded bytes.now mask layout)) }
{
    let program = match verify(alloc, bytes, mask, layout) {
        Ok(program) => program,
        Err(Refusal::OutOfMemory) => return Err(AllocError),
        Err(Refusal::Decode(_)) | Err(Refusal::Flow(_)) | Err(Refusal::Type(_)) => return Ok(None),
    };
    let program = Arc::new(alloc, program)?;
    Ok(Some(Version { number, program }))
}

/// The point with one more unpaid transaction, or `None` if no point can have these values.
fn with_unpaid(point: &Point, unpaid: Transaction) -> Option<Point>
    ensures state { IfSome result (λ new. new ≡ with_unpaid point.now unpaid) }
    ensures when { IsTrue (is_some result) ↔ IsPointState (with_unpaid point.now unpaid) }
{
    let mut snapshot = point.snapshot();
    match snapshot.unpaid {
        [None, _] => snapshot.unpaid = [Some(unpaid), None],
        [Some(first), None] => snapshot.unpaid = [Some(first), Some(unpaid)],
        [Some(_), Some(_)] => return None,
    }
    Point::from_snapshot(snapshot)
}
