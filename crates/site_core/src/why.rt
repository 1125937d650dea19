//! Why the history gets no entry for a run.

/// The first difference between the site as it is now and the draft, in the order of these cases.
#[derive(Clone, Copy, PartialEq)]
pub enum Why {
    /// The slot of the draft's request has another version now, of this number, or none; or the draft's till or point
    /// isn't there.
    Version(Option<u32>),
    /// The first byte, counted from 0, in which the context differs.
    Context(u32),
    /// The first point, counted from 1, of which programs see something else.
    PointDiffers(u32),
    /// The first product, counted from 1, whose price differs.
    PriceDiffers(u32),
    /// The first declared counter whose value or bound differs, and its value now.
    Counter(u32, u64),
}

/// Why no entry was made for a run. `OutOfMemory`: nothing differs, but memory ran out.
#[derive(Drop)]
pub enum CommitFault {
    Stale(Why),
    OutOfMemory,
}
