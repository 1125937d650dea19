// The memory of a run, and what the run reads: its context and its view of the site.

use verifier::View;

/// The stack's bytes, and the 11 registers as words. The stack comes first, so that the processor adds no offset to
/// find its bytes.
#[derive(Drop)]
pub struct Frame {
    pub stack: [u8; 512],
    pub words: [u64; 11],
}

/// What a run reads but can't change.
#[derive(Clone, Copy)]
pub struct Input<'a> {
    pub context: &'a [u8],
    pub view: &'a View,
}
