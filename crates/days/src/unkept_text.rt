//! A text that only proofs read. It takes no memory, and its methods do nothing at run time.
ghost use Rattle.std.specs.Prelude.{◌≡◌, ◌++◌, ℕ, List, []};
ghost use Rattle.std.specs.Borrow.{ftrue};

use std::marker::{Model, PhantomData};

#[derive(Drop)]
pub(crate) struct UnkeptText {
    marker: PhantomData<u8>,
    pub ghost bytes: { List ℕ },
}

impl Model for UnkeptText {
    ghost also_owns = { λ _. ftrue };
}

// It owns nothing.
unsafe impl Send for UnkeptText {}

impl UnkeptText {
    pub(crate) fn new() -> UnkeptText
        ensures { result.bytes ≡ [] }
    {
        UnkeptText {
            marker: PhantomData,
        }
    }

    pub(crate) fn append(&mut self, _piece: &[u8])
        ensures { self.new.bytes ≡ self.old.bytes ++ _piece.now }
    {}
}
