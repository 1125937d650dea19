//! What a play reports besides its answers.
use till_request::Act;
use verifier::Refusal;

/// A receiver of what a play (a run of a script) reports besides its answers.
pub trait PlayNotices {
    ghost use Rattle.verifier.specs.declared.refusal.Refusal.{Refusal};
    ghost use Rattle.till_request.specs.declared.act.Act.{Act};
    ghost use Rattle.file_jobs.specs.Loading.{IsRefusedLoad};

    /// For proofs: whether this refusal of this load's program was reported. Always true where it isn't defined.
    ghost reported: { Self → Act → Refusal → Type 0 } = { λ _ _ _. Unit {0} };

    fn line_begins(&self);

    fn refused_load(&self, load: &Act, refusal: Refusal)
        requires { IsRefusedLoad load.now refusal }
        ensures { reported self.now load.now refusal };
}

#[derive(Clone, Copy)]
pub struct NoNotices;

impl PlayNotices for NoNotices {
    fn line_begins(&self) {}

    fn refused_load(&self, _load: &Act, _refusal: Refusal) {}
}
