//! The results of closing a forecourt.
use super::halted::Halted;
use super::journal::{Journal, NoJournal};
use super::pass::{Pass, SiteLedger};
use site_core::Site;
use std::fmt;

/// Why a forecourt wasn't closed.
#[derive(Clone, Copy)]
pub enum CloseRefusal {
    /// C1: not exactly the passes of the forecourt, each once.
    PassMissing,
    /// C2: a pass, and the number of its wrong receipt (see `Receipt`), or of an entry of this pass that has no
    /// receipt, such as the one at which a journal failed.
    NotInHistory(u32, u32),
    /// C3: the site has another configuration than the forecourt. `Forecourt::finish` never returns it.
    OtherConfig,
}

impl fmt::Display for CloseRefusal {
    ghost use Rattle.std.specs.Prelude.{Some};
    ghost use Rattle.site_lock.specs.Words.{close_refusal_text};

    ghost output = { λ why. Some (close_refusal_text why) };

    fn fmt<W: fmt::Write>(&self, f: &mut fmt::Formatter<W>) -> fmt::Result {
        match self {
            CloseRefusal::PassMissing => f.write_str(
                "the passes handed in aren't all of the site's, each once",
            ),
            CloseRefusal::NotInHistory(pass, number) => write!(
                f,
                "entry {number} of the history isn't what pass {pass} was answered"
            ),
            CloseRefusal::OtherConfig => f.write_str("the site has another configuration"),
        }
    }
}

/// Why the forecourt wasn't closed, the forecourt itself, unchanged, and the passes.
#[derive(Drop)]
pub struct CloseFault<L: SiteLedger, J: Journal = NoJournal> {
    pub why: CloseRefusal,
    pub forecourt: Halted<L, J>,
    pub passes: Vec<Pass<L>>,
}

#[derive(Drop)]
pub struct Closed {
    pub site: Site,
}
