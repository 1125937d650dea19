//! The close of a day, and the opening that it leaves.
ghost use Rattle.std.specs.Prelude.{◌≡◌, IfErr, IfOk, OnOk, length};
ghost use Rattle.sha2.specs.Sha256.{sha256};
ghost use Rattle.decision_journal.specs.Text.{journal_text};
ghost use Rattle.site_core.specs.Days.{carried};
ghost use Rattle.site_core.specs.Opening.{IsOpening};
ghost use Rattle.days.specs.Chain.{next_opening};
ghost use Rattle.days.specs.Leaving.{IsUncarried};

use crate::file::{OpeningFile, Uncarried};
use site_core::Site;

/// The close of a day: the site that its journal leads to, and the SHA-256 of the journal's bytes; of no bytes where
/// there is no journal.
#[derive(Drop)]
pub struct Closed {
    pub site: Site,
    pub digest: [u8; 32],
    ghost digested: { digest ≡ sha256 (journal_text site.history) },
}

impl Closed {
    /// The opening that this day, whose number is `day`, leaves.
    pub fn opening(&self, day: u32) -> Result<OpeningFile, Uncarried>
        // proved left, carries, uncarried: It returns what a day leaves
        ensures left { IfOk result (λ file. file ≡ next_opening day self.now.site) }
        ensures carries { OnOk result (IsOpening (length self.now.site.config.points) (carried self.now.site)) }
        ensures uncarried { IfErr result (IsUncarried day self.now.site) }
    {
        let Some(next) = day.checked_add(1) else {
            return Err(Uncarried::LastDay);
        };
        match self.site.carry() {
            Ok(opening) => Ok(OpeningFile {
                day: next,
                opening,
                entries: self.site.history().len() as u32,
                digest: self.digest,
            }),
            Err(fault) => Err(Uncarried::Fault(fault)),
        }
    }
}
