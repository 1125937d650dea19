//! A forecourt that couldn't be closed.
ghost use Rattle.std.specs.Prelude.{◌≡◌, IfNone, IfSome};

use super::check::are_all;
use super::close::CloseRefusal;
use super::forecourt::Forecourt;
use super::journal::{Journal, NoJournal};
use super::locked_site::LockedSite;
use super::pass::{Pass, SiteLedger};
use decision_journal::Entry;
use site_core::{Config, Site};
use std::alloc::Global;
use std::marker::Model;

/// A forecourt that couldn't be closed. Until it is reopened nobody can call it.
#[derive(Drop)]
pub struct Halted<L: SiteLedger, J: Journal = NoJournal> {
    pub(super) alloc: Global,
    pub(super) config: Config,
    pub(super) passes: u32,
    pub(super) locked_site: LockedSite<L, J>,
}

impl<L: SiteLedger, J: Journal> Model for Halted<L, J> {
    ghost use Rattle.std.specs.Prelude.{◌≡◌, ◌<◌};
    ghost use Rattle.site_lock.specs.Closing.{HaltedValue};

    ghost Value = { HaltedValue };

    ghost view = { λ h. record {
      opened = record {
        config = h.config;
        passes = h.passes;
        base = L.base;
        taken = L.taken;
      };
      locked_site = h.locked_site;
    } };

    ghost invariant = { λ h. (h.passes ≡ L.parts) × (0 < h.passes) × (h.config ≡ L.config) };
}

impl<L: SiteLedger, J: Journal> Halted<L, J> {
    ghost use Rattle.site_lock.specs.Closing.{ClosesSince, IsHalted, RefusesSince};

    pub(super) fn refusal(&mut self, passes: &mut Vec<Pass<L>>) -> Option<CloseRefusal>
        ensures same { (self.new ≡ self.old) × (passes.new.items ≡ passes.old.items) }
        ensures none { IfNone result
            (ClosesSince self.old.opened passes.old.items self.old.locked_site.site self.old.locked_site.written) }
        ensures some { IfSome result (λ why. RefusesSince self.old passes.old.items why) }
        ensures halted { IsHalted J.may_fail self.new }
    {
        // Tells the prover what is known of a forecourt that couldn't be closed (`IsHalted`).
        let _ = self.history();
        if !are_all(self.passes, passes.as_slice()) {
            return Some(CloseRefusal::PassMissing);
        }
        self.locked_site.count(passes);
        self.locked_site.refusal(&self.config, passes.as_slice())
    }

    pub(super) fn into_parts(self) -> (Site, J)
        ensures site { result.0 ≡ self.locked_site.site }
        ensures journal { J.written result.1 ≡ self.locked_site.written }
    {
        self.locked_site.into_parts()
    }

    pub fn history(&self) -> &[Entry]
        // proved same, matches_journal: It returns that very history
        ensures same { result.now ≡ self.now.locked_site.site.history }
        ensures matches_journal { IsHalted J.may_fail self.now }
    {
        // Tells the prover that the forecourt's configuration is `L.config`.
        let _ = &self.config;
        self.locked_site.history()
    }

    /// Whether the journal failed. If so, the last entry wasn't answered.
    pub fn journal_has_failed(&self) -> bool
        // proved: It says whether the journal failed
        ensures { result ≡ self.now.locked_site.journal_failed }
    {
        self.locked_site.journal_has_failed()
    }

    /// Opens the forecourt for further calls and another close. A journal that failed stays failed.
    pub fn reopen(self) -> Forecourt<L, J>
        // proved: It can be opened again | forecourt_opens_again_for_one_pass
        ensures { result ≡ self.opened }
    {
        let Halted {
            alloc,
            config,
            passes,
            locked_site,
        } = self;
        Forecourt::over(alloc, config, passes, locked_site)
    }

    /// The journal took the text of all entries that were answered, and, if it failed, a beginning of one more line.
    pub fn into_journal(self) -> J
        // proved written, matches_journal: It returns the journal
        ensures written { J.written result ≡ self.locked_site.written }
        ensures matches_journal { IsHalted J.may_fail self }
    {
        let _ = &self.config;
        let (_, journal) = self.locked_site.into_parts();
        journal
    }
}
