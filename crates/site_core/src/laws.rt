//! Laws that follow from the site's definitions. These functions do nothing: their contracts are the laws.

ghost use Rattle.std.specs.Prelude.{◌≡◌, ℕ, List, is_some};
ghost use Rattle.decision_journal.specs.declared.entries.Entry.{Entry};
ghost use Rattle.till_request.specs.declared.act.Act.{Act};
ghost use Rattle.site_core.specs.Limits.{ConfigValue};
ghost use Rattle.site_core.specs.State.{SiteState};
ghost use Rattle.site_core.specs.Decide.{is_decided};
ghost use Rattle.site_core.specs.Step.{effect};
ghost use Rattle.site_core.specs.Draft.{Basis, DraftValue};
ghost use Rattle.site_core.specs.Differences.{IsFresh, Differs};
ghost use Rattle.site_core.specs.Audit.{OwnAudit};
ghost use Rattle.site_core.specs.Days.{BoundsStay, ClosingChangesOnlyNumbers, EventEffectIsSameNextDay, HoldersStay};
ghost use Rattle.site_core.specs.declared.why.Why.{Why};

/// A commit is stale only if something differs: where nothing does, no `Why` names a first difference.
pub fn fresh_differs_nowhere()
    // proved: Nothing can differ where it is Done
    ensures { (now : Basis) (draft : DraftValue) (why : Why) → IsFresh now draft → Differs now draft why → ⊥ }
{}

/// Between a draft and a site there is at most one first difference.
pub fn one_difference_is_first()
    // proved: One difference alone is the first
    ensures { (now : Basis) (draft : DraftValue) (a b : Why) → Differs now draft a → Differs now draft b → a ≡ b }
{}

/// The reply is a grant or S24 (a program's denial) exactly if a program is run.
pub fn programs_alone_decide()
    ensures { (config : ConfigValue) (past : List Entry) (s : SiteState) (moment : ℕ) (act : Act) →
        is_decided (effect config past s moment act).reply ≡ is_some (effect config past s moment act).run }
{}

/// An audit of a site's own history returns that site, unless memory runs out.
pub fn audit_of_its_own_history()
    // proved: An audit of a site's own history gives that very site
    ensures { OwnAudit }
{}

/// Closing a day changes nothing but entries' numbers: what follows is legal for the next day exactly if it could have
/// followed the closed day, and leads to the same state, while both days stay below the bounds of one.
pub fn closing_changes_only_numbers()
    // proved: Nor what is a legal history, nor its state
    ensures { ClosingChangesOnlyNumbers }
{}

/// An event has the effect that it would have had if the preceding day had gone on, while both days together have fewer
/// than 4,096 versions.
pub fn event_effect_is_same_next_day()
    // proved: Closing a day changes no effect of an event
    ensures { EventEffectIsSameNextDay }
{}

/// A site leaves its counters' bounds as it found them.
pub fn bounds_stay()
    // proved: Counters keep their bounds through a day
    ensures { BoundsStay }
{}

/// If nobody but the site's tills holds a transaction at first, nobody else does at the end.
pub fn holders_stay()
    // proved: If only the site's tills held transactions at first, so at the end
    ensures { HoldersStay }
{}
