//! Laws about what another rule would have answered.

ghost use Rattle.what_if.specs.Laws.{RowsStandAlone, TheSameRuleAnswersTheSame};

/// Does nothing. Its contract is a law: a rule compared with itself shows no change. Where the version that decided an
/// entry has the program that it is compared with, and counters are read as they were, the entry's row is `Same`.
pub fn law_of_the_same_rule()
    // proved: A rule that is compared with itself shows no change
    ensures { TheSameRuleAnswersTheSame }
{}

/// Does nothing. Its contract is a law: with counters as they were, the rows of some steps and of more steps are the
/// rows of both, so each row is what its step alone shows.
pub fn law_of_single_rows()
    // proved: With counters as they were, each row is what its own entry shows
    ensures { RowsStandAlone }
{}
