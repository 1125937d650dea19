//! Laws about the totals of a history.

ghost use Rattle.day_report.specs.Deliveries.{SalesHaveTheirDeliveries};
ghost use Rattle.day_report.specs.Laws.{PartsComeToTheWhole, SalesAgreeWithTheSite, VersionsCountAllDecisions};

/// Does nothing. Its contract is a law: the sales in the journal of a site agree with the site's own state.
///
/// - What was cleared before the day, plus the sales of the day, is what the site cleared: in number, and in cents.
/// - The sales that each till cleared add up to all sales of the day, in cents.
/// - The sales at each point add up to all sales of the day, in cents, if the site begins with as many points as the
///   configuration has.
pub fn law_of_sales()
    // proved: The law of sales holds
    ensures { SalesAgreeWithTheSite }
{}

/// Does nothing. Its contract is a law: in any history that the site's steps can make, the decisions (grants and
/// denials) of all versions of rules are together as many as the entries whose reply is a grant or S24 (a denial by a
/// program). The versions are those carried in from the day before and those loaded. The configuration must have no
/// opening, or one that a site with the configuration's points can begin with.
pub fn law_of_decisions()
    // proved: The law of decisions holds
    ensures { VersionsCountAllDecisions }
{}

/// Does nothing. Its contract is a law about each legal history (one that the site's steps can make):
///
/// - Of a sale the entry that ended its delivery is known, unless its transaction was unpaid when the day began.
/// - If the transaction was unpaid when the day began, then no such entry is. For this, the configuration must
///   have no opening, or an opening whose points are all valid (`IsPointState`).
pub fn law_of_deliveries()
    // proved: The law of deliveries holds
    // proved: The delivery of a sale that was carried in ended in no entry of the day
    ensures { SalesHaveTheirDeliveries }
{}

/// Does nothing. Its contract is a law: sums that add up sales at points 1 to 32 have, at all points together, the
/// number, the cents and the centilitres of all sales. So have the tills if all sales are by tills 1 to 64.
pub fn law_of_sums()
    // proved: The law of sums holds
    ensures { PartsComeToTheWhole }
{}
