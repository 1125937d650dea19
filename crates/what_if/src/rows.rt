//! A decision beside the answer of another rule.

ghost use Rattle.std.specs.Prelude.{◌≡◌, option_map};
ghost use Rattle.what_if.specs.Rows.{change_of, granted_amount_of, preset_of, row_of, would_be};

use crate::decisions::{Asking, Decision, Kind};
use fuelling_point::Point;

/// What was granted at a decision, and what another rule would have granted; `None` where it is denied.
#[derive(Clone, Copy)]
pub struct Row {
    pub moment: u64,
    pub asking: Asking,
    pub granted: Option<u64>,
    pub would: Option<u64>,
    pub entry: u32,
    /// The version that decided.
    pub version: u32,
}

/// The rows of a day.
#[derive(Drop)]
pub struct DayRows {
    pub day: u32,
    pub rows: Vec<Row>,
}

/// How the other rule's answer differs from what was granted.
#[derive(Clone, Copy)]
pub enum RowChange {
    Same,
    More,
    Less,
    /// It would be denied.
    Denied,
    /// It was denied, and would be granted.
    Allowed,
}

impl Row {
    pub fn change(&self) -> RowChange
        ensures { result ≡ change_of self.now }
    {
        match (self.granted, self.would) {
            (None, None) => RowChange::Same,
            (Some(_), None) => RowChange::Denied,
            (None, Some(_)) => RowChange::Allowed,
            (Some(granted), Some(would)) => {
                if granted == would {
                    RowChange::Same
                } else if granted < would {
                    RowChange::More
                } else {
                    RowChange::Less
                }
            }
        }
    }
}

/// Returns the preset of a point, or 0 if there is none.
pub(crate) fn preset_of(point: &Option<Point>) -> u64
    ensures { result ≡ preset_of point.now }
{
    match point {
        None => 0,
        Some(point) => point.preset(),
    }
}

/// Returns what is granted if a rule answers `answer`, which isn't 0, to this question at a point with this preset.
fn granted_amount_of(asking: Asking, answer: u64, preset: u64) -> u64
    ensures { result ≡ granted_amount_of asking answer preset }
{
    let asked = asking.asked;
    match asking.kind {
        Kind::Release if preset == 0 => asked.min(answer),
        Kind::Release => asked.min(answer).min(preset),
        Kind::Preset => asked.min(answer),
        Kind::Price => asked,
    }
}

fn would_be(asking: Asking, answer: u64, preset: u64) -> Option<u64>
    ensures { result ≡ would_be asking answer preset }
{
    if answer == 0 {
        None
    } else {
        Some(granted_amount_of(asking, answer, preset))
    }
}

/// Returns the row of a decision, if the other rule answers `answer` and the point has this preset.
pub(crate) fn row_of(decision: &Decision, answer: u64, preset: u64) -> Row
    ensures { result ≡ row_of decision.now answer preset }
{
    Row {
        moment: decision.moment,
        asking: decision.asking,
        granted: decision.granted,
        would: would_be(decision.asking, answer, preset),
        entry: decision.number,
        version: decision.version,
    }
}
