//! The data for the picture of a history. The picture shows the states of the fuelling points along an axis, which is
//! time or the entries. The axis is divided into steps, and each step shows one state of each point.

ghost use Rattle.std.specs.Prelude.{◌≡◌, ◌<◌, ◌≤◌, IfOk, IfSome, IsOk, OnOk, [], length, map, vec_capacity, vec_len};
ghost use Rattle.fuelling_point.specs.Table.{PointState};
ghost use Rattle.site_core.specs.State.{SiteState, opening_state};
ghost use Rattle.day_report.specs.Picture.{step_of, steps_along, step_at, axis_of, first_or, with_cut, mark_of, AreStepEnds};
ghost use Rattle.day_report.specs.Picture.{opening_states, put_state, raised, states_after, step_shows, Shows};

use crate::opening::opening_points;
use decision_journal::Entry;
use fuelling_point::{Point, State};
use site_core::{Change, Config, Head, Observer};
use std::alloc::{AllocError, Global};
use till_request::Act;

/// The most steps that the axis of a picture is divided into.
const STEPS: usize = 2000;

/// The axis of a history's picture can be time only if the last moment of the history is at least this many seconds
/// after the first. Otherwise the axis is the entries.
const SPAN: u64 = 600;

/// What the picture needs of an entry: its moment, or 0 if it has none, and the number of the point that its act names
/// with the point's state after the entry. `touched` is `None` if there is no such point.
#[derive(Clone, Copy)]
pub struct Mark {
    pub moment: u64,
    pub touched: Option<(u32, State)>,
}

/// Keeps a mark of each entry of a history while the history is replayed. `marks` has them oldest first.
#[derive(Drop)]
pub struct Marks {
    pub marks: Vec<Mark>,
}

/// Returns the mark of an entry.
fn mark_of(entry: &Entry, change: &Change) -> Mark
    ensures { (before : SiteState) → result ≡ mark_of (record { entry = entry.now; change = change.now; before = before }) }
{
    let n = change.point;
    Mark {
        moment: entry.moment,
        touched: change.after.map(|point| (n, point.state())),
    }
}

impl Marks {
    /// Returns an observer that has seen nothing.
    pub fn new(alloc: Global) -> Marks
        ensures { result.marks.items ≡ [] }
    {
        Marks {
            marks: Vec::new(alloc),
        }
    }
}

impl Observer for Marks {
    ghost has_seen = { λ m steps. m.marks.items ≡ map mark_of steps };

    ghost has_looked = { λ _ _ _. Unit {0} };

    ghost is_ready = { λ observer. vec_len observer.marks < vec_capacity observer.marks };

    fn make_ready(&mut self) -> Result<(), AllocError> {
        self.marks.reserve(1)
    }

    fn look(&mut self, _before: &Head, _act: &Act) {}

    fn see(&mut self, _line: &[u8], entry: &Entry, change: &Change) {
        self.marks.push_reserved(mark_of(entry, change));
    }
}

/// The axis of a history's picture: the entries of the history, or time.
#[derive(Clone, Copy)]
pub enum Axis {
    /// The entries of a history; the number says how many there are.
    Entries(usize),
    /// Time, from the first moment to the last, both in seconds since the start of 1970.
    Time(u64, u64),
}

/// Returns `first`, or `moment` if `first` is 0. A `first` of 0 means that there is no first moment yet.
fn first_or(first: u64, moment: u64) -> u64
    ensures { result ≡ first_or first moment }
{
    if first == 0 { moment } else { first }
}

/// Returns the axis for a history: time, if its moments never decrease and span at least ten minutes; else its entries.
/// An entry whose moment is 0 has no moment.
#[tactic(auto, unfolding(crate::specs::Picture::axis_of))]
pub fn axis_of(marks: &[Mark]) -> Axis
    // proved: It finds the axis of a picture
    ensures { result ≡ axis_of marks.now }
{
    let mut first = 0;
    let mut last = 0;
    for mark in marks {
        if mark.moment == 0 {
            continue;
        }
        if mark.moment < last {
            return Axis::Entries(marks.len());
        }
        first = first_or(first, mark.moment);
        last = mark.moment;
    }
    if last.saturating_sub(first) < SPAN {
        return Axis::Entries(marks.len());
    }
    Axis::Time(first, last)
}

/// Returns the step, counted from 0, that `at` belongs to if the numbers below `most` are divided into `steps` equal
/// steps:
///
/// - 0 if `most` is 0
/// - otherwise `steps`, which is after the last step, if `at` isn't below `most`
/// - otherwise `at * steps / most`, rounded down
pub fn step_of(at: u64, most: u128, steps: usize) -> usize
    // proved step, within_limit: It finds the step that a place on the axis belongs to
    ensures step { result ≡ step_of at most steps }
    ensures within_limit { result ≤ steps }
{
    if most == 0 {
        return 0;
    }
    let scaled = at as u128 * steps as u128;
    (scaled / most).min(steps as u128) as usize
}

/// Returns how many steps a picture has along this axis: one for each entry, or one for each second that passes from
/// the first moment to the last, but at most 2,000.
fn steps_of(axis: Axis) -> usize
    ensures { result ≡ steps_along axis }
{
    match axis {
        Axis::Entries(count) => count.min(STEPS),
        Axis::Time(first, last) => last.saturating_sub(first).min(STEPS as u64) as usize,
    }
}

/// Returns the step, counted from 0, that an entry belongs to if the axis is divided into `steps` steps. `place` is the
/// entry's place in the history, counted from 0. Returns `None` if the axis is time and the entry has no moment.
fn step_at(axis: Axis, place: usize, mark: &Mark, steps: usize) -> Option<usize>
    ensures step { result ≡ step_at axis place mark.now.moment steps }
    ensures within_limit { IfSome result (λ step. step ≤ steps) }
{
    match axis {
        Axis::Entries(count) => Some(step_of(place as u64, count as u128, steps)),
        Axis::Time(first, last) => {
            if mark.moment == 0 {
                return None;
            }
            let since = mark.moment.saturating_sub(first);
            let span = last.saturating_sub(first) as u128 + 1;
            Some(step_of(since, span, steps))
        }
    }
}

/// Appends `place` to `step_ends` until `step_ends` has an item for each step before `step`. If `step` is `None`,
/// nothing is appended. If nothing is appended, there is no error.
fn end_step(step_ends: &mut Vec<usize>, step: Option<usize>, place: usize) -> Result<(), AllocError>
    ensures cut { OnOk result (step_ends.new.items ≡ with_cut step_ends.old.items step place) }
    ensures none { IfSome step (λ step. step ≤ length step_ends.old.items) → IsOk result }
{
    match step {
        Some(step) => step_ends.resize(step.max(step_ends.len()), place),
        None => Ok(()),
    }
}

/// Divides a history into the steps of a picture's axis. Returns for each step where it ends: the place, counted from
/// 0, of the first entry of a later step, or the number of entries if there is none. If `steps` is 0, there is no
/// error.
fn step_ends(
    alloc: Global,
    marks: &[Mark],
    axis: Axis,
    steps: usize,
) -> Result<Vec<usize>, AllocError>
    ensures divided { IfOk result (λ step_ends. AreStepEnds axis steps marks.now step_ends.items) }
    ensures none { steps ≡ 0 → IsOk result }
{
    let mut step_ends = Vec::new(alloc);
    for (place, mark) in marks.iter().enumerate() {
        end_step(&mut step_ends, step_at(axis, place, mark, steps), place)?;
    }
    end_step(&mut step_ends, Some(steps), marks.len())?;
    Ok(step_ends)
}

/// The states that a picture shows for the fuelling points:
///
/// - `points` and `steps`: how many points and how many steps the picture has
/// - `states`: first the states of all points in step 0, point 1 first, then those in step 1, and so on
#[derive(Drop)]
pub struct Bands {
    pub points: usize,
    pub steps: usize,
    pub states: Vec<State>,
}

/// Sets the state of point `n` in `states` to `state`, if `state` has a greater `State::number` than the state it
/// replaces. If there is no point `n`, nothing changes.
fn raise(states: &mut [State], n: u32, state: State)
    ensures { states.new ≡ raised states.old n state }
{
    if n >= 1 && n as usize <= states.len() && states[n as usize - 1].number() < state.number() {
        states[n as usize - 1] = state;
    }
}

/// Sets the state of point `n` in `states` to `state`. If there is no point `n`, nothing changes.
fn put(states: &mut [State], n: u32, state: State)
    ensures { states.new ≡ put_state states.old (Some (n, state)) }
{
    if n >= 1 && n as usize <= states.len() {
        states[n as usize - 1] = state;
    }
}

/// Follows the entries of a step. `now` has the states of the points, and `shown` those that the step shows.
fn replay_step(now: &mut [State], shown: &mut [State], marks: &[Mark])
    ensures after { now.new ≡ states_after now.old marks.now }
    ensures shown { shown.new ≡ step_shows shown.old marks.now }
{
    for mark in marks {
        if let Some((n, state)) = mark.touched {
            put(now, n, state);
            raise(shown, n, state);
        }
    }
}

/// Returns the state of each point, point 1 first.
fn states_of(alloc: Global, points: &[Point]) -> Result<Vec<State>, AllocError>
    ensures { IfOk result (λ states. states.items ≡ map (λ (p : PointState). p.state) points.now) }
{
    let mut states = Vec::new(alloc);
    for point in points {
        states.push(point.state())?;
    }
    Ok(states)
}

/// Follows the entries of a step: `now` has the states of the points. Returns for each point the state with the
/// greatest `State::number` among its states before the entries and after each of them. The error is that memory ran
/// out; then nothing is promised about `now`.
fn step_states(alloc: Global, now: &mut [State], marks: &[Mark]) -> Result<Vec<State>, AllocError>
    ensures after { OnOk result (now.new ≡ states_after now.old marks.now) }
    ensures shown { IfOk result (λ shown. shown.items ≡ step_shows now.old marks.now) }
{
    let mut shown = Vec::from_slice(alloc, now)?;
    replay_step(now, &mut shown, marks);
    Ok(shown)
}

/// Returns the states that the picture of a day shows: for each step of the axis and each point, the state with the
/// greatest `State::number` among those that the point has before the step's entries and after each of these entries.
/// `marks` are those of the history of a site of this configuration.
pub fn states_by_step(
    alloc: Global,
    config: &Config,
    marks: &[Mark],
    axis: Axis,
) -> Result<Bands, AllocError>
    // proved steps, points: A picture has the steps of its axis, and each point
    ensures steps { IfOk result (λ bands. bands.steps ≡ steps_along axis) }
    ensures points { IfOk result (λ bands. bands.points ≡ length (opening_state config.now).points) }
    // proved: A step shows each point's greatest state | point_keeps_its_state
    ensures states { IfOk result
        (λ bands. Shows axis (opening_states config.now) marks.now bands.states.items) }
{
    let steps = steps_of(axis);
    let step_ends = step_ends(alloc, marks, axis, steps)?;
    let opening = opening_points(alloc, config)?;
    let points = opening.len();
    let mut now = states_of(alloc, &opening)?;
    let now = now.as_mut_slice();
    let mut states = Vec::new(alloc);
    let mut done = 0;
    for cut in &step_ends {
        let end = (*cut).min(marks.len()).max(done);
        let step = step_states(alloc, now, &marks[done..end])?;
        states.extend_from_slice(&step)?;
        done = end;
    }
    Ok(Bands {
        points,
        steps,
        states,
    })
}
