// The helpers: the functions that programs can call, by number.

ghost use Rattle.std.specs.Prelude.{◌≡◌, ◌≤◌, ◌<◌, ◌+◌, IsSome, Some};
ghost use Rattle.bpf_model.specs.Machine.{helper_of, point, price, is_there, record_bytes, no_point, point_or_zero};
ghost use Rattle.verifier.specs.HelperCalls.{signature, call_result, helper_result, kinds, stored, CounterInside, PlaceInside};
ghost use Rattle.verifier.specs.HelperMeaning.{IsMachineCall};
ghost use Rattle.bpf_model.specs.declared.limits.TheConstants.{STACK_BYTES};

use crate::counters::Counters;
use crate::memory::put;
use bpf_model::instruction::Size;
use bpf_model::machine::{Helper, PointView, View};

/// What a helper takes as an argument. `Counter` is the number of a declared counter, `Place` a place in the stack.
#[derive(Clone, Copy)]
pub enum Kind {
    Nothing,
    Number,
    Counter,
    Place,
}

fn helper_numbered(id: i32) -> Option<Helper>
    ensures { result ≡ helper_of id }
{
    match id {
        1 => Some(Helper::CounterGet),
        2 => Some(Helper::CounterAdd),
        3 => Some(Helper::CounterTake),
        4 => Some(Helper::PointState),
        5 => Some(Helper::PointRecord),
        6 => Some(Helper::PriceOf),
        _ => None,
    }
}

fn kinds_of(helper: Helper) -> [Kind; 2]
    ensures { result ≡ kinds helper }
{
    match helper {
        Helper::CounterGet => [Kind::Counter, Kind::Nothing],
        Helper::CounterAdd | Helper::CounterTake => [Kind::Counter, Kind::Number],
        Helper::PointState | Helper::PriceOf => [Kind::Number, Kind::Nothing],
        Helper::PointRecord => [Kind::Number, Kind::Place],
    }
}

/// The kinds of the arguments in R1 and R2. Helpers are numbered 1 to 6.
pub fn arguments(id: i32) -> Option<[Kind; 2]>
    ensures { result ≡ signature id }
{
    let helper = helper_numbered(id)?;
    Some(kinds_of(helper))
}

// Points are numbered from 1.
fn point_of(view: &View, number: u64) -> Option<PointView>
    ensures { result ≡ point view.now number }
{
    if number == 0 {
        return None;
    }
    let place = number - 1;
    if place < u64::from(view.count) && place < 32 {
        Some(view.points[place as usize])
    } else {
        None
    }
}

fn point_or_none(point: Option<PointView>) -> PointView
    ensures { result ≡ point_or_zero point }
{
    match point {
        Some(point) => point,
        None => PointView {
            state: 0,
            nozzle: 0,
            amount: 0,
        },
    }
}

fn price_of(view: &View, number: u64) -> u64
    ensures { result ≡ price view.now number }
{
    if number == 0 || number > 8 {
        return 0;
    }
    u64::from(view.prices[(number - 1) as usize])
}

// Writes the point's 16-byte record, or 16 zeros if there is no point. The answer is 1 if there is one, else 0.
fn put_point(point: Option<PointView>, at: u64, stack: &mut [u8; 512]) -> u64
    requires { at + 16 ≤ STACK_BYTES }
    ensures answer { result ≡ is_there point }
    ensures stack { stack.new ≡ stored stack.old at (record_bytes (point_or_zero point)) }
{
    let shown = point_or_none(point);
    put(stack, at as usize, Size::Word, u64::from(shown.state));
    put(stack, at as usize + 4, Size::Word, u64::from(shown.nozzle));
    put(stack, at as usize + 8, Size::Double, shown.amount);
    u64::from(point.is_some())
}

fn answer(
    helper: Helper,
    a: u64,
    b: u64,
    view: &View,
    counters: &mut Counters,
    stack: &mut [u8; 512],
) -> u64
    requires counter { CounterInside (Some helper) a }
    requires place { PlaceInside (Some helper) b }
    ensures answer { result ≡ (helper_result helper a b view.now counters.old stack.old).value }
    ensures counters { counters.new ≡ (helper_result helper a b view.now counters.old stack.old).counters }
    ensures stack { stack.new ≡ (helper_result helper a b view.now counters.old stack.old).stack }
{
    match helper {
        Helper::CounterGet => counters.get(a as u32),
        Helper::CounterAdd => u64::from(counters.add(a as u32, b)),
        Helper::CounterTake => u64::from(counters.take(a as u32, b)),
        Helper::PointState => u64::from(point_or_none(point_of(view, a)).state),
        Helper::PointRecord => put_point(point_of(view, a), b, stack),
        Helper::PriceOf => price_of(view, a),
    }
}

/// Calls helper `id` with `a` in R1 and `b` in R2. A counter's number must be 0 to 31, and a record's place in the
/// stack 0 to 496, counted from the lowest byte.
pub fn call(
    id: i32,
    a: u64,
    b: u64,
    view: &View,
    counters: &mut Counters,
    stack: &mut [u8; 512],
) -> u64
    requires known { IsSome (helper_of id) }
    requires counter { CounterInside (helper_of id) a }
    requires place { PlaceInside (helper_of id) b }
    ensures answer { result ≡ (call_result (helper_of id) a b view.now counters.old stack.old).value }
    ensures counters { counters.new ≡ (call_result (helper_of id) a b view.now counters.old stack.old).counters }
    ensures stack { stack.new ≡ (call_result (helper_of id) a b view.now counters.old stack.old).stack }
    // proved: On numbers and bytes it is the machine's definition | record_begins_with_the_nozzle
    ensures machine { IsMachineCall id a b view.now counters.old stack.old result counters.new stack.new }
{
    let Some(helper) = helper_numbered(id) else {
        unreachable!();
    };
    answer(helper, a, b, view, counters, stack)
}
