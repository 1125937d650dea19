//! The names of a fuelling point's states and of refusals, in words.
use fuelling_point::State;

pub fn state_name(state: State) -> &'static str {
    match state {
        State::Inoperative => "inoperative",
        State::Closed => "closed",
        State::Idle => "idle",
        State::Calling => "calling",
        State::Authorised => "authorised",
        State::Started => "started",
        State::SuspendedStarted => "suspended started",
        State::Fuelling => "fuelling",
        State::SuspendedFuelling => "suspended fuelling",
    }
}

/// In the order of their numbers.
pub const STATES: [State; 9] = [
    State::Inoperative,
    State::Closed,
    State::Idle,
    State::Calling,
    State::Authorised,
    State::Started,
    State::SuspendedStarted,
    State::Fuelling,
    State::SuspendedFuelling,
];

/// What a refusal of this number means.
pub(crate) fn refusal_name(number: u32) -> &'static str {
    match number {
        20 => "no such point",
        21 => "no such till",
        22 => "the point is in a wrong state",
        23 => "no program in that slot",
        24 => "the program denied",
        25 => "amount, price or product out of range",
        26 => "two transactions are unpaid",
        27 => "another till holds the transaction, or nobody does",
        28 => "no such transaction",
        29 => "the journal is full",
        30 => "all 4,096 versions are used",
        31 => "memory was refused",
        32 => "no such slot",
        33 => "no order is pending",
        34 => "the event isn't for this state",
        _ => "another refusal",
    }
}
