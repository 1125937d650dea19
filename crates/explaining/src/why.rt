// Why an entry was answered so, in words.

use crate::explained::{Decision, Explained};
use decision_journal::Entry;
use fuelling_point::{Point, State};
use site_core::Site;
use std::alloc::AllocError;
use std::fmt::Write;
use till_request::{Act, Reply, Request};

pub(crate) fn write_why(out: &mut String, explained: &Explained<'_>) -> Result<(), AllocError> {
    let (entry, before) = (explained.entry, &explained.before);
    if let Some(decision) = &explained.decision {
        return write_decided(out, explained, decision);
    }
    match entry.reply {
        Reply::Refused(number, value) => write_refused(out, before, &entry.act, number, value),
        Reply::Version(version) => {
            write!(
                out,
                "the verifier accepts the rule, which decides from here on as version {version}"
            )
        }
        Reply::Order(_) => write!(out, "that order was pending"),
        Reply::Done | Reply::Granted(..) | Reply::Point { .. } => {
            write_allowed(out, before, point_of(&entry.act))
        }
    }
}

fn write_allowed(out: &mut String, before: &Site, number: u32) -> Result<(), AllocError> {
    match before.point(number) {
        Some(point) => {
            let state = state_name(point.state());
            write!(out, "point {number} was {state}, where this is allowed")
        }
        None => write!(out, "this is allowed"),
    }
}

fn write_decided(
    out: &mut String,
    explained: &Explained<'_>,
    decision: &Decision,
) -> Result<(), AllocError> {
    let version = decision.draft.version();
    let r0 = decision.trace.r0;
    write!(out, "version {version}")?;
    if let Some(run) = &explained.entry.run {
        write!(out, " in slot {}", run.slot)?;
    }
    match loaded_by(explained.before.history(), version) {
        Some(number) => write!(out, ", loaded by entry {number},")?,
        None => write!(out, ", of an earlier day,")?,
    }
    write!(out, " answered {r0}: ")?;
    if r0 == 0 {
        return write!(out, "0 denies");
    }
    write_grant(out, explained, r0)
}

fn loaded_by(history: &[Entry], version: u32) -> Option<u32> {
    for entry in history {
        if entry.reply == Reply::Version(version) {
            return Some(entry.number);
        }
    }
    None
}

/// How the grant came of the answer `r0`, which isn't 0.
fn write_grant(out: &mut String, explained: &Explained<'_>, r0: u64) -> Result<(), AllocError> {
    match explained.entry.act {
        Act::Till {
            request: Request::Release(number, asked),
            ..
        } => {
            write!(out, "the least of {asked} asked, {r0} answered")?;
            match preset_of(&explained.before, number) {
                0 => write!(out, ", no preset"),
                preset => write!(out, ", {preset} preset"),
            }
        }
        Act::Till {
            request: Request::Preset(_, asked),
            ..
        } => write!(out, "the lesser of {asked} asked and {r0} answered"),
        _ => write!(out, "each answer but 0 grants the price that is asked"),
    }
}

fn preset_of(before: &Site, number: u32) -> u64 {
    match before.point(number) {
        Some(point) => point.preset(),
        None => 0,
    }
}

fn write_refused(
    out: &mut String,
    before: &Site,
    act: &Act,
    number: u32,
    value: Option<u32>,
) -> Result<(), AllocError> {
    let config = before.config();
    match number {
        20 => {
            let points = config.points().len();
            write!(out, "no such point: the site has points 1 to {points}")
        }
        21 => {
            let tills = config.tills();
            write!(out, "no such till: the site has tills 1 to {tills}")
        }
        22 => write_wrong_state(out, before, act),
        23 => match value {
            Some(slot) => write!(out, "no program in slot {slot}"),
            None => write!(out, "no program in that slot"),
        },
        25 => write_out_of_range(out, act),
        26 => {
            let point = point_of(act);
            write!(out, "two transactions of point {point} are unpaid")
        }
        27 => write_holder(out, before, act),
        28 => write!(
            out,
            "point {} has no such transaction unpaid",
            point_of(act)
        ),
        30 => write!(out, "the day had 4,096 versions"),
        32 => write!(out, "no such slot: a site has slots 0 to 15"),
        33 => write!(out, "no order is pending at point {}", point_of(act)),
        _ => write_misfit(out, before, act),
    }
}

fn write_wrong_state(out: &mut String, before: &Site, act: &Act) -> Result<(), AllocError> {
    let Act::Till { request, .. } = act else {
        return write_misfit(out, before, act);
    };
    let number = match request {
        Request::Price(..) => first_busy(before),
        _ => point_of(act),
    };
    let Some(point) = before.point(number) else {
        return Ok(());
    };
    let (state, wanted) = (state_name(point.state()), wanted_by(*request, &point));
    write!(out, "point {number} is {state}: {wanted}")
}

/// The number of the first point that delivers or may begin to, or 0.
fn first_busy(before: &Site) -> u32 {
    for number in 1..33u32 {
        if let Some(point) = before.point(number)
            && point.state().is_busy()
        {
            return number;
        }
    }
    0
}

/// In which states the point would take the request.
fn wanted_by(request: Request, point: &Point) -> &'static str {
    match request {
        Request::Release(..) => "a release needs idle or calling",
        Request::Preset(..) => "a preset needs idle or calling",
        Request::Price(..) => "a price needs all points without a delivery",
        Request::OpenPoint(_) => "an open needs closed",
        Request::ClosePoint(_) => "a close needs idle or calling",
        Request::Suspend(_) => "a suspend needs started or fuelling",
        Request::Resume(_) if point.state() == State::SuspendedFuelling => {
            "all that was granted has flowed"
        }
        Request::Resume(_) => "a resume needs suspended started or suspended fuelling",
        Request::Stop(_) => "a stop needs a delivery",
        Request::Lock(..) | Request::Unlock(..) | Request::Clear(..) | Request::Show(_) => {
            "this needs another state"
        }
    }
}

fn write_out_of_range(out: &mut String, act: &Act) -> Result<(), AllocError> {
    match act {
        Act::Till {
            request: Request::Price(..),
            ..
        } => write!(
            out,
            "out of range: products are 1 to 8, prices 1 to 9999999 thousandths"
        ),
        _ => write!(out, "out of range: amounts are 1 to 999999999 cents"),
    }
}

fn write_holder(out: &mut String, before: &Site, act: &Act) -> Result<(), AllocError> {
    let number = transaction_of(act);
    let holder = match before.point(point_of(act)) {
        Some(point) => match point.find(number) {
            Some(transaction) => transaction.holder,
            None => 0,
        },
        None => 0,
    };
    if holder == 0 {
        write!(
            out,
            "nobody holds transaction {number}: a till locks it first"
        )
    } else {
        write!(out, "till {holder} holds transaction {number}")
    }
}

fn write_misfit(out: &mut String, before: &Site, act: &Act) -> Result<(), AllocError> {
    write!(out, "this, or a number in it, doesn't fit the point")?;
    let Some(point) = before.point(point_of(act)) else {
        return Ok(());
    };
    let (state, nozzle) = (state_name(point.state()), point.nozzle());
    write!(out, ", which was {state}")?;
    if nozzle == 0 {
        write!(out, ", with no nozzle lifted")
    } else {
        write!(out, ", with nozzle {nozzle} lifted")
    }
}

/// The point that an act names, or 0.
fn point_of(act: &Act) -> u32 {
    match act {
        Act::Till { request, .. } => match *request {
            Request::Release(point, _)
            | Request::Preset(point, _)
            | Request::OpenPoint(point)
            | Request::ClosePoint(point)
            | Request::Suspend(point)
            | Request::Resume(point)
            | Request::Stop(point)
            | Request::Lock(point, _)
            | Request::Unlock(point, _)
            | Request::Clear(point, _)
            | Request::Show(point) => point,
            Request::Price(..) => 0,
        },
        Act::Dispenser { point, .. } => *point,
        Act::Load { .. } => 0,
    }
}

/// The transaction that an act names, or 0.
fn transaction_of(act: &Act) -> u32 {
    match act {
        Act::Till {
            request: Request::Lock(_, number)
            | Request::Unlock(_, number)
            | Request::Clear(_, number),
            ..
        } => *number,
        _ => 0,
    }
}

fn state_name(state: State) -> &'static str {
    match state {
        State::Inoperative => "inoperative",
        State::Closed => "closed",
        State::Idle => "idle",
        State::Calling => "calling",
        State::Authorised => "authorised",
        State::Started => "started",
        State::SuspendedStarted => "suspended started",
        State::Fuelling => "fuelling",
        State::SuspendedFuelling => "suspended fuelling",
    }
}
