// Who asked what, in words.

use fuelling_point::DispenserEvent;
use std::alloc::AllocError;
use std::fmt::Write;
use till_request::{Act, Request};

pub(crate) fn write_act(out: &mut String, act: &Act) -> Result<(), AllocError> {
    match act {
        Act::Till { till, request } => {
            write!(out, "till {till} asked to ")?;
            write_request(out, *request)
        }
        Act::Dispenser { point, event } => {
            write!(out, "the dispenser of point {point} ")?;
            write_event(out, *event)
        }
        Act::Load {
            slot,
            mask,
            bytes,
            ..
        } => {
            let units = bytes.as_slice().len() / 8;
            write!(
                out,
                "the owner asked to load a rule of {units} units into slot {slot}, with the counters of mask {mask}"
            )
        }
    }
}

fn write_request(out: &mut String, request: Request) -> Result<(), AllocError> {
    match request {
        Request::Release(point, amount) => {
            write!(out, "release point {point} for at most {amount} cents")
        }
        Request::Preset(point, amount) => {
            write!(out, "preset point {point} to at most {amount} cents")
        }
        Request::Price(product, price) => {
            write!(
                out,
                "set the price of product {product} to {price} thousandths a litre"
            )
        }
        Request::OpenPoint(point) => write!(out, "open point {point}"),
        Request::ClosePoint(point) => write!(out, "close point {point}"),
        Request::Suspend(point) => write!(out, "suspend the delivery at point {point}"),
        Request::Resume(point) => write!(out, "resume the delivery at point {point}"),
        Request::Stop(point) => write!(out, "stop the delivery at point {point}"),
        Request::Lock(point, number) => {
            write!(out, "lock transaction {number} of point {point}")
        }
        Request::Unlock(point, number) => {
            write!(out, "unlock transaction {number} of point {point}")
        }
        Request::Clear(point, number) => {
            write!(
                out,
                "clear transaction {number} of point {point}, which is paid"
            )
        }
        Request::Show(point) => write!(out, "see point {point}"),
    }
}

fn write_event(out: &mut String, event: DispenserEvent) -> Result<(), AllocError> {
    match event {
        DispenserEvent::Up(nozzle) => write!(out, "told that nozzle {nozzle} was lifted"),
        DispenserEvent::Down => write!(out, "told that the nozzle was hung up"),
        DispenserEvent::Started => write!(out, "told that the delivery began"),
        DispenserEvent::Flowed(amount, volume) => {
            write!(
                out,
                "told that {amount} cents and {volume} centilitres have flowed"
            )
        }
        DispenserEvent::Fault => write!(out, "told of a fault"),
        DispenserEvent::Repaired => write!(out, "told that it is repaired"),
        DispenserEvent::TakeOrder => write!(out, "asked for its order"),
    }
}
