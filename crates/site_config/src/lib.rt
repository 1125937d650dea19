//! Reads the configuration of a site from its text.
#![tactic(auto)]

/// `?` for a flaw, without a conversion: half the time to prove.
macro_rules! value_of {
    ($result:expr) => {
        match $result {
            Ok(value) => value,
            Err(flaw) => return Err(flaw),
        }
    };
}

/// `?` for an allocation: the flaw `OutOfMemory`.
macro_rules! room_for {
    ($result:expr) => {
        match $result {
            Ok(made) => made,
            Err(_) => return Err(ConfigFlaw::OutOfMemory),
        }
    };
}

mod day_ends;
mod document;
pub mod doors;
mod fault;
mod flaw;
pub mod head;
mod number;
pub mod ranges;
mod raw;
mod served;
mod settings;
mod text;
mod typed;
mod values;

pub use day_ends::{TimeOfDay, ZoneName};
pub use fault::ConfigFault;
pub use flaw::{ConfigFlaw, Key, Place, Section, Side, Type};
pub use head::MOST_BYTES;
pub use settings::{Address, Door, Serve, Settings};
