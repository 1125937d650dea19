//! The settings that a configuration gives.
use crate::day_ends::{TimeOfDay, ZoneName};
use crate::flaw::Place;
use site_core::Config;
use till_request::Role;

/// Where connections come in.
#[derive(Drop)]
pub enum Address {
    /// Of 127.0.0.1, 1 to 65,535.
    Port(u32),
    /// The path of a local socket, which isn't empty.
    Socket(String),
}

/// A door: the address at which connections come in, whose lines it takes, and how many connections are served at once.
/// `place` is where the configuration names the address. `lines_per_second` is how many are read from all its
/// connections together, at most 1,000,000, or 0 without a bound.
#[derive(Drop)]
pub struct Door {
    pub place: Place,
    pub address: Address,
    pub role: Role,
    pub workers: u32,
    pub lines_per_second: u32,
}

/// Where and how to serve the site:
///
/// - `doors`: in the order in which workers get their passes (rights to call the site): of all tills, of one till each,
///   of all dispensers, of some points each, the owner's. Addresses differ, and each till has at most one door of its
///   own. Tills have 1 to 64 workers in all, dispensers 1 to 31, the owner one.
/// - `connections`: how many each worker serves, one after another, 1 to 1,000,000, or `None` without end.
/// - `idle_seconds`: after how many seconds without a byte a connection ends, at most 86,400; 0 for never.
/// - `page_port`: the page's port, 1 to 65,535, which no door has; `None` without a page.
/// - `day_ends`: the minute of the day at which a day ends; `None` if days end at no time.
/// - `zone`: the zone in which it is that minute then; `None` for UTC.
#[derive(Drop)]
pub struct Serve {
    pub doors: Vec<Door>,
    pub connections: Option<u32>,
    pub idle_seconds: u32,
    pub page_port: Option<u32>,
    pub day_ends: Option<TimeOfDay>,
    pub zone: Option<ZoneName>,
}

/// The site, and where and how to serve it, if `[serve]` is given.
#[derive(Drop)]
pub struct Settings {
    pub config: Config,
    pub serve: Option<Serve>,
}
