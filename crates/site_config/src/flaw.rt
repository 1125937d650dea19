//! What exactly is wrong in a configuration, and the message that says it.
ghost use Rattle.std.specs.Prelude.{◌≡◌};
ghost use Rattle.site_config.specs.Keys.{counted};

use crate::fault::ConfigFault;
use crate::text::Text;
use std::alloc::{AllocError, AllocFailed};
use std::fmt;

/// A key of a configuration.
#[derive(Clone, Copy)]
pub enum Key {
    Tills,
    PriceSlot,
    Prices,
    Point,
    Counter,
    Serve,
    Release,
    Preset,
    Value,
    Bound,
    TillPort,
    DispenserPort,
    OwnerPort,
    TillWorkers,
    DispenserWorkers,
    Connections,
    IdleSeconds,
    LinesPerSecond,
    PagePort,
    OwnLines,
    DayEnds,
    Zone,
    TillSocket,
    DispenserSocket,
    OwnerSocket,
    Till,
    Dispenser,
    Number,
    Points,
    Port,
    Socket,
}

impl Key {
    ghost use Rattle.std.specs.Prelude.{◌≡◌};
    ghost use Rattle.site_config.specs.Keys.{name_of};

    /// The key's name, such as `till_port`.
    pub fn name(self) -> &'static str
        ensures { result.now ≡ name_of self }
    {
        match self {
            Key::Tills => "tills",
            Key::PriceSlot => "price_slot",
            Key::Prices => "prices",
            Key::Point => "point",
            Key::Counter => "counter",
            Key::Serve => "serve",
            Key::Release => "release",
            Key::Preset => "preset",
            Key::Value => "value",
            Key::Bound => "bound",
            Key::TillPort => "till_port",
            Key::DispenserPort => "dispenser_port",
            Key::OwnerPort => "owner_port",
            Key::TillWorkers => "till_workers",
            Key::DispenserWorkers => "dispenser_workers",
            Key::Connections => "connections",
            Key::IdleSeconds => "idle_seconds",
            Key::LinesPerSecond => "lines_per_second",
            Key::PagePort => "page_port",
            Key::OwnLines => "own_lines",
            Key::DayEnds => "day_ends",
            Key::Zone => "zone",
            Key::TillSocket => "till_socket",
            Key::DispenserSocket => "dispenser_socket",
            Key::OwnerSocket => "owner_socket",
            Key::Till => "till",
            Key::Dispenser => "dispenser",
            Key::Number => "number",
            Key::Points => "points",
            Key::Port => "port",
            Key::Socket => "socket",
        }
    }
}

impl fmt::Display for Key {
    ghost use Rattle.std.specs.Prelude.{Some};
    ghost use Rattle.site_config.specs.Keys.{name_of};

    ghost output = { λ k. Some (name_of k) };

    fn fmt<W: fmt::Write>(&self, f: &mut fmt::Formatter<W>) -> fmt::Result {
        f.write_str(self.name())
    }
}

/// The number from 1 of the item at `place`, from 0; the greatest `usize` stays.
fn counted(place: usize) -> usize
    ensures { result ≡ counted place }
{
    place.saturating_add(1)
}

/// A table: `Top` is the document, `Serve` is `[serve]`. The others are one of `[[point]]`, `[[counter]]`,
/// `[[serve.till]]` or `[[serve.dispenser]]`, counted from 0.
#[derive(Clone, Copy)]
pub enum Section {
    Top,
    Point(usize),
    Counter(usize),
    Serve,
    Till(usize),
    Dispenser(usize),
}

impl fmt::Display for Section {
    ghost use Rattle.std.specs.Prelude.{Some};
    ghost use Rattle.site_config.specs.Keys.{section_text};

    ghost output = { λ s. Some (section_text s) };

    /// Writes what comes before a key in a message, such as `point[1].`. Points and doors count from 1, counters from
    /// 0.
    fn fmt<W: fmt::Write>(&self, f: &mut fmt::Formatter<W>) -> fmt::Result {
        match *self {
            Section::Top => Ok(()),
            Section::Point(place) => write!(f, "point[{}].", counted(place)),
            Section::Counter(place) => write!(f, "counter[{place}]."),
            Section::Serve => f.write_str("serve."),
            Section::Till(place) => write!(f, "serve.till[{}].", counted(place)),
            Section::Dispenser(place) => write!(f, "serve.dispenser[{}].", counted(place)),
        }
    }
}

/// The place of a value: of a key, of an item in a key's list, or of a table of `[[counter]]`; both counted from 0.
#[derive(Clone, Copy)]
pub enum Place {
    At(Section, Key),
    Item(Section, Key, usize),
    Counter(usize),
}

impl fmt::Display for Place {
    ghost use Rattle.std.specs.Prelude.{Some};
    ghost use Rattle.site_config.specs.Keys.{place_text};

    ghost output = { λ p. Some (place_text p) };

    /// Counters count from 0, all other items from 1.
    fn fmt<W: fmt::Write>(&self, f: &mut fmt::Formatter<W>) -> fmt::Result {
        match *self {
            Place::At(section, key) => write!(f, "{section}{key}"),
            Place::Item(section, key, place) => write!(f, "{section}{key}[{}]", counted(place)),
            Place::Counter(place) => write!(f, "counter[{place}]"),
        }
    }
}

/// Tills, whose lines name their number, or dispensers, whose lines name a point's.
#[derive(Clone, Copy)]
pub enum Side {
    Tills,
    Dispensers,
}

impl Side {
    ghost use Rattle.std.specs.Prelude.{◌≡◌};
    ghost use Rattle.site_config.specs.Words.{plural_of, singular_of};

    fn plural(self) -> &'static str
        ensures { result.now ≡ plural_of self }
    {
        match self {
            Side::Tills => "tills",
            Side::Dispensers => "dispensers",
        }
    }

    fn singular(self) -> &'static str
        ensures { result.now ≡ singular_of self }
    {
        match self {
            Side::Tills => "till",
            Side::Dispensers => "point",
        }
    }
}

/// The type that a value must have.
#[derive(Clone, Copy)]
pub enum Type {
    Integer,
    IntegerOrUnlimited,
    L2OrL5,
    Text,
    Array,
    Table,
}

impl fmt::Display for Type {
    ghost use Rattle.std.specs.Prelude.{Some};
    ghost use Rattle.site_config.specs.Words.{type_text};

    ghost output = { λ t. Some (type_text t) };

    fn fmt<W: fmt::Write>(&self, f: &mut fmt::Formatter<W>) -> fmt::Result {
        f.write_str(match self {
            Type::Integer => "a whole number",
            Type::IntegerOrUnlimited => "a whole number or \"unlimited\"",
            Type::L2OrL5 => "\"L2\" or \"L5\"",
            Type::Text => "a string",
            Type::Array => "an array",
            Type::Table => "a table",
        })
    }
}

/// The least and the greatest number that are allowed; one number if they are equal.
#[derive(Clone, Copy)]
struct Range(usize, usize);

impl fmt::Display for Range {
    ghost use Rattle.std.specs.Prelude.{Some};
    ghost use Rattle.site_config.specs.Words.{range_text};

    ghost output = { λ r. Some (range_text r.0 r.1) };

    fn fmt<W: fmt::Write>(&self, f: &mut fmt::Formatter<W>) -> fmt::Result {
        let Range(low, high) = *self;
        if low < high {
            write!(f, "{low} to {high}")
        } else {
            write!(f, "{low}")
        }
    }
}

/// What is wrong in a configuration: the first flaw in the order of the checks.
#[derive(Drop)]
pub enum ConfigFlaw {
    /// K1: the text isn't UTF-8 from this line and column on, counted from 1.
    NotUtf8 {
        line: usize,
        column: usize,
    },
    /// K1: where the error starts, counted from 1, and the TOML reader's message.
    NotToml {
        line: usize,
        column: usize,
        message: String,
    },
    /// K2: a table of this section has an unknown key.
    UnknownKey(Section, Text),
    /// K2: a key is missing.
    Missing(Place),
    /// K2: a value has a wrong type.
    WrongType(Place, Type),
    /// K2: two keys of which only one is allowed.
    BothThere(Place, Place),
    /// K2: the workers of a shared door, without its port or socket: the places of these three keys.
    Needless(Place, Place, Place),
    /// K3: a value, and the least and the greatest that are allowed.
    OutOfRange(Place, i64, u64, u64),
    /// K3: how many items a list has, and the least and the most that are allowed.
    WrongCount(Place, usize, usize, usize),
    /// K3: a counter, from 0, its value, and the bound that the value is over.
    OverBound(usize, u64, u64),
    /// K3: a socket's path is empty.
    Empty(Place),
    /// K3: two keys give this port.
    SamePort(Place, Place, i64),
    /// K3: two keys give one socket.
    SameSocket(Place, Place),
    /// K3: two doors are for this till: the places of their addresses.
    SameTill(Place, Place, i64),
    /// K3: a list of points has this point twice.
    PointTwice(Place, u32),
    /// K3: how many workers the doors of one side have, and the most that are allowed.
    TooManyWorkers(Side, usize, usize),
    /// K3: the lines of this till, or of this point, are taken at no door.
    WithoutDoor(Side, u32),
    /// K3: a value isn't the text of a time from 00:00 to 23:59.
    NotTimeOfDay(Place),
    /// K3: a value can't be the name of a time zone.
    NotZoneName(Place),
    OutOfMemory,
}

#[derive(Clone, Copy)]
struct Miscounted(usize, usize, usize);

impl fmt::Display for Miscounted {
    ghost use Rattle.std.specs.Prelude.{Some};
    ghost use Rattle.site_config.specs.Words.{miscounted_text};

    ghost output = { λ m. Some (miscounted_text m.0 m.1 m.2) };

    fn fmt<W: fmt::Write>(&self, f: &mut fmt::Formatter<W>) -> fmt::Result {
        write!(f, "{} items, and not {}", self.0, Range(self.1, self.2))
    }
}

#[derive(Clone, Copy)]
struct Outside(i64, u64, u64);

impl fmt::Display for Outside {
    ghost use Rattle.std.specs.Prelude.{Some};
    ghost use Rattle.site_config.specs.Words.{outside_text};

    ghost output = { λ o. Some (outside_text o.0 o.1 o.2) };

    fn fmt<W: fmt::Write>(&self, f: &mut fmt::Formatter<W>) -> fmt::Result {
        write!(f, "{} is not {} to {}", self.0, self.1, self.2)
    }
}

#[derive(Clone, Copy)]
struct Over(u64, u64);

impl fmt::Display for Over {
    ghost use Rattle.std.specs.Prelude.{Some};
    ghost use Rattle.site_config.specs.Words.{over_text};

    ghost output = { λ o. Some (over_text o.0 o.1) };

    fn fmt<W: fmt::Write>(&self, f: &mut fmt::Formatter<W>) -> fmt::Result {
        write!(f, "{} is over its bound, {}", self.0, self.1)
    }
}

/// The message of a flaw that only `[serve]` can have; empty for any other.
#[derive(Clone, Copy)]
struct ServeFlawText<'a>(&'a ConfigFlaw);

impl fmt::Display for ServeFlawText<'_> {
    ghost use Rattle.std.specs.Prelude.{Some};
    ghost use Rattle.site_config.specs.Words.{doors_text};

    ghost output = { λ d. Some (doors_text d.0.now) };

    fn fmt<W: fmt::Write>(&self, f: &mut fmt::Formatter<W>) -> fmt::Result {
        match self.0 {
            ConfigFlaw::BothThere(first, second) => {
                write!(f, "'{first}' and '{second}' are both there")
            }
            ConfigFlaw::Needless(place, port, socket) => {
                write!(f, "'{place}' is there without '{port}' or '{socket}'")
            }
            ConfigFlaw::Empty(place) => write!(f, "{place} is empty"),
            ConfigFlaw::SamePort(first, second, port) => {
                write!(f, "{first} and {second} are both {port}")
            }
            ConfigFlaw::SameSocket(first, second) => {
                write!(f, "{first} and {second} are the same path")
            }
            ConfigFlaw::SameTill(first, second, till) => {
                write!(f, "{first} and {second} are both for till {till}")
            }
            ConfigFlaw::PointTwice(place, point) => write!(f, "{place} has point {point} twice"),
            ConfigFlaw::TooManyWorkers(side, count, most) => {
                let whose = side.plural();
                write!(f, "{whose} have {count} workers, and not 1 to {most}")
            }
            ConfigFlaw::WithoutDoor(side, number) => {
                write!(f, "{} {number} has no door", side.singular())
            }
            ConfigFlaw::NotTimeOfDay(place) => {
                write!(f, "{place} is not \"00:00\" to \"23:59\"")
            }
            ConfigFlaw::NotZoneName(place) => {
                write!(f, "{place} is not a zone's name, such as \"Europe/Berlin\"")
            }
            ConfigFlaw::NotUtf8 { .. }
            | ConfigFlaw::NotToml { .. }
            | ConfigFlaw::UnknownKey(..)
            | ConfigFlaw::Missing(..)
            | ConfigFlaw::WrongType(..)
            | ConfigFlaw::OutOfRange(..)
            | ConfigFlaw::WrongCount(..)
            | ConfigFlaw::OverBound(..)
            | ConfigFlaw::OutOfMemory => Ok(()),
        }
    }
}

impl fmt::Display for ConfigFlaw {
    ghost use Rattle.std.specs.Prelude.{Some};
    ghost use Rattle.site_config.specs.Words.{flaw_text};

    ghost output = { λ flaw. Some (flaw_text flaw) };

    fn fmt<W: fmt::Write>(&self, f: &mut fmt::Formatter<W>) -> fmt::Result {
        match self {
            ConfigFlaw::NotUtf8 { .. } => f.write_str("the text isn't UTF-8"),
            ConfigFlaw::NotToml { message, .. } => f.write_str(message.as_str()),
            ConfigFlaw::UnknownKey(section, name) => write!(f, "unknown key '{section}{name}'"),
            ConfigFlaw::Missing(place) => write!(f, "'{place}' is missing"),
            ConfigFlaw::WrongType(place, kind) => write!(f, "'{place}' is not {kind}"),
            ConfigFlaw::OutOfRange(place, value, low, high) => {
                write!(f, "{place} = {}", Outside(*value, *low, *high))
            }
            ConfigFlaw::WrongCount(list, count, low, high) => {
                write!(f, "'{list}' has {}", Miscounted(*count, *low, *high))
            }
            ConfigFlaw::OverBound(counter, value, bound) => {
                write!(f, "counter[{counter}].value = {}", Over(*value, *bound))
            }
            ConfigFlaw::OutOfMemory => f.write_str("out of memory"),
            ConfigFlaw::BothThere(..)
            | ConfigFlaw::Needless(..)
            | ConfigFlaw::Empty(..)
            | ConfigFlaw::SamePort(..)
            | ConfigFlaw::SameSocket(..)
            | ConfigFlaw::SameTill(..)
            | ConfigFlaw::PointTwice(..)
            | ConfigFlaw::TooManyWorkers(..)
            | ConfigFlaw::WithoutDoor(..)
            | ConfigFlaw::NotTimeOfDay(..)
            | ConfigFlaw::NotZoneName(..) => write!(f, "{}", ServeFlawText(self)),
        }
    }
}

impl ConfigFlaw {
    ghost use Rattle.std.specs.Prelude.{◌≡◌};
    ghost use Rattle.site_config.specs.Flaws.{fault_of, position_of};

    /// K1 to K3, or that memory ran out.
    pub fn fault(&self) -> ConfigFault
        ensures { result ≡ fault_of self.now }
    {
        match self {
            ConfigFlaw::NotUtf8 { .. } | ConfigFlaw::NotToml { .. } => ConfigFault::K1,
            ConfigFlaw::UnknownKey(..)
            | ConfigFlaw::Missing(..)
            | ConfigFlaw::WrongType(..)
            | ConfigFlaw::BothThere(..)
            | ConfigFlaw::Needless(..) => ConfigFault::K2,
            ConfigFlaw::OutOfRange(..)
            | ConfigFlaw::WrongCount(..)
            | ConfigFlaw::OverBound(..)
            | ConfigFlaw::Empty(..)
            | ConfigFlaw::SamePort(..)
            | ConfigFlaw::SameSocket(..)
            | ConfigFlaw::SameTill(..)
            | ConfigFlaw::PointTwice(..)
            | ConfigFlaw::TooManyWorkers(..)
            | ConfigFlaw::WithoutDoor(..)
            | ConfigFlaw::NotTimeOfDay(..)
            | ConfigFlaw::NotZoneName(..) => ConfigFault::K3,
            ConfigFlaw::OutOfMemory => ConfigFault::OutOfMemory,
        }
    }

    /// Where a flaw K1 is: line and column, counted from 1, columns by characters.
    pub fn position(&self) -> Option<(usize, usize)>
        ensures { result ≡ position_of self.now }
    {
        match self {
            ConfigFlaw::NotUtf8 { line, column } | ConfigFlaw::NotToml { line, column, .. } => {
                Some((*line, *column))
            }
            _ => None,
        }
    }
}

impl From<AllocError> for ConfigFlaw {
    ghost use Rattle.std.specs.Prelude.{◌≡◌};
    ghost use Rattle.site_config.specs.declared.flaw.ConfigFlaw.TheVariants.{OutOfMemory};

    ghost from_gives = { λ _ e. e ≡ OutOfMemory };

    fn from(_: AllocError) -> Self {
        ConfigFlaw::OutOfMemory
    }
}

impl<T: Drop> From<AllocFailed<T>> for ConfigFlaw {
    ghost use Rattle.std.specs.Prelude.{◌≡◌};
    ghost use Rattle.site_config.specs.declared.flaw.ConfigFlaw.TheVariants.{OutOfMemory};

    ghost from_gives = { λ _ e. e ≡ OutOfMemory };

    fn from(_: AllocFailed<T>) -> Self {
        ConfigFlaw::OutOfMemory
    }
}
