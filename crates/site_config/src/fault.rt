//! The number of the fault for which a configuration is refused.

/// The number of the fault for which a configuration is refused.
#[derive(Clone, Copy)]
pub enum ConfigFault {
    /// The configuration isn't TOML.
    K1,
    /// A key is unknown, missing, beside one that excludes it or without one that it needs, or a value has a wrong
    /// type.
    K2,
    /// A value is out of its range, a list has a wrong length, or another condition isn't met.
    K3,
    OutOfMemory,
}
