//! How long a worker serves.

/// How long each worker of a site serves.
#[derive(Clone, Copy)]
pub struct Shift {
    /// How many connections; one that can't be opened counts too. `None` is without end.
    pub connections: Option<u32>,
    /// Whether the site can be asked to stop before.
    pub may_stop: bool,
}
