//! The exit statuses of the program.
/// The job was done. A request that a play answers with a refusal counts as done.
pub const DONE: u8 = 0;
/// The input was refused, or a served site couldn't be closed (C1 to C3).
pub const REFUSED: u8 = 1;
/// The command line isn't valid.
pub const USAGE: u8 = 2;
/// The job couldn't be done, or its result couldn't be printed: a file, a socket or a lock couldn't be used, the next
/// day had begun already, a session needed more reads than it is allowed to make, or memory ran out.
pub const FAILED: u8 = 3;
