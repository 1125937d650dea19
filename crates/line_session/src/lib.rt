//! Sessions: for each line of an input, in order, one answer is written.
#![tactic(auto)]

mod answer_buffer;
pub mod answering;
mod connection;
mod desk;
mod desk_handler;
pub mod desk_session;
mod doors;
mod line_handler;
mod machine_clock;
pub mod pipelined;
pub mod read_sizes;
pub mod serving;

pub use answering::{Ended, READS, SessionFault};
pub use connection::Connection;
pub use desk::{Clock, Desk};
pub use desk_handler::DeskHandler;
pub use doors::Doors;
pub use line_handler::{HandlerError, LineHandler};
pub use machine_clock::MachineClock;
