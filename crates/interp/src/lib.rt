// The interpreter: runs verified programs on plain 64-bit words.
#![tactic(auto)]

mod dispatch;
pub mod frame;
pub mod rebasing;
mod running;
mod words;

pub use bpf_model::context::{Context, Layout};
pub use running::{run, turn};
