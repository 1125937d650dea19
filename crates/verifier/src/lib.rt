// The verifier, and all that a run of a verified program is made of: a `Program`'s runs end, and never get stuck.
#![tactic(auto)]

pub mod arithmetic;
pub mod counters;
pub mod flow;
pub mod helpers;
pub mod memory;
mod operation_kind;
pub mod operations;
mod refusal;
mod rules;
mod spills;
pub mod stack_map;
mod table;
mod types;
pub mod verifying;

pub use crate::counters::Counters;
pub use crate::operations::Operation;
pub use bpf_model::context::Layout;
pub use bpf_model::machine::{PointView, View};
pub use flow::FlowFault;
pub use operation_kind::OperationKind;
pub use refusal::{Refusal, TypeFault};
pub use types::{Fact, RegType};
pub use verifying::Program;
