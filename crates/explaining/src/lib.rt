// Why an entry of a journal was answered so: the site before it, and what the rule's run did, instruction by
// instruction.
#![tactic(auto)]

mod acts;
mod calls;
pub mod explained;
mod fields;
mod instructions;
pub mod json;
mod kinds;
mod moments;
pub mod names;
pub mod request;
pub mod single;
pub mod tracing;
mod values;
mod why;
pub mod words;
pub mod writing;

pub use explained::{Decision, ExplainFault, Explained};
pub use moments::Zone;
