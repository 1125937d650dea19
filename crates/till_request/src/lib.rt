//! Reads the lines of tills, dispensers and the owner from any `LineIn`, and parses them as acts. Writes the answers to
//! any `LineOut`.
#![tactic(auto)]

mod act;
mod answer;
mod block;
pub mod dates;
mod device;
pub mod devices;
pub mod form;
pub mod grammar;
pub mod line;
pub mod look;
pub mod numbers;
pub mod parts;
pub mod short_text;
pub mod spelling;
pub mod write;

pub use act::{Act, Answer, Bytes, LineFault, Reply, Request, Role, Stray};
pub use block::Block;
pub use dates::Date;
pub use device::{DeviceFault, LineIn, LineOut};
pub use form::{AmountVerb, Form, PointVerb, ReportVerb, RequestByForm, TransactionVerb};
pub use grammar::LINE_WORDS;
pub use line::{Found, InputFault, LINE_BYTES, LineReadFault};
pub use look::{Asked, LookAt, Seen, Sight};
pub use short_text::ShortText;
pub use write::WriteFault;
