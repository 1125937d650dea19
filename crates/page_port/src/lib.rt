//! The page port of a served site: there a browser, Prometheus or a script looks at the site, by HTTP on 127.0.0.1.
#![tactic(auto)]

mod client;
mod connections;
mod journal_counts;
mod page_answer;
mod port;
mod routing;
mod service;
mod timings;

pub use connections::ConnectionCounts;
pub use journal_counts::JournalCounts;
pub use port::{PageListener, PagePort};
