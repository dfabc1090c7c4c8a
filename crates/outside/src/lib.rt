//! The outside of the server as traits: where bytes come from and where they go, pages, time,
//! connections, and what a worker waits at; each of them in memory, for tests; and the questions that
//! a run asks of what stands outside of it.
//!
//! Each trait says what its calls give in terms of ghost members: what the value holds, where it
//! tells (an `Option`; the adapters over the system tell nothing), and how many faults it has met, a
//! number that never falls. A call answers that it failed only where that number rose in it, or
//! stands where counters stop. The code above is generic over the traits and proved once.
#![tactic(auto)]

mod calls;
mod clock;
mod gate;
mod mem_clock;
mod mem_conn;
mod mem_net;
mod mem_pages;
mod mem_sink;
mod mem_source;
mod net;
mod page_shelf;
mod pages;
mod question;
mod replies;
mod reply_sink;
mod sending;
mod sink;
mod source;
mod unread;

pub use clock::Clock;
pub use gate::{Gate, OpenGate};
pub use mem_clock::MemClock;
pub use mem_conn::MemConn;
pub use mem_net::MemNet;
pub use mem_pages::MemPages;
pub use mem_sink::MemSink;
pub use mem_source::MemSource;
pub use net::{Accepted, Net};
pub use page_shelf::PageShelf;
pub use pages::{PageAnswer, Pages};
pub use question::{Answer, Question, Service};
pub use replies::Replies;
pub use reply_sink::ReplySink;
pub use sending::{Sent, write_all};
pub use sink::{Sink, WriteAnswer};
pub use source::{ReadAnswer, Source, count_of, read_behind};
