//! The threads of the server: workers and a keeper of time, each in a thread of its own, beside an
//! acceptor that puts the connections of a net into a queue.
//!
//! What is done with a connection stands behind the traits `Staff` and `Serve`, so nothing here knows of requests
//! or scripts. The acceptor says why it stopped, and that it gave no more connections than were asked
//! for. Nothing here speaks of progress, fairness or time.
#![tactic(auto)]

mod accepting;
mod parts;
mod roll;
mod running;
mod side;
mod staff;
#[cfg(test)]
mod tests;

pub use accepting::{Stop, accept_all};
pub use running::{Plan, serve_all};
pub use side::side_by_side;
pub use staff::{Arrives, Conn, Serve, Staff, look_again, serve_each};
