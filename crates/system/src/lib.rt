//! The outside as the system gives it: pages of a folder, the system's clock, connections over TCP, and the
//! stack of the main thread.
//!
//! These adapters are trusted: what they tell a layer above is that they count their faults, and, of a
//! net, how many connections it gave. They tell nothing of content, so nothing is proved of which bytes
//! come or go.
#![tactic(auto)]

mod clock;
mod conn;
mod counts;
mod folder;
mod net;
mod reply;
mod silence;
mod stack;
#[cfg(test)]
mod tests;
#[cfg(test)]
mod tests_closing;
#[cfg(test)]
mod tests_folder;
#[cfg(test)]
mod tests_reply;
#[cfg(test)]
mod tests_visit;
#[cfg(test)]
mod tests_waiting;
mod turn;
mod waiting;

pub use clock::SystemClock;
pub use conn::{TcpSink, TcpSource};
pub use folder::FolderPages;
pub use net::TcpNet;
pub use stack::take_stack;
