//! What a worker passes between reading a request and serving it.

use std::sync::Wait;

/// A gate. A test has one that waits, to choose which worker goes on first.
pub trait Gate {
    /// A worker of this number calls it after it has read a request, which has this place in its
    /// session, from 0, and before it looks at the blueprint. It may wait.
    fn enter<R: Wait>(&self, rt: &R, worker: u16, request: u64);
}

/// The gate that is always open.
#[derive(Clone, Copy, Debug)]
pub struct OpenGate;

impl Gate for OpenGate {
    fn enter<R: Wait>(&self, _rt: &R, _worker: u16, _request: u64) {}
}
