//! Tests of interpreters: runs of requests, of scheduled scripts and of definitions, and what goes out of
//! them.
#![tactic(auto)]

#[cfg(test)]
mod runs;
