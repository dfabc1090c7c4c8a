//! Tests of the server's threads and of its command line.
#![tactic(auto)]

#[cfg(test)]
mod options;
#[cfg(test)]
mod threads;
