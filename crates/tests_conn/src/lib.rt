//! Tests of a connection: what its commands come to, and what the bytes of requests and responses are.
#![tactic(auto)]

#[cfg(test)]
mod commands;
#[cfg(test)]
mod requests;
#[cfg(test)]
mod responses;
#[cfg(test)]
mod rows;
#[cfg(test)]
mod telling;
