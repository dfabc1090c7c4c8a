//! Tests of cells and of queues between threads: what no clause of them says.
#![tactic(auto)]

#[cfg(test)]
mod counters;
#[cfg(test)]
mod queues;
