//! Tests of clocks, nets and their connections in memory: what no clause says.
#![tactic(auto)]

#[cfg(test)]
mod clocks;
#[cfg(test)]
mod nets;
