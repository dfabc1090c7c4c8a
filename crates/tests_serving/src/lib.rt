//! Tests of what stands between questions and objects, of when connections close, and of the files of
//! loads: what no clause of them says.
#![tactic(auto)]

#[cfg(test)]
mod connections;
#[cfg(test)]
mod loads;
#[cfg(test)]
mod questions;
