//! Tests of what threads share: what no clause of it says.
#![tactic(auto)]

#[cfg(test)]
mod buckets;
#[cfg(test)]
mod schedules;
#[cfg(test)]
mod shared_arrays;
