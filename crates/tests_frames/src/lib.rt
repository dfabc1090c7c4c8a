//! Random changes of variables: what no clause says of a long run of them.
#![tactic(auto)]

#[cfg(test)]
mod cleared;
#[cfg(test)]
mod random;
