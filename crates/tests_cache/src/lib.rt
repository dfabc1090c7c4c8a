//! Tests of scripts that are kept.
#![tactic(auto)]

#[cfg(test)]
mod kept;
