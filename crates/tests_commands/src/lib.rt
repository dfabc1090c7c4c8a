//! Tests of stored commands and of the tables: what no clause of them says.
#![tactic(auto)]

#[cfg(test)]
mod slots;
#[cfg(test)]
mod stored;
#[cfg(test)]
mod tables;
#[cfg(test)]
mod taken_back;
