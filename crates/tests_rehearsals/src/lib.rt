//! Tests of rehearsals: files with their listings, and a plain machine beside the machine.
#![tactic(auto)]

#[cfg(test)]
mod large;
#[cfg(test)]
mod machine;
#[cfg(test)]
mod plain;
#[cfg(test)]
mod plain_file;
#[cfg(test)]
mod rows;
