//! Tests of the language: scripts over a host that echoes, and what they come to.
#![tactic(auto)]

#[cfg(test)]
mod abandoned;
mod echo;
#[cfg(test)]
mod engines;
#[cfg(test)]
mod kept;
#[cfg(test)]
mod lines;
#[cfg(test)]
mod long;
#[cfg(test)]
mod marks;
#[cfg(test)]
mod pages;
#[cfg(test)]
mod playing;
#[cfg(test)]
mod runs;
#[cfg(test)]
mod stand_ins;
#[cfg(test)]
mod told;
