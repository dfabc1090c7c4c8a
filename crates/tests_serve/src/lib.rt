//! Tests of the running server, over a net, pages and a clock in memory.
#![tactic(auto)]

#[cfg(test)]
mod ends;
#[cfg(test)]
mod gates;
#[cfg(test)]
mod site;
#[cfg(test)]
mod times;
