//! Tests of workers over their public calls.
#![tactic(auto)]

#[cfg(test)]
mod counted;
#[cfg(test)]
mod desk;
#[cfg(test)]
mod gates;
#[cfg(test)]
mod scripts;
#[cfg(test)]
mod seat;
#[cfg(test)]
mod site;
#[cfg(test)]
mod tests;
#[cfg(test)]
mod threads;
#[cfg(test)]
mod wire;
