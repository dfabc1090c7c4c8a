//! Tests of what the server has of its own: stages and routes, what is published and what threads share,
//! pages, and the commands of the server.
#![tactic(auto)]

#[cfg(test)]
mod hosts;
#[cfg(test)]
mod order;
#[cfg(test)]
mod pages;
#[cfg(test)]
mod publications;
#[cfg(test)]
mod routes;
#[cfg(test)]
mod shared;
#[cfg(test)]
mod texts;
