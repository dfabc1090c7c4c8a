//! Which registration serves a request, and which filters a request passes.
#![tactic(auto)]

mod filters;
mod law;
mod routes;
mod shared;
mod site;
mod table;
mod url;

pub use filters::WordsList;
pub use law::routes_are_best;
pub use routes::Routes;
pub use shared::SharedWords;
pub use site::Route;
