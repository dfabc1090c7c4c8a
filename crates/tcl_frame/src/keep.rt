//! A base scalar that was kept.

use crate::base::Base;
use txt_core::Text;

/// The name of a base scalar, its value from then on, and the base scalar of this name before it,
/// `None` where there was none.
#[derive(Debug, Drop)]
pub struct Keep {
    pub name: Text,
    pub value: Text,
    pub before: Option<Base>,
}
