//! The statuses of refusals (RFC 9110, section 15; RFC 6585, section 5).

pub(crate) const BAD_REQUEST: u16 = 400;

pub(crate) const CONTENT_TOO_LARGE: u16 = 413;

pub(crate) const FIELDS_TOO_LARGE: u16 = 431;

pub(crate) const NOT_IMPLEMENTED: u16 = 501;
