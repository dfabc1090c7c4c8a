//! The statuses of the responses whose status no script names (RFC 9110, section 15).

pub const OK: u16 = 200;

/// What is asked for is at another URL.
pub const FOUND: u16 = 302;

pub const UNAUTHORIZED: u16 = 401;

pub const FORBIDDEN: u16 = 403;

pub const NOT_FOUND: u16 = 404;

pub const INTERNAL_SERVER_ERROR: u16 = 500;
