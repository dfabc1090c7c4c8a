//! The codes with which scripts and commands end.

ghost use Rattle.std.specs.Prelude.{◌≡◌};
ghost use Rattle.tcl_host.specs.Codes as code_of;

/// A good end.
pub const OK: u8 = 0;

/// An error, whose text is the result.
pub const ERROR: u8 = 1;

/// A `return`, which ends a procedure.
pub const RETURN: u8 = 2;

/// A `break`, which ends a loop.
pub const BREAK: u8 = 3;

/// A `continue`, with which a loop goes on.
pub const CONTINUE: u8 = 4;

/// An `ns_adp_return`, which ends a page.
pub const PAGE_RETURN: u8 = 5;

/// An `ns_adp_break`, which ends all pages.
pub const PAGE_BREAK: u8 = 6;

/// An `ns_adp_abort`, which ends all pages and drops what they put out.
pub const PAGE_ABORT: u8 = 7;

/// The codes are those of the rules. The function does nothing: its contract is the law.
pub fn codes_have_their_names()
    ensures scripts { (OK ≡ code_of.ok) × (ERROR ≡ code_of.error) × (RETURN ≡ code_of.return)
        × (BREAK ≡ code_of.break) × (CONTINUE ≡ code_of.continue) }
    ensures pages { (PAGE_RETURN ≡ code_of.page_return) × (PAGE_BREAK ≡ code_of.page_break)
        × (PAGE_ABORT ≡ code_of.page_abort) }
{}
