//! How pages are left.

ghost use Rattle.std.specs.Prelude.{◌≡◌};
ghost use Rattle.tcl_host.specs.Outcomes.{Comes};
ghost use Rattle.adp_host.specs.Leaving.{is_end, is_error, leaves_with, page_left, with_error};

use crate::checks::require_page;
use crate::host::AdpHost;
use natives::Fault;
use tcl_host::{
    BREAK, CONTINUE, ERROR, HostReply, OK, PAGE_ABORT, PAGE_BREAK, PAGE_RETURN, RETURN, is_counted,
    require_words,
};
use txt_core::{Text, Words};

/// Does a command that ends with a code.
pub fn leaves_with(host: &AdpHost, code: u8, words: &Words) -> Result<HostReply, Fault>
    ensures { Comes result host.now (leaves_with code words.now host.now) }
{
    require_words(host.alloc, is_counted(words, 1, 1), words)?;
    require_page(host)?;
    Ok(HostReply::Done {
        code,
        result: Text::empty(host.alloc),
    })
}

/// Whether a code is that of an error, or of a break or a continue outside of a loop.
fn is_error(code: u8) -> bool
    ensures { result ≡ is_error code }
{
    code == ERROR || code == BREAK || code == CONTINUE
}

/// Whether a code ends a page, and leaves what it put out.
fn is_end(code: u8) -> bool
    ensures { result ≡ is_end code }
{
    code == OK || code == RETURN || code == PAGE_RETURN || code == PAGE_BREAK
}

/// Leaves the innermost open page, or counts an error, by the code with which a piece ended.
pub fn page_left(host: &mut AdpHost, code: u8)
    ensures { host.new ≡ page_left code host.old }
{
    if is_error(code) {
        host.errors = host.errors.saturating_add(1);
    } else if is_end(code) {
        host.close_page();
    } else if code == PAGE_ABORT {
        host.close_page();
        host.output.clear();
    }
}
