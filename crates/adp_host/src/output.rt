//! What pages put out.

ghost use Rattle.std.specs.Prelude.{◌≡◌, ◌++◌, IfOk, OnOk};
ghost use Rattle.std.specs.List.{concat};
ghost use Rattle.tcl_host.specs.Outcomes.{EndsWith, PutsOut};
ghost use Rattle.adp_host.specs.Output.{output_too_long, overfills, put_out, puts_out, is_plain_or_option, line, ns_adp_append, ns_adp_puts};

use crate::checks::{behind_name, require_page};
use crate::host::AdpHost;
use natives::Fault;
use std::alloc::Global;
use tcl_host::{is_counted, require_fit, require_words};
use txt_core::{NoMemory, Text, Words};

/// How many bytes the output may have.
const MOST_OUTPUT: usize = 8_388_608;

/// The error of an output that would have more.
fn output_too_long(alloc: Global) -> Result<Text, NoMemory>
    ensures { IfOk result (λ text. text ≡ output_too_long) }
{
    Text::new(alloc, b"output too long")
}

/// Whether the output would have more bytes than it may.
fn overfills(host: &AdpHost, text: &[u8]) -> bool
    ensures { result ≡ overfills host.now text.now }
{
    text.len() > MOST_OUTPUT || host.output.len() > MOST_OUTPUT - text.len()
}

/// Puts a text at the end of the output, where that doesn't get too long.
pub fn put_out(host: &mut AdpHost, text: &[u8]) -> Result<(), Fault>
    ensures { PutsOut result host.new (put_out text.now host.old) }
{
    if overfills(host, text) {
        return Err(Fault::saying(output_too_long(host.alloc)));
    }
    host.output.append(text)?;
    Ok(())
}

/// Does a command that puts out a text.
fn puts_out(host: &mut AdpHost, text: &[u8]) -> Result<Text, Fault>
    ensures { EndsWith result host.new (puts_out text.now host.old) }
{
    put_out(host, text)?;
    Ok(Text::empty(host.alloc))
}

/// `ns_adp_append WORD..`.
pub fn ns_adp_append(host: &mut AdpHost, words: &Words) -> Result<Text, Fault>
    ensures { EndsWith result host.new (ns_adp_append words.now host.old) }
{
    require_page(host)?;
    let text = Text::concat(host.alloc, behind_name(words))?;
    puts_out(host, text.bytes())
}

/// Whether no word stands before the text, or the option that says that no newline follows it.
fn is_plain_or_option(words: &Words) -> bool
    ensures { result ≡ is_plain_or_option words.now }
{
    words.len() == 2 || words.bytes_at(1) == b"-nonewline".as_slice()
}

/// The text that is put out: the last word, and a newline where no option stands before it.
fn line(alloc: Global, words: &Words) -> Result<Text, NoMemory>
    ensures { IfOk result (λ text. text ≡ line words.now) }
{
    if words.len() != 2 {
        return Text::new(alloc, words.bytes_at(2));
    }
    let mut line = Text::new(alloc, words.bytes_at(1))?;
    line.append(b"\n")?;
    Ok(line)
}

/// `ns_adp_puts ?-nonewline? TEXT`.
pub fn ns_adp_puts(host: &mut AdpHost, words: &Words) -> Result<Text, Fault>
    ensures { EndsWith result host.new (ns_adp_puts words.now host.old) }
{
    let alloc = host.alloc;
    require_words(alloc, is_counted(words, 2, 3), words)?;
    require_page(host)?;
    require_fit(alloc, is_plain_or_option(words), words, 1)?;
    let text = line(alloc, words)?;
    puts_out(host, text.bytes())
}
