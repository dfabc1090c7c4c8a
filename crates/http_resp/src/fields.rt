//! Field lines.

ghost use Rattle.std.specs.Prelude.{◌≡◌, ◌++◌, IfOk, OnOk, bytes_eq, codes};
ghost use Rattle.std.specs.List.{list_all, list_any};
ghost use Rattle.http_header.specs.Token.{is_value_byte};
ghost use Rattle.http_resp.specs.OutputFields.{field_line, is_sent, own_names, output_lines};

use http_header::{HeaderName, HeaderNameError};
use std::alloc::{AllocError, Global};
use txt_core::{NoMemory, Pairs};

/// The control byte above the printable ones.
const DELETE: u8 = 127;

/// Appends a field line.
#[tactic(auto, unfolding(crate::specs::OutputFields::field_line))]
pub fn push_field(text: &mut Vec<u8>, name: &[u8], value: &[u8]) -> Result<(), AllocError>
    ensures { OnOk result (text.new.items ≡ text.old.items ++ field_line name.now value.now) }
{
    text.extend_from_slice(name)?;
    text.extend_from_slice(b": ")?;
    text.extend_from_slice(value)?;
    text.extend_from_slice(b"\r\n")
}

/// Appends a field line that begins with these bytes: a name, a colon and a space.
pub fn push_line(text: &mut Vec<u8>, start: &[u8], value: &[u8]) -> Result<(), AllocError>
    ensures { OnOk result
        (text.new.items ≡ text.old.items ++ start.now ++ value.now ++ codes "\r\n") }
{
    text.extend_from_slice(start)?;
    text.extend_from_slice(value)?;
    text.extend_from_slice(b"\r\n")
}

/// Whether a field, whose name is in lower case, is one that the server writes itself, or never.
fn is_own(name: &str) -> bool
    ensures { result ≡ list_any (bytes_eq name.now) own_names }
{
    matches!(
        name,
        "date" | "server" | "content-type" | "content-length" | "transfer-encoding" | "connection"
    )
}

/// Whether a byte may stand in a field's value: all but 127 and those below 32 other than tab.
fn is_value_byte(byte: u8) -> bool
    ensures { result ≡ is_value_byte byte }
{
    byte == b'\t' || (byte >= b' ' && byte != DELETE)
}

/// Whether a field's value holds no byte that could end its line, or other control byte but tab.
fn is_value(value: &[u8]) -> bool
    ensures { result ≡ list_all is_value_byte value.now }
{
    value.iter().all(|byte| is_value_byte(*byte))
}

/// Whether an output field is sent: its name is a field name and not the server's own, and its value
/// can't end a line.
fn is_sent(alloc: Global, name: &[u8], value: &[u8]) -> Result<bool, NoMemory>
    ensures { IfOk result (λ sent. sent ≡ is_sent (name.now, value.now)) }
{
    let name = match HeaderName::from_bytes(alloc, name) {
        Ok(name) => name,
        Err(HeaderNameError::Invalid) => return Ok(false),
        Err(HeaderNameError::OutOfMemory) => return Err(NoMemory),
    };
    Ok(is_value(value) && !is_own(name.as_str()))
}

/// Appends the lines of the output fields that are sent, in order.
#[tactic(auto, unfolding(crate::specs::OutputFields::output_lines))]
pub fn push_output_fields(alloc: Global, text: &mut Vec<u8>, fields: &Pairs) -> Result<(), NoMemory>
    ensures { OnOk result (text.new.items ≡ text.old.items ++ output_lines fields.now) }
{
    for (name, value) in fields.as_slice() {
        if is_sent(alloc, name.bytes(), value.bytes())? {
            push_field(text, name.bytes(), value.bytes())?;
        }
    }
    Ok(())
}
