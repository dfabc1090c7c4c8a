//! The form of a request.

ghost use Rattle.std.specs.Prelude.{◌≡◌, ◌++◌, codes, find, IfOk, OnOk};
ghost use Rattle.std.specs.List.{before_first};
ghost use Rattle.std.specs.Option.{option_copied};
ghost use Rattle.ns_sets.specs.Fields.{ignoring_case, has_key};
ghost use Rattle.conn_host.specs.Forms.{form_text, form_fields, is_semicolon, is_form, media_type, form_of};

use form_urlencoded::{decode, raw_pairs};
use http_req::Request;
use std::alloc::Global;
use txt_core::{NoMemory, Pairs, Text, place_of, trim};

/// The media type of a body that is a form.
const FORM_TYPE: &[u8] = b"application/x-www-form-urlencoded";

/// The text that a name or a value of a form stands for.
fn form_text(alloc: Global, bytes: &[u8]) -> Result<Text, NoMemory>
    ensures { IfOk result (λ text. text ≡ form_text bytes.now) }
{
    let text = decode(alloc, bytes)?;
    Text::new(alloc, text.as_bytes())
}

/// Puts the pairs of a form at the end of a list.
fn add_form(alloc: Global, fields: &mut Pairs, form: &[u8]) -> Result<(), NoMemory>
    ensures { OnOk result (fields.new ≡ fields.old ++ form_fields form.now) }
{
    'pairs: for (name, value) in raw_pairs(form) {
        fields.add((form_text(alloc, name)?, form_text(alloc, value)?))?;
    }
    Ok(())
}

/// The first field that names a media type.
fn content_type(fields: &[(Text, Text)]) -> Option<&(Text, Text)>
    ensures { option_copied result
        ≡ find (has_key ignoring_case (codes "content-type")) fields.now }
{
    fields.iter().find(|field| field.0.bytes().eq_ignore_ascii_case(b"content-type"))
}

/// What stands before the first semicolon, or all where there is none.
fn before_semicolon(value: &[u8]) -> &[u8]
    ensures { result.now ≡ before_first is_semicolon value.now }
{
    match place_of(b';', value) {
        Some(at) => &value[..at],
        None => value,
    }
}

/// The media type of a body with these fields; the empty text where none is named.
fn media_type(fields: &[(Text, Text)]) -> &[u8]
    ensures { result.now ≡ media_type fields.now }
{
    match content_type(fields) {
        Some(field) => trim(before_semicolon(field.1.bytes())),
        None => &[],
    }
}

/// Whether the body is a form.
fn is_form(fields: &[(Text, Text)]) -> bool
    ensures { result ≡ is_form fields.now }
{
    media_type(fields).eq_ignore_ascii_case(FORM_TYPE)
}

/// The fields of a request's form: the pairs of the query, and then those of the body where it is a
/// form. Its only error is want of memory.
pub fn form_of(alloc: Global, request: &Request) -> Result<Pairs, NoMemory>
    ensures { IfOk result (λ fields. fields ≡ form_of request.now) }
{
    let mut fields = Pairs::new(alloc);
    add_form(alloc, &mut fields, request.query.bytes())?;
    if is_form(request.fields.as_slice()) {
        add_form(alloc, &mut fields, request.body.bytes())?;
    }
    Ok(fields)
}
