//! The subcommands of `ns_set` that look for fields by their places.

ghost use Rattle.std.specs.Prelude.{◌≢◌, ◌<◌, None, IfOk, length};
ghost use Rattle.ns_sets.specs.Sets.{set_of, fields_of};
ghost use Rattle.tcl_host.specs.Outcomes.{EndsWith};
ghost use Rattle.conn_host.specs.Answers.{Finds};
ghost use Rattle.conn_host.specs.SetCommands.{on_set, field_at, set_delete, set_key, set_value};

use crate::conn::{Conn, kept};
use crate::error::no_field;
use crate::id::set_at;
use natives::Fault;
use tcl_host::integer;
use txt_core::{Text, Words};

/// The place of a field of the set of this number that the fourth word is.
fn field_at(host: &Conn, words: &Words, set: u64) -> Result<u64, Fault>
    requires { set_of host.now.sets set ≢ None }
    ensures finds { Finds result (field_at words.now set host.now) }
    ensures within { IfOk result (λ place. place < length (fields_of host.now.sets set)) }
{
    let place = integer(host.alloc, words, 3)?;
    let count = host.sets.size(set).unwrap_or(0);
    if place < 0 || place as u64 >= count {
        return Err(Fault::saying(no_field(host.alloc, place, words.bytes_at(2))));
    }
    Ok(place as u64)
}

/// `delete ID PLACE`.
pub fn set_delete(host: &mut Conn, words: &Words) -> Result<Text, Fault>
    ensures { EndsWith result host.new (on_set words.now (set_delete words.now) host.old) }
{
    let set = set_at(host, words, 2)?;
    let place = field_at(host, words, set)?;
    kept(host.sets.delete(set, place))?;
    Ok(Text::empty(host.alloc))
}

/// `key ID PLACE`.
pub fn set_key(host: &mut Conn, words: &Words) -> Result<Text, Fault>
    ensures { EndsWith result host.new (on_set words.now (set_key words.now) host.old) }
{
    let set = set_at(host, words, 2)?;
    let place = field_at(host, words, set)?;
    Ok(kept(host.sets.key(set, place))?)
}

/// `value ID PLACE`.
pub fn set_value(host: &mut Conn, words: &Words) -> Result<Text, Fault>
    ensures { EndsWith result host.new (on_set words.now (set_value words.now) host.old) }
{
    let set = set_at(host, words, 2)?;
    let place = field_at(host, words, set)?;
    Ok(kept(host.sets.value(set, place))?)
}
