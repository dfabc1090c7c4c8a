//! `ns_set`.

ghost use Rattle.std.specs.Prelude.{◌≡◌, length, true};
ghost use Rattle.ns_sets.specs.Fields.{exact, ignoring_case};
ghost use Rattle.tcl_host.specs.Outcomes.{EndsWith};
ghost use Rattle.conn_host.specs.SetCommands.{on_set, set_takes, set_create, set_put, set_get, set_find, set_cput, set_update, set_delkey, set_truncate, set_merge, set_copy, set_free, set_size, set_name, does_set, ns_set};

use crate::checks::{count, require_count, unknown_subcommand};
use crate::conn::{Conn, kept};
use crate::id::{set_at, set_id};
use crate::set_field::{set_delete, set_key, set_value};
use crate::set_verb::{SetVerb, find_set_verb};
use natives::{Fault, word_at};
use tcl_host::require_words;
use txt_core::{Text, Words, write_int, write_natural};

/// `create ?NAME?`.
fn set_create(host: &mut Conn, words: &Words) -> Result<Text, Fault>
    ensures { EndsWith result host.new (set_create words.now host.old) }
{
    let name = Text::new(host.alloc, words.bytes_at(2))?;
    let set = host.sets.create(name)?;
    host.note_set(set);
    Ok(set_id(host.alloc, set)?)
}

/// `put ID KEY VALUE`.
fn set_put(host: &mut Conn, words: &Words) -> Result<Text, Fault>
    requires { length words.now ≡ 5 }
    ensures { EndsWith result host.new (on_set words.now (set_put words.now) host.old) }
{
    let set = set_at(host, words, 2)?;
    let place = kept(host.sets.put(set, word_at(words, 3), word_at(words, 4)))?;
    Ok(write_int(host.alloc, place)?)
}

/// `cput ID KEY VALUE`.
fn set_cput(host: &mut Conn, words: &Words) -> Result<Text, Fault>
    requires { length words.now ≡ 5 }
    ensures { EndsWith result host.new (on_set words.now (set_cput exact words.now) host.old) }
{
    let set = set_at(host, words, 2)?;
    let place = kept(host.sets.cput(set, word_at(words, 3), word_at(words, 4)))?;
    Ok(write_int(host.alloc, place)?)
}

/// `icput ID KEY VALUE`.
fn set_icput(host: &mut Conn, words: &Words) -> Result<Text, Fault>
    requires { length words.now ≡ 5 }
    ensures { EndsWith result host.new
        (on_set words.now (set_cput ignoring_case words.now) host.old) }
{
    let set = set_at(host, words, 2)?;
    let place = kept(host.sets.icput(set, word_at(words, 3), word_at(words, 4)))?;
    Ok(write_int(host.alloc, place)?)
}

/// `update ID KEY VALUE`.
fn set_update(host: &mut Conn, words: &Words) -> Result<Text, Fault>
    requires { length words.now ≡ 5 }
    ensures { EndsWith result host.new (on_set words.now (set_update words.now) host.old) }
{
    let set = set_at(host, words, 2)?;
    let place = kept(host.sets.update(set, word_at(words, 3), word_at(words, 4)))?;
    Ok(write_int(host.alloc, place)?)
}

/// `get ID KEY`.
fn set_get(host: &mut Conn, words: &Words) -> Result<Text, Fault>
    requires { length words.now ≡ 4 }
    ensures { EndsWith result host.new (on_set words.now (set_get exact words.now) host.old) }
{
    let set = set_at(host, words, 2)?;
    Ok(kept(host.sets.get(set, word_at(words, 3)))?)
}

/// `iget ID KEY`.
fn set_iget(host: &mut Conn, words: &Words) -> Result<Text, Fault>
    requires { length words.now ≡ 4 }
    ensures { EndsWith result host.new
        (on_set words.now (set_get ignoring_case words.now) host.old) }
{
    let set = set_at(host, words, 2)?;
    Ok(kept(host.sets.iget(set, word_at(words, 3)))?)
}

/// `find ID KEY`.
fn set_find(host: &mut Conn, words: &Words) -> Result<Text, Fault>
    requires { length words.now ≡ 4 }
    ensures { EndsWith result host.new (on_set words.now (set_find exact words.now) host.old) }
{
    let set = set_at(host, words, 2)?;
    let place = kept(host.sets.find(set, word_at(words, 3)))?;
    Ok(write_int(host.alloc, place)?)
}

/// `ifind ID KEY`.
fn set_ifind(host: &mut Conn, words: &Words) -> Result<Text, Fault>
    requires { length words.now ≡ 4 }
    ensures { EndsWith result host.new
        (on_set words.now (set_find ignoring_case words.now) host.old) }
{
    let set = set_at(host, words, 2)?;
    let place = kept(host.sets.ifind(set, word_at(words, 3)))?;
    Ok(write_int(host.alloc, place)?)
}

/// `delkey ID KEY`.
fn set_delkey(host: &mut Conn, words: &Words) -> Result<Text, Fault>
    requires { length words.now ≡ 4 }
    ensures { EndsWith result host.new (on_set words.now (set_delkey exact words.now) host.old) }
{
    let set = set_at(host, words, 2)?;
    kept(host.sets.delkey(set, word_at(words, 3)))?;
    Ok(Text::empty(host.alloc))
}

/// `idelkey ID KEY`.
fn set_idelkey(host: &mut Conn, words: &Words) -> Result<Text, Fault>
    requires { length words.now ≡ 4 }
    ensures { EndsWith result host.new
        (on_set words.now (set_delkey ignoring_case words.now) host.old) }
{
    let set = set_at(host, words, 2)?;
    kept(host.sets.idelkey(set, word_at(words, 3)))?;
    Ok(Text::empty(host.alloc))
}

/// `truncate ID N`.
fn set_truncate(host: &mut Conn, words: &Words) -> Result<Text, Fault>
    requires { length words.now ≡ 4 }
    ensures { EndsWith result host.new (on_set words.now (set_truncate words.now) host.old) }
{
    let set = set_at(host, words, 2)?;
    let most = count(host.alloc, words, 3)?;
    kept(host.sets.truncate(set, most))?;
    Ok(Text::empty(host.alloc))
}

/// `merge HIGH LOW`.
fn set_merge(host: &mut Conn, words: &Words) -> Result<Text, Fault>
    requires { length words.now ≡ 4 }
    ensures { EndsWith result host.new (on_set words.now (set_merge words.now) host.old) }
{
    let set = set_at(host, words, 2)?;
    let low = set_at(host, words, 3)?;
    kept(host.sets.merge(set, low))?;
    Ok(Text::empty(host.alloc))
}

/// `copy ID`.
fn set_copy(host: &mut Conn, words: &Words) -> Result<Text, Fault>
    ensures { EndsWith result host.new (on_set words.now set_copy host.old) }
{
    let set = set_at(host, words, 2)?;
    let copy = kept(host.sets.copy(set))?;
    host.note_set(copy);
    Ok(set_id(host.alloc, copy)?)
}

/// `free ID`.
fn set_free(host: &mut Conn, words: &Words) -> Result<Text, Fault>
    ensures { EndsWith result host.new (on_set words.now set_free host.old) }
{
    let set = set_at(host, words, 2)?;
    kept(host.sets.free(set))?;
    Ok(Text::empty(host.alloc))
}

/// `size ID`.
fn set_size(host: &mut Conn, words: &Words) -> Result<Text, Fault>
    ensures { EndsWith result host.new (on_set words.now set_size host.old) }
{
    let set = set_at(host, words, 2)?;
    let size = kept(host.sets.size(set))?;
    Ok(write_natural(host.alloc, size)?)
}

/// `name ID`.
fn set_name(host: &mut Conn, words: &Words) -> Result<Text, Fault>
    ensures { EndsWith result host.new (on_set words.now set_name host.old) }
{
    let set = set_at(host, words, 2)?;
    Ok(kept(host.sets.name(set))?)
}

/// Does a subcommand that has its number of words.
fn do_set(host: &mut Conn, verb: SetVerb, words: &Words) -> Result<Text, Fault>
    requires { set_takes verb (length words.now) ≡ true }
    ensures { EndsWith result host.new (does_set verb words.now host.old) }
{
    match verb {
        SetVerb::Create => set_create(host, words),
        SetVerb::Put => set_put(host, words),
        SetVerb::Get => set_get(host, words),
        SetVerb::Iget => set_iget(host, words),
        SetVerb::Find => set_find(host, words),
        SetVerb::Ifind => set_ifind(host, words),
        SetVerb::Cput => set_cput(host, words),
        SetVerb::Icput => set_icput(host, words),
        SetVerb::Update => set_update(host, words),
        SetVerb::Delete => set_delete(host, words),
        SetVerb::Delkey => set_delkey(host, words),
        SetVerb::Idelkey => set_idelkey(host, words),
        SetVerb::Truncate => set_truncate(host, words),
        SetVerb::Merge => set_merge(host, words),
        SetVerb::Copy => set_copy(host, words),
        SetVerb::Free => set_free(host, words),
        SetVerb::Size => set_size(host, words),
        SetVerb::Name => set_name(host, words),
        SetVerb::Key => set_key(host, words),
        SetVerb::Value => set_value(host, words),
    }
}

/// `ns_set SUBCOMMAND ..`.
pub fn ns_set(host: &mut Conn, words: &Words) -> Result<Text, Fault>
    ensures { EndsWith result host.new (ns_set words.now host.old) }
{
    require_count(host.alloc, 2, 5, words)?;
    let Some(verb) = find_set_verb(words.bytes_at(1)) else {
        return Err(unknown_subcommand(host.alloc, words));
    };
    require_words(host.alloc, verb.takes(words.len()), words)?;
    do_set(host, verb, words)
}
