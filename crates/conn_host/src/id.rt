//! The ids of sets and channels: a letter and a number.

ghost use Rattle.std.specs.Prelude.{◌≡◌, ◌≢◌, None, IfOk};
ghost use Rattle.txt_core.specs.Number.{number};
ghost use Rattle.ns_sets.specs.Sets.{set_of};
ghost use Rattle.chan_core.specs.Chans.{channel};
ghost use Rattle.conn_host.specs.Answers.{Finds};
ghost use Rattle.conn_host.specs.Ids.{id_of, set_id, channel_id, written_so, number_of, set_at, channel_at};

use crate::conn::Conn;
use crate::error::{no_channel, no_set};
use natives::Fault;
use std::alloc::Global;
use txt_core::{NoMemory, Text, Words, read_int_bytes, write_int, write_natural};

const SET: u8 = b's';

const CHANNEL: u8 = b'c';

/// The id with this letter and this number.
fn id(alloc: Global, letter: u8, number: u64) -> Result<Text, NoMemory>
    ensures { IfOk result (λ id. id ≡ id_of letter number) }
{
    let mut id = Text::new(alloc, &[letter])?;
    id.append(write_natural(alloc, number)?.bytes())?;
    Ok(id)
}

/// The id of a set.
pub fn set_id(alloc: Global, number: u64) -> Result<Text, NoMemory>
    ensures { IfOk result (λ id. id ≡ set_id number) }
{
    id(alloc, SET, number)
}

/// The id of a channel.
pub fn channel_id(alloc: Global, number: u64) -> Result<Text, NoMemory>
    ensures { IfOk result (λ id. id ≡ channel_id number) }
{
    id(alloc, CHANNEL, number)
}

/// The number that these bytes write in decimal digits without extra zeros, if they write one.
fn plain_number(alloc: Global, digits: &[u8]) -> Result<Option<u64>, NoMemory>
    ensures { IfOk result (λ read. read ≡ written_so (number digits.now) digits.now) }
{
    let Some(number) = read_int_bytes(digits) else {
        return Ok(None);
    };
    if number < 0 || write_int(alloc, number)?.bytes() != digits {
        return Ok(None);
    }
    Ok(Some(number as u64))
}

/// The number in an id with this letter; `None` where the word is no such id.
fn number_of(alloc: Global, letter: u8, word: &[u8]) -> Result<Option<u64>, NoMemory>
    ensures { IfOk result (λ read. read ≡ number_of letter word.now) }
{
    match word.split_first() {
        Some((first, digits)) if *first == letter => plain_number(alloc, digits),
        _ => Ok(None),
    }
}

/// The number of the set whose id the word at a place is.
pub fn set_at(host: &Conn, words: &Words, place: usize) -> Result<u64, Fault>
    ensures finds { Finds result (set_at words.now place host.now) }
    ensures stands { IfOk result (λ number. set_of host.now.sets number ≢ None) }
{
    let id = words.bytes_at(place);
    if let Some(number) = number_of(host.alloc, SET, id)? {
        if host.sets.size(number).is_ok() {
            return Ok(number);
        }
    }
    Err(Fault::saying(no_set(host.alloc, id)))
}

/// The number of the channel whose id the word at a place is.
pub fn channel_at(host: &Conn, words: &Words, place: usize) -> Result<u64, Fault>
    ensures finds { Finds result (channel_at words.now place host.now) }
    ensures open { IfOk result (λ number. channel host.now.channels number ≢ None) }
{
    let id = words.bytes_at(place);
    if let Some(number) = number_of(host.alloc, CHANNEL, id)? {
        if host.channels.eof(number).is_ok() {
            return Ok(number);
        }
    }
    Err(Fault::saying(no_channel(host.alloc, id)))
}
