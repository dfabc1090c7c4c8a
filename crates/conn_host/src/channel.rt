//! The commands on channels.

ghost use Rattle.std.specs.Prelude.{◌≡◌, ◌≢◌, [], None, Err, Ok, IfOk, IfErr, OnOk};
ghost use Rattle.chan_core.specs.Chans.{channel, left_in, with_left};
ghost use Rattle.tcl_host.specs.Outcomes.{Comes, EndsWith};
ghost use Rattle.conn_host.specs.ChannelCommands.{open_page, opens, line_length, page_answered, gets, read, eof, close};

use crate::checks::{count, require_count};
use crate::conn::Conn;
use crate::error::too_many_channels;
use crate::id::{channel_at, channel_id};
use chan_core::{ChanFault, Chans};
use natives::{Fault, word_at};
use outside::Answer;
use tcl_host::{HostReply, done, is_page_path, page_question, page_told, require_fit};
use txt_core::{NoMemory, Text, Words, truth_text, write_int};

/// The length of the line where there is none.
const NO_LINE: i64 = -1;

/// What a call on a channel that is open came to: its only fault is want of memory.
fn kept<T>(came: Result<T, ChanFault>) -> Result<T, NoMemory>
    requires channel { came ≢ Err ChanFault.NoChannel }
    requires room { came ≢ Err ChanFault.Full }
    ensures ok { IfOk result (λ value. came ≡ Ok value) }
    ensures err { IfErr result (λ _. came ≡ Err ChanFault.NoMemory) }
{
    match came {
        Ok(value) => Ok(value),
        Err(_) => Err(NoMemory),
    }
}

/// `open PATH` asks for the page.
pub fn open(host: &mut Conn, words: &Words) -> Result<HostReply, Fault>
    ensures { Comes result host.new (open_page words.now host.old) }
{
    let alloc = host.alloc;
    require_count(alloc, 2, 2, words)?;
    require_fit(alloc, is_page_path(words.bytes_at(1)), words, 1)?;
    let path = word_at(words, 1).copy(alloc)?;
    Ok(HostReply::Ask(page_question(alloc, path)?))
}

/// Opens a channel on a page, where one more may be.
fn opens(host: &mut Conn, page: &Text) -> Result<Text, Fault>
    ensures { EndsWith result host.new (opens page.now host.old) }
{
    let alloc = host.alloc;
    match host.channels.open(page.copy(alloc)?) {
        Ok(number) => Ok(channel_id(alloc, number)?),
        Err(ChanFault::Full) => Err(Fault::saying(too_many_channels(alloc))),
        Err(_) => Err(Fault::NoMemory),
    }
}

/// Goes on with an `open` whose page was asked for.
pub fn page_answered(host: &mut Conn, words: &Words, answer: &Answer) -> Result<Text, Fault>
    ensures { EndsWith result host.new (page_answered words.now answer.now host.old) }
{
    let page = page_told(host.alloc, words.bytes_at(1), answer)?;
    opens(host, page)
}

/// How many bytes a line has; -1 where there is none.
fn line_length(line: &Option<Text>) -> i64
    ensures { result ≡ line_length line.now }
{
    match line {
        Some(line) => line.bytes().len() as i64,
        None => NO_LINE,
    }
}

/// `gets ID ?NAME?` takes a line.
pub fn gets(host: &mut Conn, words: &Words) -> Result<HostReply, Fault>
    ensures { Comes result host.new (gets words.now host.old) }
{
    let alloc = host.alloc;
    require_count(alloc, 2, 3, words)?;
    let channel = channel_at(host, words, 1)?;
    let line = kept(host.channels.gets(channel))?;
    let length = line_length(&line);
    let line = line.unwrap_or(Text::empty(alloc));
    if words.len() == 2 {
        return Ok(done(line));
    }
    Ok(HostReply::Store {
        name: word_at(words, 2).copy(alloc)?,
        value: line,
        result: write_int(alloc, length)?,
    })
}

/// Takes all bytes that are left of a channel that is open.
fn read_all(channels: &mut Chans, number: u64) -> Result<Text, NoMemory>
    requires { channel channels.old number ≢ None }
    ensures bytes { IfOk result (λ bytes. bytes ≡ left_in channels.old number) }
    ensures left { OnOk result (channels.new ≡ with_left channels.old number []) }
{
    let bytes = kept(channels.read(number, u64::MAX))?;
    prove!(bytes.bytes().len() < usize::MAX);
    Ok(bytes)
}

/// `read ID ?N?` takes the bytes that are left, at most so many.
pub fn read(host: &mut Conn, words: &Words) -> Result<Text, Fault>
    ensures { EndsWith result host.new (read words.now host.old) }
{
    let alloc = host.alloc;
    require_count(alloc, 2, 3, words)?;
    let channel = channel_at(host, words, 1)?;
    if words.len() == 2 {
        return Ok(read_all(&mut host.channels, channel)?);
    }
    let most = count(alloc, words, 2)?;
    Ok(kept(host.channels.read(channel, most))?)
}

/// `eof ID` tells whether no byte is left.
pub fn eof(host: &mut Conn, words: &Words) -> Result<Text, Fault>
    ensures { EndsWith result host.new (eof words.now host.old) }
{
    let alloc = host.alloc;
    require_count(alloc, 2, 2, words)?;
    let channel = channel_at(host, words, 1)?;
    let at_end = kept(host.channels.eof(channel))?;
    Ok(truth_text(alloc, at_end)?)
}

/// `close ID` closes the channel.
pub fn close(host: &mut Conn, words: &Words) -> Result<Text, Fault>
    ensures { EndsWith result host.new (close words.now host.old) }
{
    let alloc = host.alloc;
    require_count(alloc, 2, 2, words)?;
    let channel = channel_at(host, words, 1)?;
    kept(host.channels.close(channel))?;
    Ok(Text::empty(alloc))
}
