//! Pages in pages.

ghost use Rattle.std.specs.Prelude.{◌≡◌, IfOk};
ghost use Rattle.tcl_host.specs.Answers.{RepliesTo};
ghost use Rattle.tcl_host.specs.Outcomes.{Comes, ComesTo};
ghost use Rattle.adp_host.specs.Includes.{ns_adp_include, enters_page, page_answered};

use crate::checks::{behind_name, require_page};
use crate::host::AdpHost;
use adp_parse::pieces;
use natives::Fault;
use outside::Answer;
use tcl_host::{
    HostReply, is_page_path, page_path, page_question, page_told, require_fit, require_words,
};
use txt_core::{NoMemory, Text, Words};

/// `ns_adp_include FILE WORD..` asks for the page.
pub fn ns_adp_include(host: &mut AdpHost, words: &Words) -> Result<HostReply, Fault>
    ensures { Comes result host.new (ns_adp_include words.now host.old) }
{
    let alloc = host.alloc;
    let written = words.bytes_at(1);
    require_words(alloc, words.len() >= 2, words)?;
    require_page(host)?;
    require_fit(alloc, is_page_path(written), words, 1)?;
    let path = page_path(alloc, written)?;
    Ok(HostReply::Ask(page_question(alloc, path)?))
}

/// Enters a page, with the words behind the command's name as its arguments.
fn enter(host: &mut AdpHost, words: &Words, page: &Text) -> Result<HostReply, NoMemory>
    ensures { IfOk result (λ reply.
        RepliesTo reply host.new (enters_page words.now page.now host.old)) }
{
    let alloc = host.alloc;
    let args = behind_name(words);
    let entered = pieces(alloc, page, Words::of_copies(alloc, args)?)?;
    host.pages.add(Words::of_copies(alloc, args)?)?;
    Ok(HostReply::Enter(entered))
}

/// Goes on with an `ns_adp_include` whose page was asked for.
pub fn page_answered(host: &mut AdpHost, words: &Words, answer: &Answer) -> Result<HostReply, Fault>
    ensures { ComesTo result host.new (page_answered words.now answer.now host.old) }
{
    let alloc = host.alloc;
    let path = page_path(alloc, words.bytes_at(1))?;
    let page = page_told(alloc, path.bytes(), answer)?;
    Ok(enter(host, words, page)?)
}
