//! Commands that ask for a page: what they ask, and what they are told.

ghost use Rattle.std.specs.Prelude.{◌≡◌, Ok, IfOk, IfErr};
ghost use Rattle.tcl_host.specs.Outcomes.{Stops};
ghost use Rattle.tcl_host.specs.Pages.{page_question, page_told};

use natives::Fault;
use outside::{Answer, Question, Service};
use std::alloc::Global;
use txt_core::{NoMemory, Text, Words, error_text, is_too_long};

/// The question for the page of a path. The only error is want of memory.
pub fn page_question(alloc: Global, path: Text) -> Result<Question, NoMemory>
    ensures { IfOk result (λ question. question ≡ page_question path) }
{
    let mut words = Words::new(alloc);
    words.add(path)?;
    Ok(Question {
        service: Service::Page,
        words,
    })
}

/// The page that a command is told for the path that it asked for.
///
/// # Errors
///
/// `Error` exactly where it is told of no page, with the text of that: the page isn't there, can't be
/// read or is over the limit, or something else was answered. `NoMemory` for want of memory alone.
pub fn page_told<'a>(alloc: Global, path: &[u8], answer: &'a Answer) -> Result<&'a Text, Fault>
    ensures ok { IfOk result (λ page. page_told path.now answer.now ≡ Ok page.now) }
    ensures err { IfErr result (λ refusal. Stops refusal (page_told path.now answer.now)) }
{
    match answer {
        Answer::Page(page) => {
            if is_too_long(page) {
                return Err(Fault::saying(error_text::page_too_long(alloc, path)));
            }
            Ok(page)
        }
        Answer::NoPage => Err(Fault::saying(error_text::no_page(alloc, path))),
        Answer::PageFault => Err(Fault::saying(error_text::page_fault(alloc, path))),
        Answer::Failed(why) => Err(Fault::saying(why.copy(alloc))),
        Answer::Said(_) => Err(Fault::Error(Text::empty(alloc))),
    }
}
