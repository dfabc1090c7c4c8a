//! What a step reads and doesn't change.

ghost use Rattle.std.specs.Prelude.{◌≡◌, IfOk};
ghost use Rattle.std.specs.FinMap as map;
ghost use Rattle.serving.specs.Calls.{path_asked, page_found};

use outside::{Answer, PageShelf};
use std::alloc::Global;
use txt_core::{NoMemory, Text, Words};

/// The answer to a question for the page of a path.
fn answer_of(alloc: Global, pages: &PageShelf, path: &Text) -> Result<Answer, NoMemory>
    ensures { IfOk result (λ answer. answer ≡ page_found (map.get pages.now path.now)) }
{
    match pages.get(path) {
        Some(page) => Ok(Answer::Page(page.copy(alloc)?)),
        None => Ok(Answer::NoPage),
    }
}

/// Answers a question for a page: a copy of it, or that there is none.
pub fn page_answer(alloc: Global, pages: &PageShelf, words: &Words) -> Result<Answer, NoMemory>
    ensures { IfOk result (λ answer.
        answer ≡ page_found (map.get pages.now (path_asked words.now))) }
{
    match words.get(0) {
        Some(path) => answer_of(alloc, pages, path),
        None => answer_of(alloc, pages, &Text::empty(alloc)),
    }
}

/// What the clock shows, in seconds since 1970, and the pages.
#[derive(Drop)]
pub struct Setting {
    pub moment: u64,
    pub pages: PageShelf,
}
