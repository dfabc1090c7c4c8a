//! Pages in memory.

ghost use Rattle.std.specs.Prelude.{◌≡◌, IfOk, OnOk, OnErr};
ghost use Rattle.std.specs.FinMap as map;
ghost use Rattle.outside.specs.Paging.{PageMap};

use crate::calls::CallPlan;
use crate::page_shelf::PageShelf;
use crate::pages::{PageAnswer, Pages};
use std::alloc::Global;
use std::marker::Model;
use txt_core::{NoMemory, Text};

/// Pages that are set one by one, of which the calls fail that were listed.
///
/// It tells its pages. The calls that are counted are those of `page`: they have numbers from 0, in
/// the order in which they are made; from 2^64 - 1 on they all have that number.
#[derive(Debug, Drop)]
pub struct MemPages {
    alloc: Global,
    pages: PageShelf,
    calls: CallPlan,
}

impl Model for MemPages {
    ghost use Rattle.outside.specs.Shelves.{Shelf, shelf_code};

    ghost Value = { Shelf };

    ghost coded = { shelf_code };

    ghost view = { λ a. record { pages = a.pages; calls = a.calls } };
}

impl MemPages {
    /// No page yet. The calls of `page` whose numbers are listed are to fail.
    pub fn new(alloc: Global, fails: Vec<u64>) -> MemPages
        ensures { result
            ≡ record
            { pages = map.empty; calls = record { fails = fails.items; made = 0; faults = 0 } } }
    {
        MemPages {
            alloc,
            pages: PageShelf::new(alloc),
            calls: CallPlan::new(fails),
        }
    }

    /// Sets the page at a path, in place of the one that was there. The only error is want of memory,
    /// and the pages are then as they were.
    pub fn set(&mut self, path: Text, page: Text) -> Result<(), NoMemory>
        ensures ok { OnOk result
            (self.new
            ≡ record { pages = map.insert self.old.pages path page; calls = self.old.calls }) }
        ensures err { OnErr result (self.new ≡ self.old) }
    {
        self.pages.set(path, page)?;
        Ok(())
    }
}

impl Pages for MemPages {
    ghost use Rattle.std.specs.Prelude.{Some};
    ghost use Rattle.outside.specs.Paging.{Asks};
    ghost use Rattle.outside.specs.Shelves.{Hands};

    ghost held = { λ s. Some s.pages };

    ghost faults = { λ s. s.calls.faults };

    fn root(&mut self, _folder: &Text) -> Result<(), NoMemory>
        ensures { self.new ≡ self.old }
    {
        Ok(())
    }

    fn page(&mut self, path: &Text) -> PageAnswer
        ensures hands { Hands self.old path.now result self.new }
        ensures asks { Asks (Some self.old.pages) self.old.calls.faults path.now result
            (Some self.new.pages) self.new.calls.faults }
    {
        if self.calls.begin() {
            self.calls.fault();
            return PageAnswer::Failed;
        }
        let alloc = self.alloc;
        match self.pages.get(path) {
            None => PageAnswer::NoPage,
            Some(page) => match page.copy(alloc) {
                Ok(page) => PageAnswer::Page(page),
                Err(_) => PageAnswer::NoMemory,
            },
        }
    }

    /// The copy fails at the same calls, of which it counts its own.
    fn copy(&self) -> Result<MemPages, NoMemory>
        ensures { IfOk result (λ copy.
            copy
            ≡ record {
              pages = self.now.pages;
              calls = record { fails = self.now.calls.fails; made = 0; faults = 0 };
            }) }
    {
        let pages = self.pages.copy(self.alloc)?;
        let calls = self.calls.renewed(self.alloc)?;
        Ok(MemPages {
            alloc: self.alloc,
            pages,
            calls,
        })
    }
}
