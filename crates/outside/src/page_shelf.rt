//! Pages by their paths.

ghost use Rattle.std.specs.Prelude.{◌≡◌, IfOk, OnOk, OnErr};
ghost use Rattle.std.specs.FinMap as map;
ghost use Rattle.std.specs.Option.{option_copied};
ghost use Rattle.outside.specs.Paging.{pages_seen};

use std::alloc::Global;
use std::collections::BTreeMap;
use std::marker::Model;
use txt_core::{NoMemory, Text};

/// Pages by their paths. Contracts see the map.
#[derive(Debug, Drop)]
pub struct PageShelf {
    pages: BTreeMap<Text, Text>,
}

impl Model for PageShelf {
    ghost use Rattle.std.specs.FinMap as map;
    ghost use Rattle.std.specs.Coded.{coded_list, coded_ℕ};
    ghost use Rattle.outside.specs.Paging.{PageMap, pages_seen};

    ghost Value = { PageMap };

    ghost coded = { map.code (coded_list coded_ℕ) (coded_list coded_ℕ) };

    ghost view = { λ a. pages_seen a.pages };
}

impl PageShelf {
    /// No page.
    pub fn new(alloc: Global) -> PageShelf
        ensures { result ≡ map.empty }
    {
        PageShelf {
            pages: BTreeMap::new(alloc),
        }
    }

    /// Sets the page of a path, in place of the one that was there. The only error is want of memory, and
    /// the pages are then as they were.
    pub fn set(&mut self, path: Text, page: Text) -> Result<(), NoMemory>
        ensures ok { OnOk result (self.new ≡ map.insert self.old path page) }
        ensures err { OnErr result (self.new ≡ self.old) }
    {
        self.pages.insert(path, page)?;
        Ok(())
    }

    /// The page of a path; `None` exactly where there is none.
    pub fn get(&self, path: &Text) -> Option<&Text>
        ensures { option_copied result ≡ map.get self.now path.now }
    {
        self.pages.get(path)
    }

    /// The same pages by the same paths. The only error is want of memory.
    pub fn copy(&self, alloc: Global) -> Result<PageShelf, NoMemory>
        ensures { IfOk result (λ copy. copy ≡ self.now) }
    {
        Ok(PageShelf {
            pages: copied(alloc, &self.pages)?,
        })
    }
}

/// A map of the same pages by the same paths. The only error is want of memory.
fn copied(alloc: Global, pages: &BTreeMap<Text, Text>) -> Result<BTreeMap<Text, Text>, NoMemory>
    ensures { IfOk result (λ copy. pages_seen copy ≡ pages_seen pages.now) }
{
    let mut copy = BTreeMap::new(alloc);
    for (path, page) in pages {
        let path = path.copy(alloc)?;
        let page = page.copy(alloc)?;
        copy.insert(path, page)?;
    }
    Ok(copy)
}
