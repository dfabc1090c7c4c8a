//! Where pages come from.

ghost use Rattle.std.specs.Prelude.{ℕ, ◌≡◌, ◌≤◌, Option, IfOk};
ghost use Rattle.outside.specs.Paging.{PageMap, Asks};

use txt_core::{NoMemory, Text};

/// The answer to a question for a page.
#[derive(Debug, Drop)]
pub enum PageAnswer {
    /// The page.
    Page(Text),
    /// There is no page at the path.
    NoPage,
    /// The page couldn't be read. The count of faults rose.
    Failed,
    /// Memory ran out.
    NoMemory,
}

/// Pages by their paths.
pub trait Pages: Sized {
    /// The pages, where it tells them.
    ghost held: { Self → Option PageMap };

    /// How many faults it has met; the count stands still where counters stop.
    ghost faults: { Self → ℕ };

    /// Takes pages from this folder from now on. Those that it tells stay as they are. The only error
    /// is want of memory.
    fn root(&mut self, folder: &Text) -> Result<(), NoMemory>
        ensures held { held self.new ≡ held self.old }
        ensures faults { faults self.old ≤ faults self.new };

    /// The page at a path. `Failed` comes only where the count of faults rose in this call.
    fn page(&mut self, path: &Text) -> PageAnswer
        ensures { Asks (held self.old) (faults self.old) path.now result (held self.new)
            (faults self.new) };

    /// The same pages once more, for another thread. The only error is want of memory.
    fn copy(&self) -> Result<Self, NoMemory>
        ensures { IfOk result (λ copy. held copy ≡ held self.now) };
}
