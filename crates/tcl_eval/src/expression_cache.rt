//! Expressions that were evaluated lately.

ghost use Rattle.std.specs.Prelude.{◌≡◌, IfOk, IfSome, IsTrue};
ghost use Rattle.tcl_eval.specs.Short.{IsShort};

use crate::read_expr::ReadExpr;
use lru::LruCache;
use natives::Places;
use std::alloc::Global;
use std::marker::Model;
use std::num::NonZeroUsize;
use std::rc::Rc;
use txt_core::{NoMemory, Text, same_bytes};

/// How many scripts an engine keeps by their texts, and how many expressions, beside the latest of each.
pub(crate) const MOST_KEPT: usize = 512;

/// How many bytes a text has at most whose script or expression is kept. A longer one is read each time.
pub(crate) const MOST_KEPT_BYTES: usize = 4_096;

/// Whether a text is short enough for what is read of it to be kept.
pub(crate) fn is_short(text: &Text) -> bool
    ensures { IsTrue result → IsShort text.now }
{
    text.len() <= MOST_KEPT_BYTES
}

/// Texts that were evaluated lately, each with what it is as an expression. Contracts see nothing of
/// which texts these are: what is kept of a text is true by itself.
///
/// The latest of them stand at places, where a text is found at once. The others are found by a hash
/// whose seed is fixed.
#[derive(Drop)]
pub struct Expressions {
    kept: Option<LruCache<Vec<u8>, Rc<ReadExpr>>>,
    latest: Places<Rc<ReadExpr>>,
}

impl Model for Expressions {
    ghost use Rattle.std.specs.Prelude.{⊤};

    ghost Value = { ⊤ };

    ghost view = { λ _. tt };
}

impl Expressions {
    /// None yet. It takes no memory.
    pub fn new(alloc: Global) -> Expressions {
        Expressions {
            kept: None,
            latest: Places::new(alloc),
        }
    }

    /// A text with what it is as an expression, which is read where it isn't kept. The only error is want
    /// of memory.
    pub fn read(&mut self, alloc: Global, text: &Text) -> Result<Rc<ReadExpr>, NoMemory>
        ensures { IfOk result (λ read. read.value ≡ text.now) }
    {
        let found = self.find_latest(text)?;
        if let Some(read) = found {
            return Ok(read);
        }
        let read = self.read_kept(alloc, text)?;
        if is_short(text) {
            let again = read.clone()?;
            self.note(text, again)?;
        }
        Ok(read)
    }

    /// Lets all go. It takes no memory.
    pub fn clear(&mut self) {
        self.kept = None;
        self.latest.clear();
    }

    /// What stands at the place of a text, where it is of this text.
    #[inline(always)]
    fn find_latest(&self, text: &Text) -> Result<Option<Rc<ReadExpr>>, NoMemory>
        ensures { IfOk result (λ found. IfSome found (λ read. read.value ≡ text.now)) }
    {
        match self.latest.find(text.bytes()) {
            None => Ok(None),
            Some(read) => shared_for(read, text),
        }
    }

    /// A text with what it is as an expression, by the hash, or else read and kept.
    fn read_kept(&mut self, alloc: Global, text: &Text) -> Result<Rc<ReadExpr>, NoMemory>
        ensures { IfOk result (λ read. read.value ≡ text.now) }
    {
        let found = self.find(text)?;
        if let Some(read) = found {
            return Ok(read);
        }
        let read = ReadExpr::new(alloc, text.copy(alloc)?)?;
        let read = Rc::new(alloc, read)?;
        if is_short(text) {
            let kept = read.clone()?;
            self.keep(alloc, text, kept)?;
        }
        Ok(read)
    }

    /// What is kept of a text, if anything.
    fn find(&mut self, text: &Text) -> Result<Option<Rc<ReadExpr>>, NoMemory>
        ensures { IfOk result (λ found. IfSome found (λ read. read.value ≡ text.now)) }
    {
        let Some(kept) = &mut self.kept else {
            return Ok(None);
        };
        match kept.get(text.bytes()) {
            None => Ok(None),
            Some(read) => {
                let found = shared_for(read, text)?;
                Ok(found)
            }
        }
    }

    /// Puts what a short text is at its place.
    fn note(&mut self, text: &Text, read: Rc<ReadExpr>) -> Result<(), NoMemory>
        requires { IsShort text.now }
    {
        self.latest.put(text.bytes(), read)?;
        Ok(())
    }

    /// Keeps what a short text is.
    fn keep(&mut self, alloc: Global, text: &Text, read: Rc<ReadExpr>) -> Result<(), NoMemory>
        requires { IsShort text.now }
    {
        self.begin(alloc)?;
        if let Some(kept) = &mut self.kept {
            kept.put(Vec::from_slice(alloc, text.bytes())?, read)?;
        }
        Ok(())
    }

    /// Makes room, where none was made.
    fn begin(&mut self, alloc: Global) -> Result<(), NoMemory> {
        if self.kept.is_none() {
            let Some(most) = NonZeroUsize::new(MOST_KEPT) else {
                return Ok(());
            };
            self.kept = Some(LruCache::sparse(alloc, most)?);
        }
        Ok(())
    }
}

/// What is kept, where it is that of this text.
#[inline(always)]
fn shared_for(read: &Rc<ReadExpr>, text: &Text) -> Result<Option<Rc<ReadExpr>>, NoMemory>
    ensures { IfOk result (λ found. IfSome found (λ read. read.value ≡ text.now)) }
{
    if !same_bytes(read.text().bytes(), text.bytes()) {
        return Ok(None);
    }
    let again = read.clone()?;
    Ok(Some(again))
}
