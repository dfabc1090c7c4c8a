//! What the peers of a net in memory were sent.

use std::alloc::Global;
use std::sync::{Arc, Mutex, Wait};
use txt_core::{NoMemory, Text};

/// One text for each connection that a net in memory has given, in the order in which it gave them:
/// what the connection was sent so far.
///
/// Its handles share the texts, so another thread reads them while connections are served.
#[derive(Drop)]
pub struct Replies {
    alloc: Global,
    texts: Arc<Mutex<Vec<Text>>, Global>,
}

impl Replies {
    /// No connection was given yet. The only error is want of memory.
    pub fn new(alloc: Global) -> Result<Replies, NoMemory> {
        let texts = Arc::new(alloc, Mutex::new(Vec::new(alloc)))?;
        Ok(Replies { alloc, texts })
    }

    /// Another handle of the same texts. The only error is want of memory.
    pub fn copy(&self) -> Result<Replies, NoMemory> {
        let texts = Arc::try_clone(&self.texts)?;
        Ok(Replies {
            alloc: self.alloc,
            texts,
        })
    }

    /// A copy of what the connection of this number was sent so far; `None` where no connection of the
    /// number was given. The only error is want of memory. It waits while another thread has the
    /// texts.
    pub fn taken<R: Wait>(&self, rt: &R, connection: u64) -> Result<Option<Text>, NoMemory> {
        let Ok(at) = usize::try_from(connection) else {
            return Ok(None);
        };
        let guard = self.texts.lock(rt);
        let texts = &*guard;
        match texts.get(at) {
            Some(text) => Ok(Some(text.copy(self.alloc)?)),
            None => Ok(None),
        }
    }

    /// Adds a text, for the next connection, and gives its number. Its only error is want of memory.
    pub(crate) fn open<R: Wait>(&self, rt: &R) -> Result<usize, NoMemory> {
        let mut guard = self.texts.lock(rt);
        let texts = &mut *guard;
        let at = texts.len();
        texts.push(Text::empty(self.alloc))?;
        Ok(at)
    }

    /// Puts bytes at the end of the text of this number. Its only error is want of memory; it takes
    /// nothing where there is no such text.
    pub(crate) fn append<R: Wait>(&self, rt: &R, at: usize, bytes: &[u8]) -> Result<(), NoMemory> {
        let mut guard = self.texts.lock(rt);
        let texts = &mut *guard;
        match texts.get_mut(at) {
            Some(text) => text.append(bytes),
            None => Ok(()),
        }
    }
}
