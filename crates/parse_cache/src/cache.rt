//! A cache of scripts by their texts.

ghost use Rattle.std.specs.Prelude.{◌≡◌, ◌≤◌, [], IfOk, OnOk, OnErr, MatchOption, true, false};
ghost use Rattle.tcl_parse.specs.Answers.{Answers};
ghost use Rattle.tcl_parse.specs.Outcome.{done};
ghost use Rattle.tcl_parse.specs.Reading.{reading};
ghost use Rattle.tcl_parse.specs.View.{script_of};
ghost use Rattle.parse_cache.specs.Caches.{most_scripts, empty, is_key, hit, added, used};
ghost use Rattle.parse_cache.specs.Readings.{as_parsed, IsReading, after};

use crate::read_script::ReadScript;
use crate::reading::Reading;
use lru::LruCache;
use std::alloc::Global;
use std::marker::Model;
use std::num::NonZeroUsize;
use std::rc::Rc;
use tcl_parse::{ParseFault, Script};
use txt_core::{NoMemory, Text};

/// How many scripts a cache may keep at most.
pub const MOST_SCRIPTS: usize = 4_096;

/// Scripts that were read, each by its whole text: at most so many as its capacity, and those that
/// were used most recently. Contracts see its capacity, its keys with the most recently used first,
/// and its number of hits.
///
/// Keys are found by a hash whose seed is fixed: keys that were picked for it make a look-up compare
/// lengths and bytes of all keys, and no more than that.
#[derive(Drop)]
pub struct Cache {
    alloc: Global,
    scripts: LruCache<Vec<u8>, Rc<Script>>,
    hits: u64,
}

impl Model for Cache {
    ghost use Rattle.parse_cache.specs.Caches.{Cache as Seen};
    ghost use Rattle.parse_cache.specs.Entries.{texts, AreRead};

    ghost Value = { Seen };

    ghost view = { λ a. record { capacity = a.scripts.cap; keys = texts a.scripts.entries; hits = a.hits } };

    ghost invariant = { λ a. AreRead (λ script. script.value) a.scripts.entries };
}

impl Cache {
    /// An empty cache of this capacity, from 1 to [`MOST_SCRIPTS`]. Its only error is want of memory.
    pub fn new(alloc: Global, capacity: usize) -> Result<Cache, NoMemory>
        requires least { 1 ≤ capacity }
        requires most { capacity ≤ most_scripts }
        ensures { IfOk result (λ cache. cache ≡ empty capacity) }
    {
        let Some(capacity) = NonZeroUsize::new(capacity) else {
            unreachable!()
        };
        let scripts = LruCache::sparse(alloc, capacity)?;
        Ok(Cache {
            alloc,
            scripts,
            hits: 0,
        })
    }

    /// How often the text that was asked for was a key. At 2^64 - 1 it stands still. It takes no
    /// memory.
    pub fn hits(&self) -> u64
        ensures { result ≡ self.now.hits }
    {
        self.hits
    }

    /// The script of a text, shared where the text is a key, and else read and kept.
    ///
    /// # Errors
    ///
    /// `ParseFault::Unclosed` exactly where the text spells no script, with the place and the kind of
    /// the first fault that is reached; `ParseFault::NoMemory` where memory ran out. In both cases the
    /// cache is as it was.
    pub fn parse(&mut self, text: &Text) -> Result<Rc<Script>, ParseFault>
        ensures answers { Answers text.now (as_parsed (λ script. script.value) result) }
        ensures used { OnOk result (self.new ≡ used text.now self.old) }
        ensures kept { OnErr result (self.new ≡ self.old) }
    {
        match self.read(text) {
            Ok(Reading::Script(script)) => Ok(script),
            Ok(Reading::Fault { at, kind }) => Err(ParseFault::Unclosed { at, kind }),
            Err(NoMemory) => Err(ParseFault::NoMemory),
        }
    }

    /// What a text is as a script. A script is shared where the text is a key, and else read and kept;
    /// a fault is read each time. The only error is want of memory, and then the cache is as it was.
    pub fn read(&mut self, text: &Text) -> Result<Reading, NoMemory>
        ensures reads { IfOk result (λ read. IsReading text.now read) }
        ensures after { IfOk result (λ read. self.new ≡ after read text.now self.old) }
        ensures kept { OnErr result (self.new ≡ self.old) }
    {
        match self.find(text)? {
            Some(script) => {
                self.use_key(text);
                Ok(Reading::Script(script))
            }
            None => {
                let read = self.read_new(text)?;
                Ok(read)
            }
        }
    }

    /// The text with what it is as a script, as `read` gives it.
    pub fn read_script(&mut self, text: Text) -> Result<ReadScript, NoMemory>
        ensures { IfOk result (λ read. read ≡ text) }
    {
        let reading = self.read(&text)?;
        Ok(ReadScript::with(text, reading))
    }

    /// The script that is kept of a text, where the text is a key. The order stays as it is.
    fn find(&self, text: &Text) -> Result<Option<Rc<Script>>, NoMemory>
        ensures { IfOk result (λ found.
            MatchOption found (is_key text.now self.now ≡ false) (λ script.
            (is_key text.now self.now ≡ true)
            × (reading text.now ≡ done (script_of script.value) []))) }
    {
        match self.scripts.peek(text.bytes()) {
            None => Ok(None),
            Some(script) => {
                let shared = script.clone()?;
                Ok(Some(shared))
            }
        }
    }

    /// Counts a hit and brings its key to the front. It takes no memory.
    fn use_key(&mut self, text: &Text)
        requires { is_key text.now self.old ≡ true }
        ensures { self.new ≡ hit text.now self.old }
    {
        self.scripts.promote(text.bytes());
        self.hits = self.hits.saturating_add(1);
    }

    /// Reads a text that is no key, and keeps its script.
    fn read_new(&mut self, text: &Text) -> Result<Reading, NoMemory>
        requires { is_key text.now self.old ≡ false }
        ensures reads { IfOk result (λ read. IsReading text.now read) }
        ensures after { IfOk result (λ read. self.new ≡ after read text.now self.old) }
        ensures kept { OnErr result (self.new ≡ self.old) }
    {
        let reading = Reading::of(self.alloc, text)?;
        if let Reading::Script(script) = &reading {
            let shared = script.clone()?;
            self.keep(text, shared)?;
        }
        Ok(reading)
    }

    /// Makes a text that is no key the first one, with its script.
    fn keep(&mut self, text: &Text, script: Rc<Script>) -> Result<(), NoMemory>
        requires absent { is_key text.now self.old ≡ false }
        requires spells { reading text.now ≡ done (script_of script.value) [] }
        ensures ok { OnOk result (self.new ≡ added text.now self.old) }
        ensures err { OnErr result (self.new ≡ self.old) }
    {
        let key = Vec::from_slice(self.alloc, text.bytes())?;
        self.scripts.put(key, script)?;
        Ok(())
    }
}
