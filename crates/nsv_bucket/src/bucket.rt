//! A bucket of arrays.

ghost use Rattle.std.specs.Prelude.{◌≡◌, IfOk, OnOk, OnErr};
ghost use Rattle.std.specs.FinMap as map;
ghost use Rattle.std.specs.Option.{option_copied};
ghost use Rattle.nsv_bucket.specs.Arrays.{value_of};
ghost use Rattle.nsv_bucket.specs.Steps.{array_step, ArraySteps};

use crate::arrays::{Arrays, value};
use crate::question::read_question;
use crate::reply::NsvReply;
use crate::steps::ask;
use std::alloc::Global;
use std::collections::BTreeMap;
use std::marker::Model;
use turn_cell::Obj;
use txt_core::{NoMemory, Text, Words};

/// Arrays by name, each with its values by key. Contracts see the finite map of finite maps.
#[derive(Drop)]
pub struct Bucket {
    alloc: Global,
    arrays: Arrays,
}

impl Model for Bucket {
    ghost use Rattle.std.specs.FinMap as map;
    ghost use Rattle.std.specs.Coded.{coded_list, coded_ℕ};
    ghost use Rattle.nsv_bucket.specs.Arrays.{Arrays, seen};

    ghost Value = { Arrays };

    ghost coded = { map.code (coded_list coded_ℕ) (map.code (coded_list coded_ℕ) (coded_list coded_ℕ)) };

    ghost view = { λ a. seen a.arrays };
}

impl Bucket {
    /// A bucket with no array.
    pub fn new(alloc: Global) -> Bucket
        ensures { result ≡ map.empty }
    {
        Bucket {
            alloc,
            arrays: BTreeMap::new(alloc),
        }
    }

    /// The value of a key in an array; `None` exactly where the array or the key is absent.
    pub fn value(&self, array: &Text, key: &Text) -> Option<&Text>
        ensures { option_copied result ≡ value_of self.now array.now key.now }
    {
        value(&self.arrays, array, key)
    }

    /// Answers words, and does what they ask for. The only error is want of memory, and the bucket is
    /// then as it was.
    pub(crate) fn ask(&mut self, words: &Words) -> Result<NsvReply, NoMemory>
        ensures reply { IfOk result (λ reply. reply ≡ (array_step self.old words.now).0) }
        ensures ok { OnOk result (self.new ≡ (array_step self.old words.now).1) }
        ensures err { OnErr result (self.new ≡ self.old) }
    {
        let Some(question) = read_question(words) else {
            return Ok(NsvReply::Failed(Text::empty(self.alloc)));
        };
        ask(self.alloc, &mut self.arrays, question, words)
    }

    /// The same, with a reply of its own for want of memory.
    fn answer(&mut self, words: &Words) -> NsvReply
        ensures { ArraySteps self.old words.now result self.new }
    {
        match self.ask(words) {
            Ok(reply) => reply,
            Err(_) => NsvReply::NoMemory,
        }
    }
}

impl Obj for Bucket {
    ghost use Rattle.std.specs.FinMap as map;
    ghost use Rattle.nsv_bucket.specs.Steps.{ArraySteps};

    type Call = Words;

    type Reply = NsvReply;

    ghost allowed = { λ s. Unit {0} };

    ghost reaches = { λ s t. Unit {0} };

    ghost step = { ArraySteps };

    ghost sample = { map.empty };

    fn shown(&self) {}

    fn act(&mut self, call: Words) -> NsvReply {
        self.answer(&call)
    }

    ghost sample_allowed = { tt };

    ghost reaches_self = { λ s. tt };

    ghost reaches_later = { λ s t u a b. tt };

    ghost step_reaches = { λ s c r t ok h. tt };
}
