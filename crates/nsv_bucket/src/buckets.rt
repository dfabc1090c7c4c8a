//! The eight buckets in which shared arrays lie.

ghost use Rattle.std.specs.Prelude.{◌≡◌, ◌<◌, length, slice_set, IfOk, OnOk, OnErr};
ghost use Rattle.txt_core.specs.Limits.{bucket_count};
ghost use Rattle.nsv_bucket.specs.Steps.{array_step};
ghost use Rattle.nsv_bucket.specs.Buckets.{bucket_of, bucket_named, bucket_asked, arrays_of, no_arrays, buckets_step};

use crate::bucket::Bucket;
use crate::question::{FIRST_BUCKET, is_bucket, is_word};
use crate::reply::NsvReply;
use std::alloc::Global;
use std::marker::Model;
use txt_core::{BUCKET_COUNT, NoMemory, Text, Words};

/// The sum of some bytes modulo the number of buckets.
fn bucket_of_bytes(name: &[u8]) -> u8
    ensures of { result ≡ bucket_of name.now }
    ensures below { result < bucket_count }
{
    let mut bucket = 0;
    for byte in name {
        bucket = (bucket + byte % BUCKET_COUNT) % BUCKET_COUNT;
    }
    bucket
}

/// The number of the bucket in which an array lies: the sum of its name's bytes modulo 8.
pub fn bucket_of(array: &Text) -> u8
    ensures of { result ≡ bucket_of array.now }
    ensures below { result < bucket_count }
{
    bucket_of_bytes(array.bytes())
}

/// The bucket that a word names; bucket 0 where it names none.
fn bucket_named(word: &[u8]) -> u8
    ensures named { result ≡ bucket_named word.now }
    ensures below { result < bucket_count }
{
    if is_bucket(word) {
        word[0] - FIRST_BUCKET
    } else {
        0
    }
}

/// The number of the bucket to which words are put: that of the array that they are about, or the one
/// that those of `nsv_names` name. Words that are no question on shared arrays are put to one too,
/// which refuses them.
pub fn bucket_asked(words: &Words) -> u8
    ensures asked { result ≡ bucket_asked words.now }
    ensures below { result < bucket_count }
{
    if is_word(words, 0, b"nsv_names") {
        bucket_named(words.bytes_at(1))
    } else if is_word(words, 0, b"nsv_array") {
        bucket_of_bytes(words.bytes_at(2))
    } else {
        bucket_of_bytes(words.bytes_at(1))
    }
}

/// All shared arrays: the eight buckets in order. Contracts see the list of what they hold.
#[derive(Drop)]
pub struct Buckets {
    list: [Bucket; 8],
}

impl Model for Buckets {
    ghost use Rattle.std.specs.Prelude.{List};
    ghost use Rattle.std.specs.FinMap as map;
    ghost use Rattle.std.specs.Coded.{coded_list, coded_ℕ};
    ghost use Rattle.nsv_bucket.specs.Arrays.{Arrays};

    ghost Value = { List Arrays };

    ghost coded = { coded_list (map.code (coded_list coded_ℕ) (map.code (coded_list coded_ℕ) (coded_list coded_ℕ))) };

    ghost view = { λ a. a.list };
}

/// Puts words to the bucket at a place of a list.
fn put_to(list: &mut [Bucket], at: usize, words: &Words) -> Result<NsvReply, NoMemory>
    requires { at < length list.old }
    ensures reply { IfOk result (λ reply.
        reply ≡ (array_step (arrays_of list.old at) words.now).0) }
    ensures ok { OnOk result
        (list.new ≡ slice_set list.old at (array_step (arrays_of list.old at) words.now).1) }
    ensures err { OnErr result (list.new ≡ list.old) }
{
    list[at].ask(words)
}

impl Buckets {
    /// Eight buckets with no array.
    pub fn new(alloc: Global) -> Buckets
        ensures { result ≡ no_arrays }
    {
        Buckets {
            list: [
                Bucket::new(alloc),
                Bucket::new(alloc),
                Bucket::new(alloc),
                Bucket::new(alloc),
                Bucket::new(alloc),
                Bucket::new(alloc),
                Bucket::new(alloc),
                Bucket::new(alloc),
            ],
        }
    }

    /// These buckets, in order.
    pub fn from_list(list: [Bucket; 8]) -> Buckets
        ensures { result ≡ list }
    {
        Buckets { list }
    }

    /// The bucket with a number.
    pub fn get(&self, at: u8) -> &Bucket
        requires { at < bucket_count }
        ensures { result.now ≡ arrays_of self.now at }
    {
        &self.list[usize::from(at)]
    }

    /// Puts words to their bucket, which answers them and does what they ask for. The only error is
    /// want of memory, and all buckets are then as they were.
    pub fn ask(&mut self, words: &Words) -> Result<NsvReply, NoMemory>
        ensures reply { IfOk result (λ reply. reply ≡ (buckets_step self.old words.now).0) }
        ensures ok { OnOk result (self.new ≡ (buckets_step self.old words.now).1) }
        ensures err { OnErr result (self.new ≡ self.old) }
    {
        let bucket = usize::from(bucket_asked(words));
        put_to(&mut self.list, bucket, words)
    }
}
