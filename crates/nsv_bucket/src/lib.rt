//! Shared arrays: a bucket of arrays, each a map from keys to values, as an object that threads use
//! by turns.
//!
//! A call is the words of a command on shared arrays; the reply is what the command gives, or why it
//! is refused. Contracts see a bucket as a finite map from names to arrays, and an array as a finite
//! map from keys to values, so two buckets of the same content are equal.
#![tactic(auto)]

mod array;
mod arrays;
mod bucket;
mod buckets;
mod journal;
mod law;
mod listing;
mod lists;
mod message;
mod question;
mod reads;
mod reply;
mod steps;
mod writes;

pub use bucket::Bucket;
pub use buckets::{Buckets, bucket_asked, bucket_of};
pub use law::{each_key_by_itself, steps_are_determined};
pub use question::{is_question, lacks_subcommand};
pub use reply::NsvReply;
