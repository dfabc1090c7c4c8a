//! What serving needs above the objects and below whoever serves: questions as calls on the objects that
//! answer them, their replies as answers, and when a connection closes.
#![tactic(auto)]

mod arrays;
mod connection;
mod inner;
mod law;
mod pages;
mod publishing;
mod schedule;

pub use arrays::nsv_answer;
pub use connection::{
    Behind, MOST_ANSWERED, MOST_REQUESTS, after_request, answer_bytes, asks_close, closes, counted,
    is_head_only, is_spent,
};
pub use inner::inner_answer;
pub use law::made_is_published;
pub use pages::page_answer;
pub use publishing::{Asked, publish_call, published_answer, save_call};
pub use schedule::{sched_answer, sched_call};
