//! The evaluation of scripts, which can stand at a question.
#![tactic(auto)]

mod act;
mod bracket;
mod branch;
mod call;
mod choice;
mod condition;
mod cost;
mod engine;
mod evaluation;
mod expr_reading;
mod expression;
mod expression_cache;
mod gather;
mod info;
mod latest;
mod law;
mod lend;
mod loop_parts;
mod loop_turns;
mod loops;
mod message;
mod operation;
mod outcome;
mod page;
mod parameter;
mod place;
mod read_expr;
mod read_parameters;
mod readings;
mod run;
mod settle;
mod simple;
mod simple_value;
mod spare;
mod stack;
mod straight;
mod switch;
mod value;
mod verb;
mod walk_turns;
mod words;

pub use engine::Engine;
pub use law::{
    fronts_write_less, language_names_have_doers, made_by_commands, made_grows, made_grows_on,
    questions_are_few, questions_cost, turns_suffice,
};
pub use outcome::{Outcome, Work};
pub use tcl_host::{Host, HostReply};
