//! Suspended work that goes on with a text: choices, loops and pages under way.

ghost use Rattle.std.specs.Prelude.{◌≡◌, ◌+◌, ◌++◌, ◌∷◌, [], IfOk, OnOk, min};
ghost use Rattle.tcl_eval.specs.Branches.{from_condition, last_body};
ghost use Rattle.tcl_eval.specs.BranchesSeen.{without_then, clauses_before};

use crate::read_expr::ReadExpr;
use adp_parse::PieceList;
use parse_cache::ReadScript;
use std::alloc::Global;
use std::rc::Rc;
use txt_core::{NoMemory, Pairs, Text, Words};

/// The conditions of an `if` with their bodies, and the body for where none of them holds.
#[derive(Debug, Drop)]
pub struct Branches {
    pub clauses: Pairs,
    pub last: Option<Text>,
}

/// A `while` or a `for`: its condition, which is read once, the script between two turns, which a `while` hasn't, and its
/// body. Scripts are read once, whether or not they come to run.
#[derive(Debug, Drop)]
pub struct Turning {
    pub condition: ReadExpr,
    pub next: Option<ReadScript>,
    pub body: ReadScript,
}

/// A `foreach`: its names, all its values and its body, which is read once.
#[derive(Debug, Drop)]
pub struct Walk {
    pub names: Words,
    pub values: Words,
    pub body: ReadScript,
}

/// Suspended work that goes on with a text, where what it waited for lets it. `levels` is how many levels are
/// left to a script that it runs, and `turns` how many turns a loop may still begin.
#[derive(Drop)]
pub enum Branch {
    /// An `if`, which waits for the value of a condition. Its body is this one, and the condition at the
    /// place `next` is the next one.
    If {
        body: Text,
        branches: Rc<Branches>,
        next: usize,
        levels: u32,
    },
    /// A `for`, which waits for its start.
    Start {
        turning: Rc<Turning>,
        levels: u32,
    },
    /// A loop, which waits for the value of its condition.
    Condition {
        turning: Rc<Turning>,
        turns: u64,
        levels: u32,
    },
    /// A loop, which waits for its body.
    Body {
        turning: Rc<Turning>,
        turns: u64,
        levels: u32,
    },
    /// A loop, which waits for the script between two turns.
    Next {
        turning: Rc<Turning>,
        turns: u64,
        levels: u32,
    },
    /// A `foreach`, which waits for its body. The value at the place `at` is the next one.
    Each {
        walk: Rc<Walk>,
        at: usize,
        turns: usize,
        levels: u32,
    },
    /// A page, which waits for the piece before the place `next`.
    Page {
        pieces: PieceList,
        next: usize,
        levels: u32,
    },
}

/// The place that lies so many places behind this one, or else the end, where there are so many places
/// in all.
pub fn place_behind(at: usize, steps: usize, count: usize) -> usize
    ensures { result ≡ min (at + steps) count }
{
    at.saturating_add(steps).min(count)
}

/// Puts a copy of a condition with its body at the end.
fn push_clause(
    alloc: Global,
    clauses: &mut Pairs,
    condition: &Text,
    body: &Text,
) -> Result<(), NoMemory>
    ensures { OnOk result (clauses.new ≡ clauses.old ++ (condition.now, body.now) ∷ []) }
{
    clauses.add((condition.copy(alloc)?, body.copy(alloc)?))
}

/// Words without a `then` at their front.
fn without_then(words: &[Text]) -> &[Text]
    ensures { result.now ≡ without_then words.now }
{
    match words.split_first() {
        None => words,
        Some((word, behind)) => {
            if word.bytes() == b"then".as_slice() {
                behind
            } else {
                words
            }
        }
    }
}

/// The conditions and bodies that the words of an `if` behind its name are; none where they have
/// another form.
pub fn read_branches(alloc: Global, words: &[Text]) -> Result<Option<Branches>, NoMemory>
    ensures { IfOk result (λ found. found ≡ from_condition words.now) }
{
    let mut clauses = Pairs::new(alloc);
    let mut left = words;
    'clauses: while let Some((condition, behind)) = left.split_first() {
        let Some((body, behind)) = without_then(behind).split_first() else {
            return Ok(None);
        };
        push_clause(alloc, &mut clauses, condition, body)?;
        let Some((word, more)) = behind.split_first() else {
            return Ok(Some(Branches {
                clauses,
                last: None,
            }));
        };
        if word.bytes() == b"elseif".as_slice() {
            left = more;
            continue;
        }
        let last = if word.bytes() == b"else".as_slice() {
            more
        } else {
            behind
        };
        return with_last(alloc, clauses, last);
    }
    Ok(None)
}

/// Conditions and bodies with the last body, which is one word.
fn with_last(alloc: Global, clauses: Pairs, words: &[Text]) -> Result<Option<Branches>, NoMemory>
    ensures { IfOk result (λ found. found ≡ clauses_before clauses (last_body words.now)) }
{
    match words.split_first() {
        None => Ok(None),
        Some((body, behind)) => {
            if !behind.is_empty() {
                return Ok(None);
            }
            let last = Some(body.copy(alloc)?);
            Ok(Some(Branches { clauses, last }))
        }
    }
}
