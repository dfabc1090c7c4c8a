//! Suspended work.

ghost use Rattle.std.specs.Prelude.{◌≡◌};
ghost use Rattle.tcl_eval.specs.Engine.{Enters, gone_of};

use crate::branch::Branch;
use crate::gather::{Gathered, SoFar};
use crate::place::Place;
use outside::Question;
use std::rc::Rc;
use tcl_expr::{Expr, Op};
use tcl_parse::Script;
use txt_core::{Text, Words};

/// The code and the result of a command or a script, or the value of a word or a part of one.
#[derive(Drop)]
pub struct Ended {
    pub code: u8,
    pub result: Text,
}

/// What something comes to of which nothing is put on the stack.
#[derive(Drop)]
pub enum Once {
    /// This.
    Gives(Ended),
    /// A cost is more than is left of the budget.
    Spent,
    /// It doesn't come to a value straight away. But for what was paid, nothing was done.
    Left,
}

/// An `expr` whose words are all there: what its command costs, and the expression that it comes to, by the
/// tests of choices that are known. Nothing was paid for.
#[derive(Drop)]
pub struct Evaluation {
    pub cost: u64,
    pub expr: Rc<Expr>,
}

/// Suspended work, which waits for a code and a result. `levels` is how many levels are left to a
/// script that it runs.
#[derive(Drop)]
pub enum Frame {
    /// A script whose commands from `next` on are still to be run; it waits for the one before.
    Script {
        script: Rc<Script>,
        next: usize,
        levels: u32,
    },
    /// A command with the values of its first words; it waits for that of the next word.
    Command {
        script: Rc<Script>,
        at: usize,
        values: Gathered,
        levels: u32,
    },
    /// A command whose first words cost more than is left of the budget, so that it ends the run once
    /// its words are there; it waits for the value of the word before `next`.
    Costly {
        script: Rc<Script>,
        at: usize,
        next: usize,
        levels: u32,
    },
    /// A word, or an index, with what is kept of its first pieces; it waits for the value of the piece
    /// before `place`. What it comes to isn't too long, or it is an error.
    Word {
        place: Place,
        so_far: SoFar,
        levels: u32,
    },
    /// An element of this array, which waits for its index.
    Index {
        array: Text,
    },
    /// A command under way, whose result is paid for.
    Result,
    /// A procedure under way.
    Procedure,
    /// A procedure under way, whose result is paid for.
    ProcedureResult,
    /// A `catch` under way, and the variable for the result, where one is named.
    Caught {
        name: Option<Text>,
    },
    /// An expression, which is evaluated once it gets a good end.
    Expression {
        expr: Rc<Expr>,
        levels: u32,
    },
    /// An operand, or an expression, that is one bracket and waits for its end.
    Operand,
    /// A unary operator, which waits for its operand.
    Operation {
        op: Op,
    },
    /// A binary operator, which waits for its left operand.
    Left {
        op: Op,
        right: Rc<Expr>,
        levels: u32,
    },
    /// A binary operator, which waits for its right operand.
    Right {
        op: Op,
        left: Text,
    },
    /// A choice within an expression, which waits for its first part.
    Choice {
        first: Rc<Expr>,
        second: Rc<Expr>,
        levels: u32,
    },
    /// An `expr` under way.
    Value,
    /// An `expr` under way, whose result is paid for.
    ValueResult,
    /// A choice, a loop or a page under way, which goes on with a text.
    Branch(Branch),
}

/// What may run a text and is done outside of what goes on before it, or an end before all is done.
#[derive(Drop)]
pub enum Ready {
    /// A command, which is to be paid for.
    Command { words: Words, levels: u32 },
    /// An `expr`, which is to be paid for.
    Expression { evaluation: Evaluation, levels: u32 },
    /// A choice, a loop or a page gets what it waited for.
    Branch { branch: Branch, value: Ended },
    TooDeep,
    Spent,
}

/// What comes before the next text may be run.
#[derive(Drop)]
pub enum AtRest {
    /// All is done.
    Ended(Ended),
    Ready(Ready),
}

/// A step of what is under way.
#[derive(Drop)]
pub enum Step {
    /// The frame on top gets this.
    Value(Ended),
    /// A word goes on with the pieces at this place.
    Pieces {
        place: Place,
        so_far: SoFar,
        levels: u32,
    },
    /// An operand that is this bracket begins.
    Bracket {
        script: Rc<Script>,
        levels: u32,
    },
    /// Something is to be paid for, or all ends.
    Stop(Ready),
}

/// What a command that is under way comes to.
#[derive(Drop)]
pub enum Acted {
    Gives(Ended),
    Asks(Question),
    TooDeep,
    Spent,
}

/// How a run goes on behind a choice, a loop, a page or a call of a procedure.
#[derive(Drop)]
pub enum Gone {
    Goes(Step),
    TooDeep,
    Spent,
}

/// How a run goes on behind what asked nothing.
pub fn gone_from(acted: Acted) -> Gone
    requires { Enters acted (Unit {0}) }
    ensures { result ≡ gone_of acted }
{
    match acted {
        Acted::Gives(value) => Gone::Goes(Step::Value(value)),
        Acted::TooDeep => Gone::TooDeep,
        Acted::Spent => Gone::Spent,
        Acted::Asks(_) => unreachable!(),
    }
}
