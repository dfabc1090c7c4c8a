//! Reading an expression from left to right.

ghost use Rattle.std.specs.Prelude.{◌≡◌, ◌<◌, ◌≤◌, ◌∷◌, ℕ, length, map, IfOk, IfSome, MatchOption};
ghost use Rattle.txt_core.specs.Names.{Bytes};
ghost use Rattle.tcl_parse.specs.View.{part_of};
ghost use Rattle.tcl_expr.specs.Trees.{word, unary, binary, choice};
ghost use Rattle.tcl_expr.specs.Outcome.{Outcome, done};
ghost use Rattle.tcl_expr.specs.Tokens.{level, loosest, next_operator};
ghost use Rattle.tcl_expr.specs.Grammar.{behind_backslash, InParens, SignedAt, LevelAt, ExpressionBy, run_operand};
ghost use Rattle.tcl_expr.specs.View.{tree_of};
ghost use Rattle.tcl_expr.specs.Stack.{frame_of, stack, IsStack, IsLoose, AtLeast, FromOperand, parts, Waits, IsSettled, with_signs};
ghost use Rattle.tcl_expr.specs.Answers.{Gives, GivesAny, stopped_word, WordGives, PartGives, ClosedGives, OperandGives, BareGives, Answers};
ghost use Rattle.tcl_expr.specs.Places.{AnswersLeast, AnswersReached};

use crate::expr::Expr;
use crate::fault::ExprText;
use crate::operator::Op;
use crate::run::{is_word, names_value, split_run, value_front};
use crate::token::{level, next_colon, next_operator, next_question, next_sign, skip, stuck};
use std::alloc::Global;
use std::rc::Rc;
use tcl_parse::{Command, Fault, Kind, Piece, Script, Word, read_enclosed, read_substitution};
use txt_core::{MOST_NESTED, NoMemory, Stop, Text};

/// How many operators an expression may have, with its question marks.
pub const MOST_OPERATORS: u32 = 1000;

/// The level that is looser than that of every binary operator.
const LOOSEST: u8 = 12;

/// A binary operator that waits for its right side.
#[derive(Drop)]
pub struct Pending {
    pub op: Op,
    pub tree: Expr,
}

/// A choice that waits for its middle or its last part.
#[derive(Drop)]
pub enum Asked {
    Then(Expr),
    Else(Expr, Expr),
}

/// An expression whose end has been read: all, or the middle of a choice, behind its test.
#[derive(Drop)]
pub enum Taken {
    Whole(Expr),
    Middle(Expr, Expr),
}

/// How many bytes are left from the first byte on with which no word can go on, where its fault
/// stands at this many: a newline could follow a backslash there, so then it is the next one.
fn behind_backslash(bytes: &[u8], left: usize) -> usize
    ensures { result ≡ behind_backslash bytes.now left }
{
    let at = bytes.len().saturating_sub(left);
    match bytes[at..].split_first() {
        Some((b'\\', _)) => left.saturating_sub(1),
        _ => left,
    }
}

/// Where a word with a fault is bad: what isn't closed could go on at the end of the text.
fn bad_word(bytes: &[u8], stop: Stop<Fault>) -> Stop<usize>
    ensures { result ≡ stopped_word bytes.now stop }
{
    match stop {
        Stop::NoMemory => Stop::NoMemory,
        Stop::Fault(fault) => match fault.kind {
            Kind::Extra | Kind::Deep => Stop::Fault(behind_backslash(bytes, fault.left)),
            Kind::Quote | Kind::Brace | Kind::Bracket | Kind::Variable => Stop::Fault(0),
        },
    }
}

/// A word of these pieces.
fn word_expression(alloc: Global, pieces: Vec<Piece>) -> Result<Expr, NoMemory>
    ensures { IfOk result (λ e. tree_of e ≡ word (map part_of pieces.items)) }
{
    let words = vec![in alloc; Word { pieces }]?;
    let commands = vec![in alloc; Command { words }]?;
    Ok(Expr::Word(Rc::new(alloc, Script { commands })?))
}

/// A word in quotes or braces.
fn enclosed(
    alloc: Global,
    left: u32,
    bytes: &[u8],
) -> Result<Option<(Expr, u32, &[u8])>, Stop<usize>>
    ensures same { GivesAny (λ x. tree_of x.0) (λ x. x.1) (λ x. x.2.now) result
        (WordGives left bytes.now) }
    ensures goes { IfOk result (λ found. IfSome found (λ x. length x.2.now < length bytes.now)) }
{
    match read_enclosed(alloc, MOST_NESTED, bytes) {
        Err(stop) => Err(bad_word(bytes, stop)),
        Ok(None) => Ok(None),
        Ok(Some((word, rest))) => {
            let Word { pieces } = word;
            let expr = word_expression(alloc, pieces)?;
            Ok(Some((expr, left, skip(rest))))
        }
    }
}

/// What begins with a dollar or a bracket.
fn substituted(alloc: Global, left: u32, bytes: &[u8]) -> Result<(Expr, u32, &[u8]), Stop<usize>>
    ensures same { Gives (λ x. tree_of x.0) (λ x. x.1) (λ x. x.2.now) result
        (PartGives left bytes.now) }
    ensures goes { IfOk result (λ x. length x.2.now < length bytes.now) }
{
    match read_substitution(alloc, MOST_NESTED, bytes) {
        Err(stop) => Err(bad_word(bytes, stop)),
        Ok(None) => Err(Stop::Fault(bytes.len().saturating_sub(1))),
        Ok(Some((piece, rest))) => {
            let mut pieces = Vec::new(alloc);
            pieces.push(piece)?;
            let expr = word_expression(alloc, pieces)?;
            Ok((expr, left, skip(rest)))
        }
    }
}

/// A number or a word of truth.
fn value(alloc: Global, left: u32, bytes: &[u8]) -> Result<(Expr, u32, &[u8]), Stop<usize>>
    ensures same { Gives (λ x. tree_of x.0) (λ x. x.1) (λ x. x.2.now) result (λ o.
        o ≡ run_operand left bytes.now) }
    ensures goes { IfOk result (λ x. length x.2.now < length bytes.now) }
{
    let (run, rest) = split_run(bytes);
    if !names_value(run) {
        return Err(Stop::Fault(bytes.len().saturating_sub(value_front(run))));
    }
    let text = Text::new(alloc, run)?.noting_number();
    Ok((Expr::Value(text), left, skip(rest)))
}

/// An expression in parentheses, from behind the opening one on. room: how many more may stand in
/// one another.
#[cycle(reader)]
fn in_parentheses(
    alloc: Global,
    room: u32,
    left: u32,
    bytes: &[u8],
) -> Result<(Expr, u32, &[u8]), Stop<usize>>
    ensures same { Gives (λ x. tree_of x.0) (λ x. x.1) (λ x. x.2.now) result
        (ClosedGives room left bytes.now) }
    ensures goes { IfOk result (λ x. length x.2.now ≤ length bytes.now) }
{
    if room == 0 {
        return Err(Stop::Fault(bytes.len() + 1));
    }
    let (expr, left, rest) = choice(alloc, room - 1, left, skip(bytes))?;
    match rest.split_first() {
        None => Err(Stop::Fault(0)),
        Some((b, behind)) => {
            if *b != b')' {
                return Err(Stop::Fault(stuck(left, rest)));
            }
            Ok((expr, left, skip(behind)))
        }
    }
}

/// An operand without unary operators.
#[cycle(reader)]
fn operand(
    alloc: Global,
    room: u32,
    left: u32,
    bytes: &[u8],
) -> Result<(Expr, u32, &[u8]), Stop<usize>>
    ensures same { Gives (λ x. tree_of x.0) (λ x. x.1) (λ x. x.2.now) result
        (OperandGives room left bytes.now) }
    ensures goes { IfOk result (λ x. length x.2.now < length bytes.now) }
{
    match enclosed(alloc, left, bytes)? {
        Some(found) => Ok(found),
        None => bare(alloc, room, left, bytes),
    }
}

/// An operand that is no word in quotes or braces.
#[cycle(reader)]
fn bare(
    alloc: Global,
    room: u32,
    left: u32,
    bytes: &[u8],
) -> Result<(Expr, u32, &[u8]), Stop<usize>>
    ensures same { Gives (λ x. tree_of x.0) (λ x. x.1) (λ x. x.2.now) result
        (BareGives room left bytes.now) }
    ensures goes { IfOk result (λ x. length x.2.now < length bytes.now) }
{
    match bytes.split_first() {
        None => Err(Stop::Fault(0)),
        Some((b'$' | b'[', _)) => substituted(alloc, left, bytes),
        Some((b'(', tail)) => in_parentheses(alloc, room, left, tail),
        Some((b, _)) => {
            if !is_word(*b) {
                return Err(Stop::Fault(bytes.len()));
            }
            value(alloc, left, bytes)
        }
    }
}

/// An operand behind unary operators.
#[cycle(reader)]
fn signed(
    alloc: Global,
    room: u32,
    left: u32,
    bytes: &[u8],
) -> Result<(Expr, u32, &[u8]), Stop<usize>>
    ensures same { Gives (λ x. tree_of x.0) (λ x. x.1) (λ x. x.2.now) result
        (SignedAt (InParens room) left bytes.now) }
    ensures goes { IfOk result (λ x. length x.2.now < length bytes.now) }
{
    let mut signs = Vec::new(alloc);
    let mut left = left;
    let mut rest = bytes;
    'signs: loop {
        match next_sign(left, rest) {
            None => {
                let (expr, left, rest) = operand(alloc, room, left, rest)?;
                let expr = with_signs(alloc, signs, expr)?;
                return Ok((expr, left, rest));
            }
            Some((op, after, tail)) => {
                signs.push(op)?;
                left = after;
                rest = tail;
            }
        }
    }
}

fn unary(alloc: Global, op: Op, operand: Expr) -> Result<Expr, NoMemory>
    ensures { IfOk result (λ e. tree_of e ≡ unary op (tree_of operand)) }
{
    Ok(Expr::Unary(op, Rc::new(alloc, operand)?))
}

/// Puts unary operators before an operand, the last one nearest.
fn with_signs(alloc: Global, signs: Vec<Op>, expr: Expr) -> Result<Expr, NoMemory>
    ensures { IfOk result (λ e. tree_of e ≡ with_signs signs.items (tree_of expr)) }
{
    let mut signs = signs;
    let mut expr = expr;
    'signs: while let Some(op) = signs.pop() {
        expr = unary(alloc, op, expr)?;
    }
    Ok(expr)
}

fn binary(alloc: Global, waiting: Pending, right: Expr) -> Result<Expr, NoMemory>
    ensures { IfOk result (λ e.
        tree_of e ≡ binary waiting.op (tree_of waiting.tree) (tree_of right)) }
{
    let Pending { op, tree } = waiting;
    let left = Rc::new(alloc, tree)?;
    Ok(Expr::Binary(op, left, Rc::new(alloc, right)?))
}

/// Takes what waits last, where its operator binds as tightly as this level or tighter.
fn pop_tight(pending: &mut Vec<Pending>, most: u8) -> Option<Pending>
    ensures { MatchOption result
        ((pending.new.items ≡ pending.old.items) × IsLoose most (stack pending.new.items))
        (λ p.
        (stack pending.old.items ≡ frame_of p ∷ stack pending.new.items) × (level p.op ≤ most)) }
{
    let last = pending.last()?;
    if level(last.op) > most {
        return None;
    }
    pending.pop()
}

/// Joins what waits for a right side, where its operator binds as tightly as this level or tighter.
fn reduced(
    alloc: Global,
    most: u8,
    pending: &mut Vec<Pending>,
    tree: Expr,
) -> Result<Expr, NoMemory>
    ensures means { IsStack (stack pending.old.items) → IfOk result (λ e.
        (room n : ℕ) (t : Bytes) (o : Outcome) → AtLeast most (next_operator n t)
        → FromOperand (SignedAt (InParens room)) (stack pending.new.items) (done (tree_of e) n t) o
        → FromOperand (SignedAt (InParens room)) (stack pending.old.items) (done (tree_of tree) n t)
        o) }
    ensures valid { IsStack (stack pending.old.items) → IsStack (stack pending.new.items) }
    ensures loose { IfOk result (λ _. IsLoose most (stack pending.new.items)) }
{
    let mut tree = tree;
    'pending: while let Some(last) = pop_tight(pending, most) {
        tree = binary(alloc, last, tree)?;
    }
    Ok(tree)
}

/// Binary operators and their operands.
#[cycle(reader)]
fn joined(
    alloc: Global,
    room: u32,
    left: u32,
    bytes: &[u8],
) -> Result<(Expr, u32, &[u8]), Stop<usize>>
    ensures same { Gives (λ x. tree_of x.0) (λ x. x.1) (λ x. x.2.now) result
        (LevelAt (SignedAt (InParens room)) loosest left bytes.now) }
    ensures goes { IfOk result (λ x. length x.2.now < length bytes.now) }
{
    let mut pending = Vec::new(alloc);
    let (mut tree, mut left, mut rest) = signed(alloc, room, left, bytes)?;
    'operators: loop {
        match next_operator(left, rest) {
            None => {
                let tree = reduced(alloc, LOOSEST, &mut pending, tree)?;
                return Ok((tree, left, rest));
            }
            Some((op, after, tail)) => {
                let first = reduced(alloc, level(op), &mut pending, tree)?;
                pending.push(Pending { op, tree: first })?;
                (tree, left, rest) = signed(alloc, room, after, tail)?;
            }
        }
    }
}

/// A whole expression: `x ? y : z`, or binary operators and their operands.
#[cycle(reader)]
fn choice(
    alloc: Global,
    room: u32,
    left: u32,
    bytes: &[u8],
) -> Result<(Expr, u32, &[u8]), Stop<usize>>
    ensures same { Gives (λ x. tree_of x.0) (λ x. x.1) (λ x. x.2.now) result
        (ExpressionBy (InParens room) left bytes.now) }
    ensures goes { IfOk result (λ x. length x.2.now < length bytes.now) }
{
    let mut asked = Vec::new(alloc);
    let mut left = left;
    let mut rest = bytes;
    'parts: loop {
        let (tree, after, tail) = joined(alloc, room, left, rest)?;
        match next_question(after, tail) {
            Some((middle_left, middle)) => {
                asked.push(Asked::Then(tree))?;
                left = middle_left;
                rest = middle;
            }
            None => match settle(alloc, &mut asked, tree)? {
                Taken::Whole(tree) => return Ok((tree, after, tail)),
                Taken::Middle(test, tree) => match next_colon(tail) {
                    None => return Err(Stop::Fault(stuck(after, tail))),
                    Some(last) => {
                        asked.push(Asked::Else(test, tree))?;
                        left = after;
                        rest = last;
                    }
                },
            },
        }
    }
}

fn chosen(alloc: Global, test: Expr, middle: Expr, last: Expr) -> Result<Expr, NoMemory>
    ensures { IfOk result (λ e. tree_of e ≡ choice (tree_of test) (tree_of middle) (tree_of last)) }
{
    let test = Rc::new(alloc, test)?;
    let middle = Rc::new(alloc, middle)?;
    Ok(Expr::Choice(test, middle, Rc::new(alloc, last)?))
}

/// Joins the choices whose last part has been read, up to the one that waits for its middle.
fn settle(alloc: Global, asked: &mut Vec<Asked>, tree: Expr) -> Result<Taken, NoMemory>
    ensures { IfOk result (λ x.
        (room n : ℕ) (t : Bytes) (o : Outcome)
        → IsSettled (ExpressionBy (InParens room)) x (parts asked.new.items) n t o
        → Waits (ExpressionBy (InParens room)) (parts asked.old.items) (done (tree_of tree) n t)
        o) }
{
    let mut tree = tree;
    'asked: while let Some(last) = asked.pop() {
        match last {
            Asked::Then(test) => return Ok(Taken::Middle(test, tree)),
            Asked::Else(test, middle) => {
                tree = chosen(alloc, test, middle, tree)?;
            }
        }
    }
    Ok(Taken::Whole(tree))
}

/// The expression that a text is, as its tree.
///
/// # Errors
///
/// `ExprText::Bad` exactly where the text is none, with the place of the first byte with which no
/// expression can go on, or the text's length where one could. So behind a word in braces or quotes
/// a backslash, which a newline could follow, isn't bad, but the byte behind it. A parenthesis
/// inside [`MOST_NESTED`] others and an operator after [`MOST_OPERATORS`] others are bad at
/// their place.
/// `ExprText::NoMemory` where memory ran out.
pub fn parse_expr(alloc: Global, text: &Text) -> Result<Expr, ExprText>
    ensures same { Answers text.now result }
    ensures least { AnswersLeast text.now result }
    ensures reached { AnswersReached text.now result }
{
    let bytes = text.bytes();
    match choice(alloc, MOST_NESTED, MOST_OPERATORS, skip(bytes)) {
        Err(Stop::NoMemory) => Err(ExprText::NoMemory),
        Err(Stop::Fault(left)) => Err(ExprText::Bad {
            at: (bytes.len() - left) as u64,
        }),
        Ok((expr, left, rest)) => {
            if rest.is_empty() {
                return Ok(expr);
            }
            Err(ExprText::Bad {
                at: (bytes.len() - stuck(left, rest)) as u64,
            })
        }
    }
}
