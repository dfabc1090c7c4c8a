//! What is said of an error, beside the texts that other parts give too (`txt_core::error_text` and
//! `tcl_frame::variable_fault`).

ghost use Rattle.std.specs.Prelude.{◌≡◌, ◌++◌, [], IfOk};
ghost use Rattle.tcl_expr.specs.declared.operator.ExprFault.{ExprFault};
ghost use Rattle.tcl_eval.specs.Messages.{quoted, no_command, command_exists, fault_name, script_fault, no_procedure, bad_expression, no_boolean, operator_name, operator_fault};

use std::alloc::Global;
use tcl_expr::{ExprFault, Op};
use tcl_parse::Kind;
use txt_core::error_text::overflow;
use txt_core::{NoMemory, Text, write_natural};

/// Appends a text in double quotes.
fn push_quoted(message: &mut Text, text: &[u8]) -> Result<(), NoMemory>
    ensures { IfOk result (λ _. message.new ≡ message.old ++ quoted text.now) }
{
    message.append(b"\"")?;
    message.append(text)?;
    message.append(b"\"")
}

/// There is no command of this name to be renamed.
#[cold]
#[inline(never)]
pub fn no_command(alloc: Global, name: &[u8]) -> Result<Text, NoMemory>
    ensures { IfOk result (λ message. message ≡ no_command name.now) }
{
    let mut message = Text::new(alloc, b"no command ")?;
    push_quoted(&mut message, name)?;
    Ok(message)
}

/// The new name is that of a command.
#[cold]
#[inline(never)]
pub fn command_exists(alloc: Global, name: &[u8]) -> Result<Text, NoMemory>
    ensures { IfOk result (λ message. message ≡ command_exists name.now) }
{
    let mut message = Text::new(alloc, b"command ")?;
    push_quoted(&mut message, name)?;
    message.append(b" exists")?;
    Ok(message)
}

fn fault_name(kind: Kind) -> &'static [u8]
    ensures { result.now ≡ fault_name kind }
{
    match kind {
        Kind::Quote => b"unclosed quote",
        Kind::Brace => b"unclosed brace",
        Kind::Bracket => b"unclosed bracket",
        Kind::Variable => b"unclosed variable",
        Kind::Extra => b"extra bytes",
        Kind::Deep => b"nested too deep",
    }
}

/// A text is no script: this is wrong with it, at this byte.
#[cold]
#[inline(never)]
pub fn script_fault(alloc: Global, kind: Kind, place: u64) -> Result<Text, NoMemory>
    ensures { IfOk result (λ message. message ≡ script_fault kind place) }
{
    let mut message = Text::new(alloc, fault_name(kind))?;
    message.append(b" at ")?;
    message.append(write_natural(alloc, place)?.bytes())?;
    Ok(message)
}

/// A name is that of no procedure.
#[cold]
#[inline(never)]
pub fn no_procedure(alloc: Global, name: &[u8]) -> Result<Text, NoMemory>
    ensures { IfOk result (λ message. message ≡ no_procedure name.now) }
{
    let mut message = Text::new(alloc, b"no procedure ")?;
    push_quoted(&mut message, name)?;
    Ok(message)
}

/// A text is no expression: it is bad at this byte.
#[cold]
#[inline(never)]
pub fn bad_expression(alloc: Global, place: u64) -> Result<Text, NoMemory>
    ensures { IfOk result (λ message. message ≡ bad_expression place) }
{
    let mut message = Text::new(alloc, b"syntax error in expression at ")?;
    message.append(write_natural(alloc, place)?.bytes())?;
    Ok(message)
}

/// A value has no truth.
#[cold]
#[inline(never)]
pub fn no_boolean(alloc: Global, value: &[u8]) -> Result<Text, NoMemory>
    ensures { IfOk result (λ message. message ≡ no_boolean value.now) }
{
    let mut message = Text::new(alloc, b"expected boolean but got ")?;
    push_quoted(&mut message, value)?;
    Ok(message)
}

fn operator_name(op: Op) -> &'static [u8]
    ensures { result.now ≡ operator_name op }
{
    match op {
        Op::Minus => b"-",
        Op::Plus => b"+",
        Op::Invert => b"~",
        Op::Not => b"!",
        Op::Mul => b"*",
        Op::Div => b"/",
        Op::Rem => b"%",
        Op::Add => b"+",
        Op::Sub => b"-",
        Op::Shl => b"<<",
        Op::Shr => b">>",
        Op::Lt => b"<",
        Op::Gt => b">",
        Op::Le => b"<=",
        Op::Ge => b">=",
        Op::EqNumber => b"==",
        Op::NeNumber => b"!=",
        Op::EqText => b"eq",
        Op::NeText => b"ne",
        Op::BitAnd => b"&",
        Op::BitXor => b"^",
        Op::BitOr => b"|",
        Op::And => b"&&",
        Op::Or => b"||",
    }
}

fn no_operand(alloc: Global, op: Op) -> Result<Text, NoMemory>
    ensures { IfOk result (λ message. message ≡ operator_fault ExprFault.NotNumber op []) }
{
    let mut message = Text::new(alloc, b"can't use non-numeric string as operand of ")?;
    push_quoted(&mut message, operator_name(op))?;
    Ok(message)
}

/// An operator gives no value, where this operand has no truth.
#[cold]
#[inline(never)]
pub fn operator_fault(
    alloc: Global,
    why: ExprFault,
    op: Op,
    operand: &[u8],
) -> Result<Text, NoMemory>
    ensures { IfOk result (λ message. message ≡ operator_fault why op operand.now) }
{
    match why {
        ExprFault::NotNumber => no_operand(alloc, op),
        ExprFault::NotBoolean => no_boolean(alloc, operand),
        ExprFault::DivZero => Text::new(alloc, b"divide by zero"),
        ExprFault::Overflow => overflow(alloc),
        ExprFault::Shift => Text::new(alloc, b"bad shift count"),
        ExprFault::NoMemory => Err(NoMemory),
    }
}
