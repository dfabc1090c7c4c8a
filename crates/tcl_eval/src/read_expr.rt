//! Texts with what they are as expressions.

ghost use Rattle.std.specs.Prelude.{◌≡◌, IfOk};
ghost use Rattle.tcl_eval.specs.Eval.{arg};
ghost use Rattle.tcl_eval.specs.ExprReadings.{IsReading};

use crate::expr_reading::ExprReading;
use crate::words::copy_word;
use std::alloc::Global;
use std::marker::Model;
use std::rc::Rc;
use tcl_expr::{ExprText, parse_expr};
use txt_core::{NoMemory, Text, Words};

/// What a text is as an expression. The only error is want of memory.
fn reading_of(alloc: Global, text: &Text) -> Result<ExprReading, NoMemory>
    ensures { IfOk result (λ reading. IsReading text.now reading) }
{
    match parse_expr(alloc, text) {
        Ok(expr) => {
            let expr = Rc::new(alloc, expr)?;
            Ok(ExprReading::Good(expr))
        }
        Err(ExprText::Bad { at }) => Ok(ExprReading::Bad { at }),
        Err(ExprText::NoMemory) => Err(NoMemory),
    }
}

/// A text with what it is as an expression, so that it is read once, however often it is evaluated.
/// Contracts see the text.
#[derive(Debug, Drop)]
pub struct ReadExpr {
    text: Text,
    reading: ExprReading,
}

impl Model for ReadExpr {
    ghost use Rattle.std.specs.Coded.{coded_list, coded_ℕ};
    ghost use Rattle.txt_core.specs.Names.{Bytes};
    ghost use Rattle.tcl_eval.specs.ExprReadings.{IsReading};

    ghost Value = { Bytes };

    ghost coded = { coded_list coded_ℕ };

    ghost view = { λ read. read.text };

    ghost invariant = { λ read. IsReading read.text read.reading };
}

impl ReadExpr {
    /// Reads a text. The only error is want of memory: a text that is no expression is kept as such.
    pub fn new(alloc: Global, text: Text) -> Result<ReadExpr, NoMemory>
        ensures { IfOk result (λ read. read ≡ text) }
    {
        let reading = reading_of(alloc, &text)?;
        Ok(ReadExpr { text, reading })
    }

    /// The text.
    pub fn text(&self) -> &Text
        ensures { result.now ≡ self.now }
    {
        &self.text
    }

    /// What the text is as an expression.
    pub fn reading(&self) -> &ExprReading
        ensures { IsReading self.now result.now }
    {
        &self.reading
    }
}

/// The word at a place, read as an expression; the empty text where there is none.
pub fn read_word(alloc: Global, words: &Words, place: usize) -> Result<ReadExpr, NoMemory>
    ensures { IfOk result (λ read. read ≡ arg words.now place) }
{
    ReadExpr::new(alloc, copy_word(alloc, words, place)?)
}
