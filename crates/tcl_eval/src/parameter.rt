//! The parameters of procedures.

ghost use Rattle.std.specs.Prelude.{◌≡◌, ◌++◌, ◌∷◌, [], IfOk, Ok, OnOk, drop};
ghost use Rattle.tcl_eval.specs.Words.{arg};
ghost use Rattle.txt_core.specs.Quoting.{quoting};
ghost use Rattle.tcl_eval.specs.Parameters.{parameter, read_all, parameters, bind, bound_by};
ghost use Rattle.tcl_eval.specs.ParametersSeen.{ParametersAre, ValuesAre};

use crate::words::{behind_name, copy_word};
use std::alloc::Global;
use tcl_list::{ListFault, quote, split};
use txt_core::error_text::{bad_value, no_list, wrong_words};
use txt_core::{NoMemory, Pairs, Text, Words};

/// A parameter: its name, and its value where a call has no word for it.
#[derive(Debug, Drop)]
pub struct Parameter {
    pub name: Text,
    pub default: Option<Text>,
}

/// The parameter that a text is, if it is one.
fn read_parameter(alloc: Global, text: &Text) -> Result<Option<Parameter>, NoMemory>
    ensures { IfOk result (λ found. found ≡ parameter text.now) }
{
    let words = match split(alloc, text) {
        Err(ListFault::NoMemory) => return Err(NoMemory),
        Err(ListFault::Bad { .. }) => return Ok(None),
        Ok(words) => words,
    };
    if words.len() == 1 {
        return Ok(Some(Parameter {
            name: copy_word(alloc, &words, 0)?,
            default: None,
        }));
    }
    if words.len() == 2 {
        return Ok(Some(Parameter {
            name: copy_word(alloc, &words, 0)?,
            default: Some(copy_word(alloc, &words, 1)?),
        }));
    }
    Ok(None)
}

/// The parameters that these texts are, or what is wrong with the first text that is none.
fn read_all(alloc: Global, texts: &[Text]) -> Result<Result<Vec<Parameter>, Text>, NoMemory>
    ensures { IfOk result (λ found. ParametersAre found (read_all texts.now)) }
{
    let mut all = Vec::new(alloc);
    'texts: for text in texts {
        match read_parameter(alloc, text)? {
            None => return Ok(Err(bad_value(alloc, text.bytes(), b"proc")?)),
            Some(next) => all.push(next)?,
        }
    }
    Ok(Ok(all))
}

/// The parameters that a text lists, or what is wrong with it.
pub fn parameters(alloc: Global, text: &Text) -> Result<Result<Vec<Parameter>, Text>, NoMemory>
    ensures { IfOk result (λ found. ParametersAre found (parameters text.now)) }
{
    match split(alloc, text) {
        Err(ListFault::NoMemory) => Err(NoMemory),
        Err(ListFault::Bad { at }) => Ok(Err(no_list(alloc, at)?)),
        Ok(texts) => read_all(alloc, texts.as_slice()),
    }
}

/// Puts a value of this name at the end.
#[inline(always)]
fn push_value(alloc: Global, values: &mut Pairs, name: &Text, value: Text) -> Result<(), NoMemory>
    ensures { OnOk result (values.new ≡ values.old ++ (name.now, value) ∷ []) }
{
    values.add((name.copy(alloc)?, value))
}

/// Words as a list.
fn listed(alloc: Global, words: &[Text]) -> Result<Text, NoMemory>
    ensures { IfOk result (λ text. text ≡ quoting words.now) }
{
    quote(alloc, &Words::of_copies(alloc, words)?)
}

/// The values of parameters for these words, or none where the number of words is wrong.
fn bind(alloc: Global, parameters: &[Parameter], words: &[Text]) -> Result<Option<Pairs>, NoMemory>
    ensures { IfOk result (λ found. found ≡ bind parameters.now words.now) }
{
    let mut values = Pairs::new(alloc);
    let mut left = parameters;
    let mut rest = words;
    'parameters: while let Some((parameter, more)) = left.split_first() {
        if more.is_empty() && parameter.name.bytes() == b"args".as_slice() {
            push_value(alloc, &mut values, &parameter.name, listed(alloc, rest)?)?;
            return Ok(Some(values));
        }
        match rest.split_first() {
            Some((word, behind)) => {
                push_value(alloc, &mut values, &parameter.name, word.copy(alloc)?)?;
                rest = behind;
            }
            None => match &parameter.default {
                None => return Ok(None),
                Some(value) => {
                    push_value(alloc, &mut values, &parameter.name, value.copy(alloc)?)?;
                }
            },
        }
        left = more;
    }
    if rest.is_empty() {
        return Ok(Some(values));
    }
    Ok(None)
}

/// The values of a procedure's parameters, for the words of a call, or the text of the error.
pub fn bound_by(
    alloc: Global,
    parameters: &[Parameter],
    words: &Words,
) -> Result<Result<Pairs, Text>, NoMemory>
    ensures { IfOk result (λ found.
        ValuesAre found (bound_by (Ok parameters.now) (arg words.now 0) (drop 1 words.now))) }
{
    match bind(alloc, parameters, behind_name(words))? {
        None => Ok(Err(wrong_words(alloc, words.bytes_at(0))?)),
        Some(values) => Ok(Ok(values)),
    }
}
