//! Texts with the parameters that they list.

ghost use Rattle.std.specs.Prelude.{◌≡◌, IfOk, IfSome, Ok};
ghost use Rattle.tcl_eval.specs.Parameters.{parameters};
ghost use Rattle.tcl_eval.specs.ParametersSeen.{ReadAs};

use crate::parameter::{Parameter, parameters};
use natives::Places;
use std::alloc::Global;
use std::marker::Model;
use txt_core::{NoMemory, Text, same_bytes};

/// A text with the parameters that it lists, so that it is read once while it is kept, however often its
/// procedure is called. Contracts see the text.
#[derive(Debug, Drop)]
pub struct ReadParameters {
    text: Text,
    all: Vec<Parameter>,
}

impl Model for ReadParameters {
    ghost use Rattle.std.specs.Prelude.{◌≡◌, Ok};
    ghost use Rattle.std.specs.Coded.{coded_list, coded_ℕ};
    ghost use Rattle.txt_core.specs.Names.{Bytes};
    ghost use Rattle.tcl_eval.specs.Parameters.{parameters};

    ghost Value = { Bytes };

    ghost coded = { coded_list coded_ℕ };

    ghost view = { λ read. read.text };

    ghost invariant = { λ read. parameters read.text ≡ Ok read.all.items };
}

impl ReadParameters {
    /// Reads a text, or tells what is wrong with it. The only other error is want of memory.
    pub fn new(alloc: Global, text: &Text) -> Result<Result<ReadParameters, Text>, NoMemory>
        ensures { IfOk result (λ found. ReadAs found text.now) }
    {
        match parameters(alloc, text)? {
            Err(message) => Ok(Err(message)),
            Ok(all) => {
                let text = text.copy(alloc)?;
                Ok(Ok(ReadParameters { text, all }))
            }
        }
    }

    /// The text.
    fn text(&self) -> &Text
        ensures { result.now ≡ self.now }
    {
        &self.text
    }

    /// The parameters.
    pub fn all(&self) -> &[Parameter]
        ensures { parameters self.now ≡ Ok result.now }
    {
        self.all.as_slice()
    }
}

/// The parameters of a text, where they are those that were read.
fn parameters_in<'a>(read: &'a ReadParameters, text: &Text) -> Option<&'a [Parameter]>
    ensures { IfSome result (λ all. parameters text.now ≡ Ok all.now) }
{
    if !same_bytes(read.text().bytes(), text.bytes()) {
        return None;
    }
    Some(read.all())
}

/// The parameters of a text, where they stand at its place.
pub(crate) fn find_parameters<'a>(
    latest: &'a Places<ReadParameters>,
    text: &Text,
) -> Option<&'a [Parameter]>
    ensures { IfSome result (λ all. parameters text.now ≡ Ok all.now) }
{
    match latest.find(text.bytes()) {
        None => None,
        Some(read) => parameters_in(read, text),
    }
}
