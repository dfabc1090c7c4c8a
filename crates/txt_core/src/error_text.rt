//! The texts of errors that several parts of the server give. The only error of these calls is want
//! of memory.

ghost use Rattle.std.specs.Prelude.{◌≡◌, ◌++◌, IfOk, decimal};
ghost use Rattle.txt_core.specs.ErrorTexts.{naming, wrong_words, unknown_subcommand, bad_value, unknown_command, no_integer, no_list, too_long, overflow, no_variable, is_an_array, is_no_array, variable_exists, outside_loop, no_connection, not_in_page, only_in_definition_run, response_given, no_page, page_fault, page_too_long, no_schedule, does_not_apply, no_definition, blueprint_full};

use crate::memory::NoMemory;
use crate::number::write_natural;
use crate::text::Text;
use std::alloc::Global;

/// What stands in front of the name of a variable that isn't there.
pub const CANT_READ: &[u8] = b"can't read \"";

/// What stands behind the name of a variable that isn't there.
pub const NO_SUCH_VARIABLE: &[u8] = b"\": no such variable";

/// What stands in front of the name of a variable that is of another kind than was wanted.
pub const VARIABLE: &[u8] = b"variable \"";

/// What stands behind the name of a variable that is an array.
pub const IS_AN_ARRAY: &[u8] = b"\" is an array";

/// What stands behind the name of a variable that is no array.
pub const IS_NO_ARRAY: &[u8] = b"\" is no array";

/// What stands behind the name of a variable that is there already.
pub const EXISTS: &[u8] = b"\" exists";

/// Three texts as one.
pub fn naming(alloc: Global, front: &[u8], name: &[u8], back: &[u8]) -> Result<Text, NoMemory>
    ensures { IfOk result (λ text. text ≡ naming front.now name.now back.now) }
{
    let mut text = Text::new(alloc, front)?;
    text.append(name)?;
    text.append(back)?;
    Ok(text)
}

/// A command has too few or too many words.
pub fn wrong_words(alloc: Global, command: &[u8]) -> Result<Text, NoMemory>
    ensures { IfOk result (λ text. text ≡ wrong_words command.now) }
{
    naming(alloc, b"wrong number of words for \"", command, b"\"")
}

/// The second word is none of the command's subcommands.
pub fn unknown_subcommand(alloc: Global, word: &[u8], command: &[u8]) -> Result<Text, NoMemory>
    ensures { IfOk result (λ text. text ≡ unknown_subcommand word.now command.now) }
{
    let back = naming(alloc, b"\" of \"", command, b"\"")?;
    naming(alloc, b"unknown subcommand \"", word, back.bytes())
}

/// The command can't take this word.
pub fn bad_value(alloc: Global, word: &[u8], command: &[u8]) -> Result<Text, NoMemory>
    ensures { IfOk result (λ text. text ≡ bad_value word.now command.now) }
{
    let back = naming(alloc, b"\" for \"", command, b"\"")?;
    naming(alloc, b"bad value \"", word, back.bytes())
}

/// No command has this name.
pub fn unknown_command(alloc: Global, name: &[u8]) -> Result<Text, NoMemory>
    ensures { IfOk result (λ text. text ≡ unknown_command name.now) }
{
    naming(alloc, b"invalid command name \"", name, b"\"")
}

/// A text is no number.
pub fn no_integer(alloc: Global, text: &[u8]) -> Result<Text, NoMemory>
    ensures { IfOk result (λ message. message ≡ no_integer text.now) }
{
    naming(alloc, b"expected integer but got \"", text, b"\"")
}

/// A text is no list: it is bad at this byte.
pub fn no_list(alloc: Global, place: u64) -> Result<Text, NoMemory>
    ensures { IfOk result (λ text. text ≡ no_list place) }
{
    let place = write_natural(alloc, place)?;
    naming(alloc, b"bad list at ", place.bytes(), b"")
}

/// A value is over the limit.
pub fn too_long(alloc: Global) -> Result<Text, NoMemory>
    ensures { IfOk result (λ text. text ≡ too_long) }
{
    Text::new(alloc, b"value too long")
}

/// A sum isn't a number of 64 bits with a sign.
pub fn overflow(alloc: Global) -> Result<Text, NoMemory>
    ensures { IfOk result (λ text. text ≡ overflow) }
{
    Text::new(alloc, b"integer overflow")
}

/// A variable isn't there.
pub fn no_variable(alloc: Global, name: &[u8]) -> Result<Text, NoMemory>
    ensures { IfOk result (λ text. text ≡ no_variable name.now) }
{
    naming(alloc, CANT_READ, name, NO_SUCH_VARIABLE)
}

/// A scalar was wanted, and the variable is an array.
pub fn is_an_array(alloc: Global, name: &[u8]) -> Result<Text, NoMemory>
    ensures { IfOk result (λ text. text ≡ is_an_array name.now) }
{
    naming(alloc, VARIABLE, name, IS_AN_ARRAY)
}

/// An array was wanted, and the variable is none.
pub fn is_no_array(alloc: Global, name: &[u8]) -> Result<Text, NoMemory>
    ensures { IfOk result (λ text. text ≡ is_no_array name.now) }
{
    naming(alloc, VARIABLE, name, IS_NO_ARRAY)
}

/// A name to be linked is that of a variable already.
pub fn variable_exists(alloc: Global, name: &[u8]) -> Result<Text, NoMemory>
    ensures { IfOk result (λ text. text ≡ variable_exists name.now) }
{
    naming(alloc, VARIABLE, name, EXISTS)
}

/// `break` or `continue`, by its name, where no loop is.
pub fn outside_loop(alloc: Global, name: &[u8]) -> Result<Text, NoMemory>
    ensures { IfOk result (λ text. text ≡ outside_loop name.now) }
{
    naming(alloc, b"invoked \"", name, b"\" outside of a loop")
}

/// A command needs a connection, and the run has none.
pub fn no_connection(alloc: Global) -> Result<Text, NoMemory>
    ensures { IfOk result (λ text. text ≡ no_connection) }
{
    Text::new(alloc, b"no connection")
}

/// A command belongs in a page, and none is open.
pub fn not_in_page(alloc: Global) -> Result<Text, NoMemory>
    ensures { IfOk result (λ text. text ≡ not_in_page) }
{
    Text::new(alloc, b"not in a page")
}

/// A command makes a definition of the blueprint, and the run may not.
pub fn only_in_definition_run(alloc: Global) -> Result<Text, NoMemory>
    ensures { IfOk result (λ text. text ≡ only_in_definition_run) }
{
    Text::new(alloc, b"only in a definition run")
}

/// There is a response already.
pub fn response_given(alloc: Global) -> Result<Text, NoMemory>
    ensures { IfOk result (λ text. text ≡ response_given) }
{
    Text::new(alloc, b"response already given")
}

/// A page isn't there.
pub fn no_page(alloc: Global, path: &[u8]) -> Result<Text, NoMemory>
    ensures { IfOk result (λ text. text ≡ no_page path.now) }
{
    naming(alloc, b"no page \"", path, b"\"")
}

/// A page can't be read.
pub fn page_fault(alloc: Global, path: &[u8]) -> Result<Text, NoMemory>
    ensures { IfOk result (λ text. text ≡ page_fault path.now) }
{
    naming(alloc, b"can't read page \"", path, b"\"")
}

/// A page is over the limit of a value.
pub fn page_too_long(alloc: Global, path: &[u8]) -> Result<Text, NoMemory>
    ensures { IfOk result (λ text. text ≡ page_too_long path.now) }
{
    naming(alloc, b"page \"", path, b"\" is too long")
}

/// Nothing is scheduled under this id.
pub fn no_schedule(alloc: Global, id: &[u8]) -> Result<Text, NoMemory>
    ensures { IfOk result (λ text. text ≡ no_schedule id.now) }
{
    naming(alloc, b"no schedule \"", id, b"\"")
}

/// A definition, by its place in the list, doesn't apply.
pub fn does_not_apply(alloc: Global, place: u64) -> Result<Text, NoMemory>
    ensures { IfOk result (λ text. text ≡ does_not_apply place) }
{
    let place = write_natural(alloc, place)?;
    naming(alloc, b"definition ", place.bytes(), b" does not apply")
}

/// A command of a blueprint's script, by its place, is no definition.
pub fn no_definition(alloc: Global, place: u64) -> Result<Text, NoMemory>
    ensures { IfOk result (λ text. text ≡ no_definition place) }
{
    let place = write_natural(alloc, place)?;
    naming(alloc, b"command ", place.bytes(), b" is no definition")
}

/// Definitions are over the limits of a blueprint.
pub fn blueprint_full(alloc: Global) -> Result<Text, NoMemory>
    ensures { IfOk result (λ text. text ≡ blueprint_full) }
{
    Text::new(alloc, b"blueprint full")
}
