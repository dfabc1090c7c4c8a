//! The texts of errors.

use std::alloc::Global;
use test_rows::{Answer, count_in, find};
use txt_core::{NoMemory, Text, error_text};

/// An error.
#[derive(Clone, Copy)]
enum Error {
    WrongWords,
    UnknownSubcommand,
    BadValue,
    UnknownCommand,
    NoInteger,
    NoList,
    NoVariable,
    IsAnArray,
    IsNoArray,
    VariableExists,
    OutsideLoop,
    NoPage,
    PageFault,
    PageTooLong,
    NoSchedule,
    DoesNotApply,
    NoDefinition,
    TooLong,
    Overflow,
    NoConnection,
    NotInPage,
    OnlyInDefinitionRun,
    ResponseGiven,
    BlueprintFull,
}

/// The errors by their names.
const ERRORS: &[(&str, Error)] = &[
    ("wrong_words", Error::WrongWords),
    ("unknown_subcommand", Error::UnknownSubcommand),
    ("bad_value", Error::BadValue),
    ("unknown_command", Error::UnknownCommand),
    ("no_integer", Error::NoInteger),
    ("no_list", Error::NoList),
    ("no_variable", Error::NoVariable),
    ("is_an_array", Error::IsAnArray),
    ("is_no_array", Error::IsNoArray),
    ("variable_exists", Error::VariableExists),
    ("outside_loop", Error::OutsideLoop),
    ("no_page", Error::NoPage),
    ("page_fault", Error::PageFault),
    ("page_too_long", Error::PageTooLong),
    ("no_schedule", Error::NoSchedule),
    ("does_not_apply", Error::DoesNotApply),
    ("no_definition", Error::NoDefinition),
    ("too_long", Error::TooLong),
    ("overflow", Error::Overflow),
    ("no_connection", Error::NoConnection),
    ("not_in_page", Error::NotInPage),
    ("only_in_definition_run", Error::OnlyInDefinitionRun),
    ("response_given", Error::ResponseGiven),
    ("blueprint_full", Error::BlueprintFull),
];

/// The text of an error about a word, and about a command of which it is a word.
fn text_of(alloc: Global, error: Error, word: &Text, of: &Text) -> Result<Text, NoMemory> {
    match error {
        Error::WrongWords => error_text::wrong_words(alloc, word.bytes()),
        Error::UnknownSubcommand => error_text::unknown_subcommand(alloc, word.bytes(), of.bytes()),
        Error::BadValue => error_text::bad_value(alloc, word.bytes(), of.bytes()),
        Error::UnknownCommand => error_text::unknown_command(alloc, word.bytes()),
        Error::NoInteger => error_text::no_integer(alloc, word.bytes()),
        Error::NoList => error_text::no_list(alloc, count_in(word)),
        Error::NoVariable => error_text::no_variable(alloc, word.bytes()),
        Error::IsAnArray => error_text::is_an_array(alloc, word.bytes()),
        Error::IsNoArray => error_text::is_no_array(alloc, word.bytes()),
        Error::VariableExists => error_text::variable_exists(alloc, word.bytes()),
        Error::OutsideLoop => error_text::outside_loop(alloc, word.bytes()),
        Error::NoPage => error_text::no_page(alloc, word.bytes()),
        Error::PageFault => error_text::page_fault(alloc, word.bytes()),
        Error::PageTooLong => error_text::page_too_long(alloc, word.bytes()),
        Error::NoSchedule => error_text::no_schedule(alloc, word.bytes()),
        Error::DoesNotApply => error_text::does_not_apply(alloc, count_in(word)),
        Error::NoDefinition => error_text::no_definition(alloc, count_in(word)),
        Error::TooLong => error_text::too_long(alloc),
        Error::Overflow => error_text::overflow(alloc),
        Error::NoConnection => error_text::no_connection(alloc),
        Error::NotInPage => error_text::not_in_page(alloc),
        Error::OnlyInDefinitionRun => error_text::only_in_definition_run(alloc),
        Error::ResponseGiven => error_text::response_given(alloc),
        Error::BlueprintFull => error_text::blueprint_full(alloc),
    }
}

/// Adds the text of an error about a word, and about a command of which it is a word.
pub fn error_text(name: &Text, word: &Text, of: &Text, out: &mut Answer) {
    match find(ERRORS, name.bytes()) {
        Some(error) => out.add_made(&text_of(out.alloc(), error, word, of)),
        None => out.add(b"no error"),
    }
}
