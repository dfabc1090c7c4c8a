//! Cases of the crates on texts: what no clause of them says. Each line of standard input is a row, and is
//! written to standard output with its answer; the file `stdout` has the answers that the rules give.
#![tactic(auto)]

mod errors;
mod expressions;
mod lists;
mod pages;
mod scripts;
mod sharing;
mod texts;

use std::alloc::Global;
use std::io;
use test_rows::{Answer, Row, find, read_fields, row_name};
use txt_core::{NoMemory, Text};

/// What a row tries.
#[derive(Clone, Copy)]
enum Case {
    Elements,
    Quote,
    QuoteAgain,
    Behind,
    Apart,
    OneByOne,
    Expr,
    Unary,
    Binary,
    Parse,
    IsScript,
    Size,
    Enclosed,
    Substituted,
    Pieces,
    Beside,
    Error,
    Number,
    Truth,
    Glob,
    Escape,
    Trim,
    Same,
    List,
    Keys,
    Copied,
    Pair,
    Append,
    Share,
    Grow,
    GrowInPlace,
    Known,
}

/// The cases by their names.
const CASES: &[(&str, Case)] = &[
    ("elements", Case::Elements),
    ("quote", Case::Quote),
    ("quote_again", Case::QuoteAgain),
    ("behind", Case::Behind),
    ("apart", Case::Apart),
    ("one_by_one", Case::OneByOne),
    ("expr", Case::Expr),
    ("unary", Case::Unary),
    ("binary", Case::Binary),
    ("parse", Case::Parse),
    ("is_script", Case::IsScript),
    ("size", Case::Size),
    ("enclosed", Case::Enclosed),
    ("substituted", Case::Substituted),
    ("pieces", Case::Pieces),
    ("beside", Case::Beside),
    ("error", Case::Error),
    ("number", Case::Number),
    ("truth", Case::Truth),
    ("glob", Case::Glob),
    ("escape", Case::Escape),
    ("trim", Case::Trim),
    ("same", Case::Same),
    ("list", Case::List),
    ("keys", Case::Keys),
    ("copied", Case::Copied),
    ("pair", Case::Pair),
    ("append", Case::Append),
    ("share", Case::Share),
    ("grow", Case::Grow),
    ("grow_in_place", Case::GrowInPlace),
    ("known", Case::Known),
];

/// Adds the answer to a row.
fn add_answer(case: Case, row: &Row<'_>, out: &mut Answer) {
    match case {
        Case::Elements => lists::elements(row.first, out),
        Case::Quote => lists::quoted(row.all, out),
        Case::QuoteAgain => lists::quoted_again(row.first, row.behind, out),
        Case::Behind => lists::behind(row.first, row.behind, out),
        Case::Apart => lists::apart(row.first, row.behind, out),
        Case::OneByOne => lists::one_by_one(row.first, row.behind, out),
        Case::Expr => expressions::value(row.first, out),
        Case::Unary => expressions::unary(row.first, row.second, out),
        Case::Binary => expressions::binary(row.first, row.second, row.third, out),
        Case::Parse => scripts::parsed(row.first, out),
        Case::IsScript => scripts::is_script(row.first, out),
        Case::Size => scripts::size(row.first, out),
        Case::Enclosed => scripts::enclosed(row.first, out),
        Case::Substituted => scripts::substituted(row.first, out),
        Case::Pieces => pages::cut(row.first, out),
        Case::Beside => pages::beside(row.first, row.behind, out),
        Case::Error => errors::error_text(row.first, row.second, row.third, out),
        Case::Number => texts::number(row.first, out),
        Case::Truth => texts::truth(row.first, out),
        Case::Glob => texts::matches(row.first, row.second, out),
        Case::Escape => texts::escaped(row.first, out),
        Case::Trim => texts::trimmed(row.first, out),
        Case::Same => texts::same(row.first, row.second, out),
        Case::List => texts::list_of_two(row.first, row.second, out),
        Case::Keys => texts::found(row.first, row.second, row.behind, out),
        Case::Copied => texts::copied(row.first, row.behind, out),
        Case::Pair => texts::pair_copied(row.first, out),
        Case::Append => sharing::appended(row.first, row.second, out),
        Case::Share => sharing::shared(row.first, out),
        Case::Grow => sharing::grown(row.first, out),
        Case::GrowInPlace => sharing::grown_in_place(row.first, row.second, out),
        Case::Known => sharing::known(out),
    }
}

/// Adds the answer to a row of this name.
fn add_named(name: &str, row: &Row<'_>, out: &mut Answer) {
    match find(CASES, name.as_bytes()) {
        Some(case) => add_answer(case, row, out),
        None => out.add(b"no row"),
    }
}

/// What is written behind a row.
fn answer(alloc: Global, line: &str) -> Result<String, NoMemory> {
    let fields = read_fields(alloc, line)?;
    let none = Text::empty(alloc);
    let mut out = Answer::new(alloc);
    add_named(
        row_name(line),
        &Row::new(fields.as_slice(), &none),
        &mut out,
    );
    Ok(out.spelled()?)
}

fn main(rt: HostRuntime) -> io::Result<()> {
    for line in rt.lines(rt.alloc()) {
        let line = line?;
        match answer(rt.alloc(), line.as_str()) {
            Ok(answer) => println!(rt; "{line} => {answer}")?,
            Err(NoMemory) => println!(rt; "{line} => no memory")?,
        }
    }
    Ok(())
}
