//! Texts and their trees or faults. A script is written with `;` between commands, a space between words,
//! a word in parentheses, bytes as `'a'`, a variable as `$a`, an element as `@a(index)` and a bracket as
//! `[script]`; a fault with its place.

use tcl_parse::{
    Command, Fault, Kind, ParseFault, Piece, Script, Word, parse, read_enclosed, read_substitution,
};
use test_rows::Answer;
use txt_core::{MOST_NESTED, Stop, Text};

/// Adds a text between two others.
fn add_between(front: &[u8], text: &Text, back: &[u8], out: &mut Answer) {
    out.add(front);
    out.add(text.bytes());
    out.add(back);
}

/// Adds an element.
#[cycle(shown)]
fn add_element(name: &Text, index: &[Piece], out: &mut Answer) {
    add_between(b"@", name, b"(", out);
    for piece in index {
        add_piece(piece, out);
    }
    out.add(b")")
}

#[cycle(shown)]
fn add_piece(piece: &Piece, out: &mut Answer) {
    match piece {
        Piece::Bytes(text) => add_between(b"'", text, b"'", out),
        Piece::Var(name) => add_between(b"$", name, b"", out),
        Piece::Elem(name, index) => add_element(name, index, out),
        Piece::Sub(script) => {
            out.add(b"[");
            add_script(script, out);
            out.add(b"]");
        }
    }
}

#[cycle(shown)]
fn add_word(word: &Word, out: &mut Answer) {
    out.add(b"(");
    for piece in &word.pieces {
        add_piece(piece, out);
    }
    out.add(b")");
}

#[cycle(shown)]
fn add_command(command: &Command, out: &mut Answer) {
    for (place, word) in command.words.iter().enumerate() {
        out.add(if place == 0 { b"" } else { b" ".as_slice() });
        add_word(word, out);
    }
}

#[cycle(shown)]
fn add_script(script: &Script, out: &mut Answer) {
    for (place, command) in script.commands.iter().enumerate() {
        out.add(if place == 0 { b"" } else { b";".as_slice() });
        add_command(command, out);
    }
}

/// How a fault is named.
fn kind_name(kind: Kind) -> &'static [u8] {
    match kind {
        Kind::Brace => b"Brace ",
        Kind::Quote => b"Quote ",
        Kind::Bracket => b"Bracket ",
        Kind::Variable => b"Variable ",
        Kind::Extra => b"Extra ",
        Kind::Deep => b"Deep ",
    }
}

/// Adds a fault and its place.
fn add_fault(kind: Kind, at: u64, out: &mut Answer) {
    out.add(kind_name(kind));
    out.add_number(at);
}

/// Adds what parsing a text answers.
pub fn parsed(text: &Text, out: &mut Answer) {
    match parse(out.alloc(), text) {
        Ok(script) => add_script(&script, out),
        Err(ParseFault::Unclosed { at, kind }) => add_fault(kind, at, out),
        Err(ParseFault::NoMemory) => out.lack_memory(),
    }
}

/// Adds whether a text is a script.
pub fn is_script(text: &Text, out: &mut Answer) {
    out.add_truth(parse(out.alloc(), text).is_ok());
}

/// How many bytes stand as they are in a command's words.
fn plain_bytes(command: &Command) -> u64 {
    let mut bytes = 0u64;
    for word in &command.words {
        for piece in &word.pieces {
            if let Piece::Bytes(text) = piece {
                bytes = bytes.wrapping_add(text.len() as u64);
            }
        }
    }
    bytes
}

/// Adds how many commands a script has, and how many bytes stand as they are in its words.
fn add_size(script: &Script, out: &mut Answer) {
    let mut bytes = 0u64;
    for command in &script.commands {
        bytes = bytes.wrapping_add(plain_bytes(command));
    }
    out.add_number(script.commands.len() as u64);
    out.add(b" commands, ");
    out.add_number(bytes);
    out.add(b" bytes");
}

/// Adds how large the script of a text is.
pub fn size(text: &Text, out: &mut Answer) {
    match parse(out.alloc(), text) {
        Ok(script) => add_size(&script, out),
        Err(_) => out.add(b"no script"),
    }
}

/// Adds why reading a part stopped.
fn add_stop(stop: Stop<Fault>, out: &mut Answer) {
    match stop {
        Stop::Fault(fault) => {
            out.add(kind_name(fault.kind));
            out.add_number(fault.left as u64);
            out.add(b" left");
        }
        Stop::NoMemory => out.lack_memory(),
    }
}

/// Adds the word in braces or quotes at the front of a text, and what is behind it.
pub fn enclosed(text: &Text, out: &mut Answer) {
    match read_enclosed(out.alloc(), MOST_NESTED, text.bytes()) {
        Ok(Some((word, rest))) => {
            add_word(&word, out);
            out.add(rest);
        }
        Ok(None) => out.add(b"none"),
        Err(stop) => add_stop(stop, out),
    }
}

/// Adds what is substituted at the front of a text, and what is behind it.
pub fn substituted(text: &Text, out: &mut Answer) {
    match read_substitution(out.alloc(), MOST_NESTED, text.bytes()) {
        Ok(Some((piece, rest))) => {
            add_piece(&piece, out);
            out.add(rest);
        }
        Ok(None) => out.add(b"none"),
        Err(stop) => add_stop(stop, out),
    }
}
