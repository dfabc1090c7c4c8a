use std::alloc::{AllocError, Global};
use txt_core::{NoMemory, Text, write_int, write_natural};

/// What is written behind a row: bytes as far as memory sufficed, and whether it did.
#[derive(Drop)]
pub struct Answer {
    alloc: Global,
    text: Text,
    lacks_memory: bool,
}

impl Answer {
    /// Nothing yet.
    pub fn new(alloc: Global) -> Answer {
        Answer {
            alloc,
            text: Text::empty(alloc),
            lacks_memory: false,
        }
    }

    /// Where the answer's memory comes from.
    pub fn alloc(&self) -> Global {
        self.alloc
    }

    /// The bytes as far as memory sufficed.
    pub fn bytes(&self) -> &[u8] {
        self.text.bytes()
    }

    /// Adds bytes.
    pub fn add(&mut self, bytes: &[u8]) {
        if self.text.append(bytes).is_err() {
            self.lacks_memory = true;
        }
    }

    /// Says that memory ran out.
    pub fn lack_memory(&mut self) {
        self.lacks_memory = true;
    }

    /// Adds a text, if memory sufficed for it.
    pub fn add_made(&mut self, text: &Result<Text, NoMemory>) {
        match text {
            Ok(text) => self.add(text.bytes()),
            Err(_) => self.lack_memory(),
        }
    }

    /// Adds a number.
    pub fn add_number(&mut self, number: u64) {
        self.add_made(&write_natural(self.alloc, number));
    }

    /// Adds a place.
    pub fn add_place(&mut self, place: i64) {
        self.add_made(&write_int(self.alloc, place));
    }

    /// Adds `yes` or `no`.
    pub fn add_truth(&mut self, is_so: bool) {
        self.add(if is_so { b"yes" } else { b"no".as_slice() });
    }

    /// Adds each word with a bar behind it.
    pub fn add_words(&mut self, words: &[Text]) {
        for word in words {
            self.add(word.bytes());
            self.add(b"|");
        }
    }

    /// The answer as a line spells it: a byte that isn't printed by its escape, and so a backquote.
    pub fn spelled(&self) -> Result<String, AllocError> {
        if self.lacks_memory {
            return "no memory".to_string(self.alloc);
        }
        let mut shown = String::new(self.alloc);
        for byte in self.text.bytes() {
            add_spelled(*byte, &mut shown)?;
        }
        Ok(shown)
    }
}

/// Adds one byte as an answer spells it.
fn add_spelled(byte: u8, shown: &mut String) -> Result<(), AllocError> {
    match byte {
        b'\n' => shown.push_str("`n"),
        b'\t' => shown.push_str("`t"),
        b'\r' => shown.push_str("`r"),
        b' '..=b'_' | b'a'..=b'~' => shown.push(char::from(byte)),
        _ => {
            shown.push_str("`x")?;
            shown.push(hex_digit(byte / 16))?;
            shown.push(hex_digit(byte % 16))
        }
    }
}

/// The digit of a number below 16.
fn hex_digit(number: u8) -> char {
    char::from(match number {
        0..=9 => b'0'.wrapping_add(number),
        _ => b'a'.wrapping_add(number.wrapping_sub(10)),
    })
}
