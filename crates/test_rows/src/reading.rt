use std::alloc::Global;
use txt_core::{NoMemory, Text, Words, digit};

/// What stands between the fields of a row.
const BETWEEN: &str = " | ";

/// The name of a row.
pub fn row_name(line: &str) -> &str {
    match line.split_once(BETWEEN) {
        Some((name, _)) => name,
        None => line,
    }
}

/// The fields of a row.
pub fn read_fields(alloc: Global, line: &str) -> Result<Words, NoMemory> {
    let mut fields = Words::new(alloc);
    for field in line.split(BETWEEN).skip(1) {
        fields.add(read_field(alloc, field)?)?;
    }
    Ok(fields)
}

/// What a field spells.
fn read_field(alloc: Global, field: &str) -> Result<Text, NoMemory> {
    let mut read = Field {
        text: Text::empty(alloc),
        mark: 0,
    };
    read.add(alloc, field)?;
    Ok(read.text)
}

/// A field as far as it is read, and where the last part to be repeated begins.
#[derive(Drop)]
struct Field {
    text: Text,
    mark: usize,
}

impl Field {
    /// Adds what a spelling stands for.
    fn add(&mut self, alloc: Global, field: &str) -> Result<(), NoMemory> {
        for (place, piece) in field.split("`").enumerate() {
            if place == 0 {
                self.text.append(piece.as_bytes())?;
            } else {
                self.add_escape(alloc, piece)?;
            }
        }
        Ok(())
    }

    /// Adds what stands behind a backquote.
    fn add_escape(&mut self, alloc: Global, piece: &str) -> Result<(), NoMemory> {
        match piece.as_bytes() {
            [b'{', behind @ ..] => {
                self.mark = self.text.len();
                self.text.append(behind)
            }
            [b'}', ..] => self.repeat(alloc, piece),
            [b'x', high, low, behind @ ..] => {
                let byte = digit(*high).wrapping_mul(16).wrapping_add(digit(*low));
                self.text.append(&[byte])?;
                self.text.append(behind)
            }
            [letter, behind @ ..] => {
                self.text.append(meant(*letter))?;
                self.text.append(behind)
            }
            [] => Ok(()),
        }
    }

    /// Has what stands behind the mark as often as the number behind a brace says.
    fn repeat(&mut self, alloc: Global, piece: &str) -> Result<(), NoMemory> {
        let unit = self.unit(alloc)?;
        let (count, behind) = count_of(piece);
        for _ in 1..count {
            self.text.append(unit.bytes())?;
        }
        self.text.append(behind)
    }

    /// What stands behind the mark.
    fn unit(&self, alloc: Global) -> Result<Text, NoMemory> {
        match self.text.bytes().get(self.mark..) {
            Some(unit) => Text::new(alloc, unit),
            None => Ok(Text::empty(alloc)),
        }
    }
}

/// The number behind a brace, and what stands behind it.
fn count_of(piece: &str) -> (u64, &[u8]) {
    match piece.strip_prefix("}") {
        Some(rest) => match rest.split_once(";") {
            Some((count, behind)) => (number_in(count.as_bytes()), behind.as_bytes()),
            None => (0, b""),
        },
        None => (0, b""),
    }
}

/// What a letter behind a backquote stands for.
fn meant(letter: u8) -> &'static [u8] {
    match letter {
        b's' => b" ",
        b'n' => b"\n",
        b't' => b"\t",
        b'r' => b"\r",
        b'v' => b"\x0b",
        b'f' => b"\x0c",
        b'b' => b"|",
        b'q' => b"`",
        _ => b"",
    }
}

/// The number that digits write.
fn number_in(digits: &[u8]) -> u64 {
    let mut number = 0u64;
    for byte in digits {
        number = number.wrapping_mul(10).wrapping_add(digit(*byte) as u64);
    }
    number
}

/// The number that a field of digits is.
pub fn count_in(field: &Text) -> u64 {
    number_in(field.bytes())
}
