//! The words of the command line.

use std::env::{Env, FillError};
use txt_core::{NoMemory, Text, Words};

/// How many bytes a word has at most, before more room is made for it.
const ROOM: usize = 256;

/// The words behind the program's name, with the bytes that they have. The one error is want of memory.
pub fn command_words<R: Env + AllocGlobal>(rt: &R) -> Result<Words, NoMemory> {
    let mut words = Words::new(rt.alloc());
    for place in 1..usize::MAX {
        let Some(word) = word_at(rt, place)? else {
            break;
        };
        words.add(word)?;
    }
    Ok(words)
}

/// The word at a place of the command line, at which the program's name is the first; `None` behind the
/// last.
fn word_at<R: Env + AllocGlobal>(rt: &R, place: usize) -> Result<Option<Text>, NoMemory> {
    let mut bytes = Vec::new(rt.alloc());
    let mut room = ROOM;
    for _try in 0..usize::BITS {
        bytes.resize(room, 0)?;
        match rt.arg(place, bytes.as_mut_slice()) {
            Ok(count) => {
                bytes.truncate(count);
                return Ok(Some(Text::from_vec(bytes)));
            }
            Err(FillError::NotPresent) => return Ok(None),
            Err(FillError::TooLong) => room = room.saturating_mul(2),
        }
    }
    Err(NoMemory)
}

#[cfg(test)]
mod tests {
    //! Words of any bytes and of any length.

    use super::command_words;
    use std::env::{Env, FillError};
    use std::test::*;

    /// A word for which more room has to be made twice.
    const LONG: [u8; 1_000] = [b'x'; 1_000];

    /// A command line of which one word isn't UTF-8.
    const GIVEN: [&[u8]; 5] = [b"ns_server", b"serve", b"\xff\xfe", b"", &LONG];

    /// The words of that command line.
    #[derive(Clone, Copy)]
    struct Given;

    impl Env for Given {
        fn arg(&self, i: usize, buf: &mut [u8]) -> Result<usize, FillError> {
            let Some(word) = GIVEN.get(i) else {
                return Err(FillError::NotPresent);
            };
            if buf.len() < word.len() {
                return Err(FillError::TooLong);
            }
            buf[..word.len()].copy_from_slice(word);
            Ok(word.len())
        }

        fn var(&self, _name: &str, _buf: &mut [u8]) -> Result<usize, FillError> {
            Err(FillError::NotPresent)
        }

        fn var_at(&self, _i: usize, _buf: &mut [u8]) -> Result<usize, FillError> {
            Err(FillError::NotPresent)
        }
    }

    #[test]
    fn words_are_bytes(rt: HostRuntime) -> Result<(), Fail> {
        let words = command_words(&(Given, rt.alloc()))?;
        assert_eq!(rt; words.len(), 4);
        for (word, given) in words.as_slice().iter().zip(GIVEN.iter().skip(1)) {
            assert_eq!(rt; word.bytes(), *given);
        }
        Ok(())
    }
}
