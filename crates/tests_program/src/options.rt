//! Command lines, and what is read of them.

use serve_options::{Options, Refused, asked_for, read_options};
use std::alloc::Global;
use std::test::*;
use txt_core::{NoMemory, Text, Words, write_natural};

/// The options that a command line can't do without.
const REQUIRED: &str = "serve --root site --start /start --listen 127.0.0.1:8080";

/// What is refused beside the options that are required.
const REFUSED: &[&[u8]] = &[
    b" --workers 0",
    b" --workers 17",
    b" --workers",
    b" --workers four",
    b" --workers 1 --workers 1",
    b" --queue 0",
    b" --queue 1025",
    b" --queue -1",
    b" --queue=\xff",
    b" --connections -1",
    b" --connections 4294967296",
    b" --root other",
    b" --port 80",
    b" -w 4",
    b" more",
    b" --help",
    b" --version",
];

/// What is refused as it stands.
const FAULTY: &[&[u8]] = &[
    b"serve",
    b"serve --start /start --listen 127.0.0.1:8080",
    b"serve --root site --listen 127.0.0.1:8080",
    b"serve --root site --start /start",
    b"serve --root --start /start --listen 127.0.0.1:8080",
    b"--help",
];

/// The words of a line, which blanks split.
fn words_of(alloc: Global, line: &[u8]) -> Result<Words, NoMemory> {
    let mut words = Words::new(alloc);
    for word in line.split(|byte| *byte == b' ') {
        words.add(Text::new(alloc, word)?)?;
    }
    Ok(words)
}

/// The texts of options and then their numbers, with a blank behind each.
fn line_of(alloc: Global, options: &Options) -> Result<Text, NoMemory> {
    let mut line = Text::empty(alloc);
    for text in [&options.root, &options.start, &options.listen] {
        line.append(text.bytes())?;
        line.append(b" ")?;
    }
    let numbers = [
        u64::from(options.workers),
        u64::from(options.queue),
        u64::from(options.connections),
    ];
    for number in numbers {
        line.append(write_natural(alloc, number)?.bytes())?;
        line.append(b" ")?;
    }
    Ok(line)
}

/// What was read: the options, or that there are none.
fn told(alloc: Global, read: &Result<Options, Refused>) -> Result<Text, NoMemory> {
    match read {
        Ok(options) => line_of(alloc, options),
        Err(_) => Text::new(alloc, b"refused"),
    }
}

/// What is read of a line.
fn read_of(alloc: Global, line: &[u8]) -> Result<Text, NoMemory> {
    let words = words_of(alloc, line)?;
    let read = read_options(alloc, &words);
    told(alloc, &read)
}

/// The required options and more.
fn line_with(alloc: Global, more: &[u8]) -> Result<Text, NoMemory> {
    let mut line = Text::new(alloc, REQUIRED.as_bytes())?;
    line.append(more)?;
    Ok(line)
}

/// What is read of the required options and more.
fn read_with(alloc: Global, more: &[u8]) -> Result<Text, NoMemory> {
    let line = line_with(alloc, more)?;
    read_of(alloc, line.bytes())
}

/// Whether the words of a line are refused as bad.
fn is_refused(alloc: Global, line: &[u8]) -> Result<bool, NoMemory> {
    let words = words_of(alloc, line)?;
    let read = read_options(alloc, &words);
    Ok(matches!(&read, Err(Refused::BadWords)))
}

/// Whether the required options and more are refused as bad.
fn is_refused_with(alloc: Global, more: &[u8]) -> Result<bool, NoMemory> {
    let line = line_with(alloc, more)?;
    is_refused(alloc, line.bytes())
}

#[test]
fn defaults(rt: HostRuntime) -> Result<(), Fail> {
    let read = read_with(rt.alloc(), b"")?;
    assert_eq!(rt;
        read.bytes(),
        b"site /start 127.0.0.1:8080 4 64 0 ".as_slice()
    );
    Ok(())
}

#[test]
fn all_options(rt: HostRuntime) -> Result<(), Fail> {
    let more = b" --connections=4294967295 --workers 16 --queue=1024";
    let read = read_with(rt.alloc(), more)?;
    let want = b"site /start 127.0.0.1:8080 16 1024 4294967295 ";
    assert_eq!(rt; read.bytes(), want.as_slice());
    Ok(())
}

#[test]
fn faulty_words(rt: HostRuntime) -> Result<(), Fail> {
    for &more in REFUSED {
        assert!(rt; is_refused_with(rt.alloc(), more)?, "{more:?}");
    }
    for &line in FAULTY {
        assert!(rt; is_refused(rt.alloc(), line)?, "{line:?}");
    }
    Ok(())
}

/// Whether the words of a line ask for the help or the version.
fn asks(alloc: Global, line: &str) -> Result<bool, NoMemory> {
    let words = words_of(alloc, line.as_bytes())?;
    Ok(asked_for(alloc, &words).is_some())
}

#[test]
fn help_and_version(rt: HostRuntime) -> Result<(), Fail> {
    assert!(rt; asks(rt.alloc(), "serve --help")?);
    assert!(rt; asks(rt.alloc(), "serve --version")?);
    assert!(rt; !asks(rt.alloc(), "serve --port 80")?);
    assert!(rt; !asks(rt.alloc(), REQUIRED)?);
    Ok(())
}
