//! When connections close, and how their answers are counted.

use http_req::Request;
use outside::Answer;
use serving::{Behind, after_request, asks_close, closes, counted};
use std::alloc::{AllocGlobal, Global};
use std::process::Abort;
use std::test::Fail;
use txt_core::{NoMemory, Pairs, Text, Words};

/// Versions with the value of a Connection field, and whether such a request asks to close, one a line.
const CLOSES: &str = "1 close => yes
1 Close => yes
1 keep-alive, CLOSE => yes
1 close ,te => yes
1 a,\tclose\t,b => yes
1 keep-alive => no
1 closed => no
1 clos => no
1 close te => no
1 close;q=1 => no
1  => no
0 keep-alive => yes
0  => yes";

/// Adds a field.
fn add_field(alloc: Global, fields: &mut Pairs, name: &[u8], value: &[u8]) -> Result<(), NoMemory> {
    let name = Text::new(alloc, name)?;
    fields.add((name, Text::new(alloc, value)?))
}

/// The fields of a request.
fn fields(alloc: Global, value: &str) -> Result<Pairs, NoMemory> {
    let mut fields = Pairs::new(alloc);
    add_field(alloc, &mut fields, b"Host", b"close")?;
    add_field(alloc, &mut fields, b"cOnnection", value.as_bytes())?;
    Ok(fields)
}

/// A request of a version with the value of a Connection field.
fn request(alloc: Global, minor: u8, value: &str) -> Result<Request, NoMemory> {
    Ok(Request {
        method: Text::new(alloc, b"GET")?,
        target: Text::new(alloc, b"/")?,
        segments: Words::new(alloc),
        query: Text::empty(alloc),
        minor,
        fields: fields(alloc, value)?,
        body: Text::empty(alloc),
        peer: Text::empty(alloc),
    })
}

/// Whether a request asks to close, whose version and value a line writes.
fn closes_as_asked(alloc: Global, asked: &str) -> Result<bool, Fail> {
    let (minor, value) = asked.split_once(' ').ok_or("a line has a version")?;
    let minor = if minor == "0" { 0 } else { 1 };
    Ok(asks_close(&request(alloc, minor, value)?))
}

/// Looks at the request of a line.
fn check_close<R: Abort + AllocGlobal>(rt: &R, line: &str) -> Result<(), Fail> {
    let (asked, want) = line.split_once(" => ").ok_or("a line has an arrow")?;
    assert_eq!(rt;
        closes_as_asked(rt.alloc(), asked)?,
        want == "yes",
        "{line}"
    );
    Ok(())
}

#[test]
fn connections_close_as_requests_ask(rt: HostRuntime) -> Result<(), Fail> {
    let mut count = 0u64;
    for line in CLOSES.lines() {
        check_close(&rt, line)?;
        count = count.wrapping_add(1);
    }
    assert_eq!(rt; count, 13);
    Ok(())
}

/// What a count becomes by an answer with a text of two bytes.
fn counted_said(alloc: Global, count: u64) -> Result<u64, NoMemory> {
    Ok(counted(count, &Answer::Said(Text::new(alloc, b"ab")?)))
}

/// What a count becomes by a page of two bytes.
fn counted_page(alloc: Global, count: u64) -> Result<u64, NoMemory> {
    Ok(counted(count, &Answer::Page(Text::new(alloc, b"ab")?)))
}

#[test]
fn connections_have_their_share(rt: HostRuntime) -> Result<(), Fail> {
    assert_eq!(rt; after_request(false, 99, 8_388_608), Behind::GoesOn);
    assert_eq!(rt; after_request(false, 100, 0), Behind::Spent);
    assert_eq!(rt; after_request(false, 1, 8_388_609), Behind::Spent);
    assert_eq!(rt; after_request(true, 100, 8_388_609), Behind::Closing);
    assert_eq!(rt; after_request(true, 1, 0), Behind::Closing);
    assert!(rt; closes(false, 100, 0));
    assert!(rt; !closes(false, 99, 8_388_608));
    assert!(rt; closes(true, 1, 0));
    Ok(())
}

#[test]
fn answers_are_counted(rt: HostRuntime) -> Result<(), Fail> {
    assert_eq!(rt; counted_said(rt.alloc(), u64::MAX)?, u64::MAX);
    assert_eq!(rt; counted_page(rt.alloc(), 5)?, 7);
    assert_eq!(rt; counted(5, &Answer::NoPage), 5);
    Ok(())
}
