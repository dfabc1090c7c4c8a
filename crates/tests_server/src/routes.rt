//! What serves a request, and which filters it passes.

use crate::texts::{add_def, add_word, put, text, words_between};
use cmd_table::{Def, Defs, When};
use std::alloc::Global;
use txt_core::{NoMemory, Text, Words};
use url_tables::{Route, Routes};

/// The registration of a procedure.
fn route(alloc: Global, row: (&str, &str, bool, &str)) -> Def {
    let (method, url, inherit, words) = row;
    Def::Route {
        method: text(alloc, method.as_bytes()),
        url: text(alloc, url.as_bytes()),
        inherit,
        words: words_between(alloc, words, " "),
    }
}

/// The registration of a filter.
fn filter(alloc: Global, row: (When, &str, &str, &str)) -> Def {
    let (when, method, pattern, words) = row;
    Def::Filter {
        when,
        method: text(alloc, method.as_bytes()),
        pattern: text(alloc, pattern.as_bytes()),
        words: words_between(alloc, words, " "),
    }
}

/// The pieces of a path.
fn segments_of(alloc: Global, path: &str) -> Words {
    let mut segments = Words::new(alloc);
    for piece in path.split("/") {
        if !piece.is_empty() {
            add_word(&mut segments, text(alloc, piece.as_bytes()));
        }
    }
    segments
}

/// The first of the words of a route; `-` where there is none.
fn first_word(route: Option<&Route>) -> &[u8] {
    match route {
        None => b"-",
        Some(route) => match route.words.as_slice().first() {
            None => b"-",
            Some(word) => word.bytes(),
        },
    }
}

/// Puts the first of the words that serve a request at the end of a text; `-` where none do.
fn put_served(alloc: Global, all: &mut Text, routes: &Routes, method: &str, path: &str) {
    let segments = segments_of(alloc, path);
    let method = text(alloc, method.as_bytes());
    put(all, first_word(routes.serve(&method, &segments)));
    put(all, b" ");
}

/// Registrations of procedures.
fn route_defs(alloc: Global) -> Defs {
    let mut defs = Defs::new(alloc);
    for &row in REGISTERED {
        add_def(&mut defs, route(alloc, row));
    }
    defs
}

/// What serves each request, one behind the other.
fn listing(alloc: Global, routes: &Routes) -> Text {
    let mut all = Text::empty(alloc);
    for (method, path) in REQUESTS {
        put_served(alloc, &mut all, routes, method, path);
    }
    all
}

/// The tables of registrations.
fn tables(alloc: Global, defs: &Defs) -> Result<Routes, NoMemory> {
    Routes::build(alloc, defs)
}

/// Whether each request is served by what it must be.
fn are_served(alloc: Global) -> bool {
    match tables(alloc, &route_defs(alloc)) {
        Ok(routes) => listing(alloc, &routes).bytes() == SERVED.as_bytes(),
        Err(_) => false,
    }
}

/// Registrations of procedures: the method, the URL, whether what stands below is served too, and the words.
const REGISTERED: &[(&str, &str, bool, &str)] = &[
    ("GET", "/a", true, "first"),
    ("GET", "/a/*.x", true, "second"),
    ("GET", "/n", false, "alone"),
    ("GET", "/n/*.y", false, "below"),
    ("POST", "/", true, "posted"),
    ("GET", "//b//c/", true, "old"),
    ("GET", "/b/c", true, "new"),
    ("GET", "/b/c/d", false, "deep"),
    ("GET", "/b/*.tar.gz", true, "packed"),
    ("GET", "/b/*.", true, "star"),
];

/// Requests: the method and the path.
const REQUESTS: &[(&str, &str)] = &[
    ("GET", "/a/b"),
    ("GET", "/a/b.x"),
    ("GET", "/a/b/c.x"),
    ("GET", "/a"),
    ("GET", "/n"),
    ("GET", "/n/b"),
    ("GET", "/n/b.y"),
    ("GET", "/n/b/c.y"),
    ("GET", "/"),
    ("POST", "/a"),
    ("HEAD", "/a"),
    ("PUT", "/a"),
    ("GET", "/b/c"),
    ("GET", "/b/c/d"),
    ("GET", "/b/c/d/e"),
    ("GET", "/b/x.tar.gz"),
    ("GET", "/b/.tar.gz"),
    ("GET", "/b/*./x"),
    ("GET", "/b/tar.gz"),
];

/// What serves each of them.
const SERVED: &str =
    "first second second first alone - below - - posted first - new deep new packed packed star - ";

#[test]
fn most_segments_then_a_pattern_then_the_latest(rt: HostRuntime) {
    assert!(rt; are_served(rt.alloc()));
}

/// The first words of filters, one behind the other.
fn first_words(alloc: Global, filters: &[Words]) -> Text {
    let mut all = Text::empty(alloc);
    for words in filters {
        if let Some(word) = words.get(0) {
            put(&mut all, word.bytes());
            put(&mut all, b" ");
        }
    }
    all
}

/// The first words of the filters that a request passes, one behind the other.
fn passed(alloc: Global, routes: &Routes, when: When, method: &str, path: &str) -> Text {
    let method = text(alloc, method.as_bytes());
    let path = text(alloc, path.as_bytes());
    match routes.filters(when, &method, &path) {
        Ok(filters) => first_words(alloc, filters.as_slice()),
        Err(_) => text(alloc, b"out of memory"),
    }
}

/// Registrations of filters: the stage, the method, the pattern, and the words.
const FILTERS: &[(When, &str, &str, &str)] = &[
    (When::Trace, "GET", "*", "t1"),
    (When::Preauth, "*", "/a*", "f1 x"),
    (When::Preauth, "GET", "/a/?", "f2"),
    (When::Preauth, "POST", "*", "f3"),
    (When::Trace, "GET", "/a/[a-c]", "t2"),
];

/// Requests at a stage: the method, the path, and the first words of the filters that they pass.
const PASSED: &[(When, &str, &str, &str)] = &[
    (When::Preauth, "GET", "/a/b", "f1 f2 "),
    (When::Preauth, "HEAD", "/a/b", "f1 f2 "),
    (When::Preauth, "POST", "/b", "f3 "),
    (When::Preauth, "POST", "/a", "f1 f3 "),
    (When::Postauth, "GET", "/a/b", ""),
    (When::Trace, "GET", "/a/b", "t1 t2 "),
    (When::Trace, "GET", "/a/d", "t1 "),
];

/// Registrations of filters.
fn filter_defs(alloc: Global) -> Defs {
    let mut defs = Defs::new(alloc);
    for &row in FILTERS {
        add_def(&mut defs, filter(alloc, row));
    }
    defs
}

/// The place of the first request that passes other filters than it must, if there is one.
fn first_wrong(alloc: Global, routes: &Routes) -> Option<usize> {
    for (at, (when, method, path, want)) in PASSED.iter().enumerate() {
        if passed(alloc, routes, *when, method, path).bytes() != want.as_bytes() {
            return Some(at);
        }
    }
    None
}

/// Whether each request passes the filters that it must.
fn are_passed(alloc: Global) -> bool {
    match tables(alloc, &filter_defs(alloc)) {
        Ok(routes) => first_wrong(alloc, &routes).is_none(),
        Err(_) => false,
    }
}

#[test]
fn filters_stand_in_their_order(rt: HostRuntime) {
    assert!(rt; are_passed(rt.alloc()));
}
