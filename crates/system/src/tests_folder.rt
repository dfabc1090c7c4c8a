//! Long pages, and a folder that is changed while its pages are asked.

use super::*;
use crate::tests::{make_folders, remove_folder, write_files};
use crate::tests_visit::text;
use outside::{PageAnswer, Pages};
use std::alloc::{Allocator, Global};
use std::fs::{self, File, Metadata, OpenOptions};
use std::io;
use std::os::unix::fs::symlink;
use std::rt::Files;
use txt_core::{MOST_BYTES, Text};

/// The page at whose look its folder is exchanged.
const PAGE: &str = "system_exchanged/site/in/b.adp";

/// The files of the system, where at the look at a page its folder is exchanged for a link to one outside
/// of the root.
#[derive(Clone, Copy, Drop)]
struct Exchanging<R> {
    files: R,
}

/// Exchanges the page's folder, if that wasn't done.
fn exchange<R: Files>(files: &R) -> io::Result<()> {
    if fs::exists(files, "system_exchanged/kept")? {
        return Ok(());
    }
    fs::rename(files, "system_exchanged/site/in", "system_exchanged/kept")?;
    symlink(files, "../out", "system_exchanged/site/in")
}

impl<R: Files> Files for Exchanging<R> {
    type File = R::File;

    type Dir = R::Dir;

    fn open_file(&self, how: &OpenOptions, path: &str) -> io::Result<R::File> {
        self.files.open_file(how, path)
    }

    fn open_dir(&self, path: &str) -> io::Result<R::Dir> {
        self.files.open_dir(path)
    }

    fn metadata(&self, path: &str) -> io::Result<Metadata> {
        self.files.metadata(path)
    }

    fn symlink_metadata(&self, path: &str) -> io::Result<Metadata> {
        if path == PAGE {
            exchange(&self.files)?;
        }
        self.files.symlink_metadata(path)
    }

    fn copy(&self, from: &str, to: &str) -> io::Result<u64> {
        self.files.copy(from, to)
    }

    fn rename(&self, from: &str, to: &str) -> io::Result<()> {
        self.files.rename(from, to)
    }

    fn remove_file(&self, path: &str) -> io::Result<()> {
        self.files.remove_file(path)
    }

    fn create_dir(&self, path: &str) -> io::Result<()> {
        self.files.create_dir(path)
    }

    fn remove_dir(&self, path: &str) -> io::Result<()> {
        self.files.remove_dir(path)
    }

    fn remove_dir_all<B: Allocator>(&self, alloc: B, path: &str) -> io::Result<()> {
        self.files.remove_dir_all(alloc, path)
    }
}

/// The folders that are made for it.
const FOLDERS: &[&str] = &[
    "system_exchanged",
    "system_exchanged/site",
    "system_exchanged/site/in",
    "system_exchanged/out",
];

/// The page, and a file outside of the root.
const FILES: &[(&str, &[u8])] = &[(PAGE, b"page"), ("system_exchanged/out/b.adp", b"secret")];

/// Makes the folders and the files.
fn make_site(rt: &HostRuntime) -> bool {
    let _old = remove_folder(rt, "system_exchanged");
    make_folders(rt, FOLDERS) && write_files(rt, FILES)
}

/// Whether there is no page in the folder that is exchanged when it is looked at.
fn is_absent(rt: HostRuntime) -> bool {
    let mut pages = FolderPages::new(Exchanging { files: rt }, rt.alloc());
    let _rooted = pages.root(&text(rt.alloc(), b"system_exchanged/site"));
    let answer = pages.page(&text(rt.alloc(), b"/in/b.adp"));
    matches!(answer, PageAnswer::NoPage)
}

/// Whether the folder was exchanged.
fn is_exchanged(rt: &HostRuntime) -> bool {
    fs::exists(rt, "system_exchanged/kept").unwrap_or(false)
}

#[test]
fn no_page_through_an_exchanged_folder(rt: HostRuntime) {
    assert!(rt; make_site(&rt));
    assert!(rt; is_absent(rt) && is_exchanged(&rt));
    assert!(rt; remove_folder(&rt, "system_exchanged"));
}

/// How many bytes the page at a path has; `None` where there is none.
fn length_of<R: Files<File = File> + Copy>(
    pages: &mut FolderPages<R>,
    path: &Text,
) -> Option<usize> {
    match pages.page(path) {
        PageAnswer::Page(page) => Some(page.len()),
        _ => None,
    }
}

/// The lengths of files, and how many bytes are given of each as a page.
const LENGTHS: &[(u64, usize)] = &[
    (0, 0),
    (1_048_576, MOST_BYTES),
    (1_048_577, MOST_BYTES + 1),
    (3_000_000, MOST_BYTES + 1),
];

/// The pages of a folder; those of another where memory wants.
fn long_pages(rt: HostRuntime) -> FolderPages<HostRuntime> {
    let mut pages = FolderPages::new(rt, rt.alloc());
    let _rooted = pages.root(&text(rt.alloc(), b"system_long"));
    pages
}

/// How many lengths of a file are given as they must be.
fn right_lengths(alloc: Global, pages: &mut FolderPages<HostRuntime>, file: &File) -> usize {
    let path = text(alloc, b"/a.adp");
    let mut right = 0usize;
    for (size, given) in LENGTHS {
        let is_set = file.set_len(*size).is_ok();
        let is_given = length_of(pages, &path) == Some(*given);
        right = right.saturating_add(usize::from(is_set && is_given));
    }
    right
}

/// The same of a new file.
fn new_right_lengths(rt: HostRuntime) -> usize {
    let mut pages = long_pages(rt);
    match File::create(&rt, "system_long/a.adp") {
        Ok(file) => right_lengths(rt.alloc(), &mut pages, &file),
        Err(_) => 0,
    }
}

#[test]
fn a_long_page_is_cut_behind_the_limit(rt: HostRuntime) {
    let _old = remove_folder(&rt, "system_long");
    assert!(rt; make_folders(&rt, &["system_long"]));
    assert!(rt; new_right_lengths(rt) == 4);
    assert!(rt; remove_folder(&rt, "system_long"));
}
