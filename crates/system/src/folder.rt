//! The pages of a folder.

ghost use Rattle.std.specs.Prelude.{◌≡◌};

use crate::counts::Faults;
use outside::{PageAnswer, Pages};
use std::alloc::Global;
use std::fs::{self, File};
use std::io::{self, ErrorKind, Read};
use std::os::unix::fs::MetadataExt;
use std::rt::Files;
use txt_core::{MOST_BYTES, NoMemory, Text};

/// How many bytes of a page are read at most: one more than a value may have.
const MOST_READ: u64 = MOST_BYTES as u64 + 1;

/// How often a file is opened anew, where the way to it was changed while it was opened.
const MOST_OPENINGS: u32 = 3;

/// The pages below a folder of the system. It tells nothing of them.
///
/// A path names the folders below the root, one after the other, and the file, with one slash before
/// each but for the first, where it may be left out. There is no page where a name is empty, `.` or
/// `..`, where a name stands for a symbolic link or for anything else than a folder or, at the end, a
/// plain file, and where the path isn't UTF-8. A page is read anew each time, and whole, but for one that
/// is longer than a value may be: it is given up to the first byte over that limit, so that it is still
/// too long.
///
/// Where somebody else changes the folder while a page is asked, each name is looked at again after the
/// file was opened. Where one stands for something else by then the page is asked anew, and after three
/// times there is none. Two things aren't seen: a name that was changed between the first looks and the
/// opening and changed back before the second ones, by which a page may come from outside of the root, and
/// a named pipe that was put in the place of the file just before the opening, which then waits for a
/// writer. So only those who are trusted may write below the root.
#[derive(Drop)]
pub struct FolderPages<R> {
    rt: R,
    alloc: Global,
    root: Text,
    pub(crate) faults: Faults,
}

impl<R> FolderPages<R> {
    /// The pages below the folder in which the program was started.
    pub fn new(rt: R, alloc: Global) -> FolderPages<R> {
        FolderPages {
            rt,
            alloc,
            root: Text::empty(alloc),
            faults: Faults::none(),
        }
    }
}

/// Whether a path may name a page: none of its names is empty, `.` or `..`.
fn is_plain(path: &str) -> bool {
    for name in path.split('/') {
        if name.is_empty() || name == "." || name == ".." {
            return false;
        }
    }
    !path.as_bytes().contains(&0)
}

/// The way to a plain file.
#[derive(Drop)]
struct Way {
    place: String,
    /// What stands at each name, from the first below the root to that of the file.
    found: Vec<Node>,
}

/// What tells a file or a folder from all others: its device and its number there.
#[derive(Clone, Copy, PartialEq, Eq)]
struct Node {
    device: u64,
    number: u64,
}

impl Node {
    /// That of the file or the folder with these properties.
    fn of(metadata: &fs::Metadata) -> Node {
        Node {
            device: metadata.dev(),
            number: metadata.ino(),
        }
    }
}

impl<R: Files<File = File>> FolderPages<R> {
    /// The way to the plain file at a path below the root; `None` where there is none.
    fn way(&self, path: &str) -> io::Result<Option<Way>> {
        let root = str::from_utf8(self.root.bytes()).map_err(|_| io::Error::from(
            ErrorKind::NotFound,
        ))?;
        let mut place = String::new(self.alloc);
        place.push_str(root)?;
        let mut found = Vec::new(self.alloc);
        let mut at_file = None;
        for name in path.split('/') {
            if let Some(folder) = &at_file {
                if !fs::Metadata::is_dir(folder) {
                    return Ok(None);
                }
            }
            if !place.is_empty() {
                place.push('/')?;
            }
            place.push_str(name)?;
            let seen = fs::symlink_metadata(&self.rt, place.as_str())?;
            found.push(Node::of(&seen))?;
            at_file = Some(seen);
        }
        match at_file {
            Some(seen) if seen.is_file() => Ok(Some(Way { place, found })),
            _ => Ok(None),
        }
    }

    /// The plain file at the end of a way, opened; `None` where the way to it leads elsewhere by then.
    fn open_at(&self, path: &str, way: &Way) -> io::Result<Option<File>> {
        let file = File::open(&self.rt, way.place.as_str())?;
        let opened = file.metadata()?;
        let Some(again) = self.way(path)? else {
            return Ok(None);
        };
        let is_same = way.found == again.found && way.found.last() == Some(&Node::of(&opened));
        if is_same && opened.is_file() {
            Ok(Some(file))
        } else {
            Ok(None)
        }
    }

    /// The plain file at a path below the root, opened; `None` where there is none.
    fn opened(&self, path: &str) -> io::Result<Option<File>> {
        for _try in 0..MOST_OPENINGS {
            let Some(way) = self.way(path)? else {
                return Ok(None);
            };
            if let Some(file) = self.open_at(path, &way)? {
                return Ok(Some(file));
            }
        }
        Ok(None)
    }

    /// The page at a path, up to the first byte that is too many.
    fn read_page(&self, path: &Text) -> io::Result<Option<Text>> {
        let Ok(path) = str::from_utf8(path.bytes()) else {
            return Ok(None);
        };
        let path = path.strip_prefix('/').unwrap_or(path);
        if !is_plain(path) {
            return Ok(None);
        }
        match self.opened(path)? {
            None => Ok(None),
            Some(file) => {
                let mut bytes = Vec::new(self.alloc);
                file.take(MOST_READ).read_to_end(&mut bytes)?;
                Ok(Some(Text::from_vec(bytes)))
            }
        }
    }
}

impl<R: Files<File = File> + Copy> Pages for FolderPages<R> {
    ghost use Rattle.std.specs.Prelude.{None};

    ghost held = { λ s. None };

    ghost faults = { λ s. s.faults.count };

    fn root(&mut self, folder: &Text) -> Result<(), NoMemory> {
        self.root = folder.copy(self.alloc)?;
        Ok(())
    }

    fn page(&mut self, path: &Text) -> PageAnswer {
        match self.read_page(path) {
            Ok(Some(page)) => PageAnswer::Page(page),
            Ok(None) => PageAnswer::NoPage,
            Err(error) => match error.kind() {
                ErrorKind::NotFound | ErrorKind::NotADirectory | ErrorKind::InvalidFilename => {
                    PageAnswer::NoPage
                }
                ErrorKind::OutOfMemory => PageAnswer::NoMemory,
                _ => {
                    self.faults.rise();
                    PageAnswer::Failed
                }
            },
        }
    }

    fn copy(&self) -> Result<FolderPages<R>, NoMemory> {
        Ok(FolderPages {
            rt: self.rt,
            alloc: self.alloc,
            root: self.root.copy(self.alloc)?,
            faults: Faults::none(),
        })
    }
}
