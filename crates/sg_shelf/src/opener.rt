//! Where files are opened.

ghost use Rattle.std.specs.Prelude.{List, ℕ, Option, IfOk, IsErr};

use std::fs::File;
use std::io;
use std::io::Read;
use std::rt::Files;

/// Opens files for reading, by name.
pub trait Opener {
    /// An opened file.
    type File: Read + Drop;

    /// A file of this name may be opened that has these bytes left, where its reader tells them. Only `open` says so.
    ghost opens: { List ℕ → Option (List ℕ) → Type 0 } = { λ name left. Unit {0} };

    /// A file of this name may not be opened. Only `open` says so.
    ghost refuses: { List ℕ → Type 0 } = { λ name. Unit {0} };

    /// Opens the file of that name.
    fn open(&self, name: &str) -> io::Result<Self::File>
        ensures opened { IfOk result (λ file. opens name.now (Self.File.remaining file)) }
        ensures refused { IsErr result → refuses name.now };
}

/// Opens the files of std, where a name is a path.
#[derive(Drop)]
pub struct PathOpener<R: Files> {
    files: R,
}

impl<R: Files> PathOpener<R> {
    /// An opener of these files, the runtime or a reference to it.
    pub(crate) fn new(files: R) -> PathOpener<R> {
        PathOpener { files }
    }
}

impl<R: Files> Opener for PathOpener<R> {
    type File = R::File;

    // Trusted: that this opens the file of that name. No clause of std says which file it opens, or what a file holds.
    fn open(&self, name: &str) -> io::Result<R::File> {
        File::open(&self.files, name)
    }
}
