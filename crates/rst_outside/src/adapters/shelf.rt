//! The files of the system as a shelf.

ghost use Rattle.std.specs.Prelude.{◌≡◌, ◌↔◌, ◌<◌, ◌≤◌, length, take, drop, IfOk, IsErr, OnOk, OnErr};
ghost use Rattle.rst_outside.specs.Counts.{Rose, next_count};
ghost use Rattle.rst_outside.specs.Shelf.{OfFile};
ghost use Rattle.rst_outside.specs.Untold.{untold_shelf};

use crate::faults::count_fault;
use crate::shelf::Shelf;
use crate::source::Failed;
use std::alloc::AllocGlobal;
use std::fs::File;
use std::io;
use std::io::{ErrorKind, Read, Seek, SeekFrom};
use std::marker::Model;
use std::rt::Files;

/// The files of the system, named from the working folder. The file that was read last is kept open, so that
/// one reading of it is of one file, even where another takes its name meanwhile, and that a pipe can be read.
/// Contracts see what reaches the files and a count of faults.
#[derive(Drop)]
pub struct DirShelf<R: Files + AllocGlobal + Drop> {
    files: R,
    kept: Option<OpenedFile<R::File>>,
    faults: u64,
}

impl<R: Files + AllocGlobal + Drop> Model for DirShelf<R> {
    ghost use Rattle.rst_outside.specs.Untold.{Counted};

    ghost Value = { Counted R };

    ghost view = { λ s. record { inner = s.files; faults = s.faults } };
}

impl<R: Files + AllocGlobal + Drop> DirShelf<R> {
    /// The files that the runtime reaches, as a shelf that has not failed yet. It may be lent, as `&rt`.
    pub fn new(files: R) -> Self
        ensures { result ≡ record { inner = files; faults = 0 } }
    {
        DirShelf {
            files,
            kept: None,
            faults: 0,
        }
    }
}

impl<R: Files + AllocGlobal + Drop> Shelf for DirShelf<R> {
    ghost state = { untold_shelf };

    /// Reads once from the file, which is opened where it isn't the kept one. A read that begins where the
    /// last one ended goes on there, and any other seeks its place first, which no pipe can. An error of any
    /// kind is a fault, and so are an empty name and want of memory to hold the name. After it no file is kept.
    fn read_at(&mut self, name: &str, at: u64, into: &mut [u8]) -> Result<usize, Failed>
        ensures within { IfOk result (λ n. n ≤ length into.new) }
        ensures bytes { IfOk result (λ n. OfFile (untold_shelf self.old).files name.now
            (λ file. take n into.new ≡ take n (drop at file))) }
        ensures end { IfOk result (λ n. 0 < length into.new →
            OfFile (untold_shelf self.old).files name.now (λ file. (n ≡ 0) ↔ (length file ≤ at))) }
        ensures files { (untold_shelf self.new).files ≡ (untold_shelf self.old).files }
        ensures count { self.old.faults ≤ self.new.faults }
        ensures failed { OnErr result (Rose self.old.faults self.new.faults) }

        // No file has an empty name, and a fault raises the count by one.
        ensures named { length name.now ≡ 0 → IsErr result }
        ensures after { OnOk result (self.new ≡ self.old) }
        ensures after_fault { OnErr result
            (self.new ≡ record self.old { faults = next_count self.old.faults }) }
    {
        match read_kept(&self.files, &mut self.kept, name, at, into) {
            Ok(n) => Ok(n),
            Err(_) => Err(count_fault(&mut self.faults)),
        }
    }
}

/// A file that was opened, its name, and the place where the next read of it begins.
#[derive(Drop)]
struct OpenedFile<F: Drop> {
    name: String,
    file: F,
    place: u64,
}

/// Reads once from the byte `at` of the file `name`, which is the kept one or is opened, and keeps it where the
/// read didn't fail.
fn read_kept<R: Files + AllocGlobal>(
    files: &R,
    kept: &mut Option<OpenedFile<R::File>>,
    name: &str,
    at: u64,
    into: &mut [u8],
) -> io::Result<usize>
    ensures within { IfOk result (λ n. n ≤ length into.new) }
    ensures named { length name.now ≡ 0 → IsErr result }
{
    let mut opened = match kept.take() {
        _ if name.is_empty() => return Err(io::Error::from(ErrorKind::NotFound)),
        Some(opened) if opened.name.as_str() == name => opened,
        _ => open(files, name)?,
    };
    let n = read_from(&mut opened, at, into)?;
    *kept = Some(opened);
    Ok(n)
}

/// Opens the file, to be read from its start.
fn open<R: Files + AllocGlobal>(files: &R, name: &str) -> io::Result<OpenedFile<R::File>> {
    Ok(OpenedFile {
        name: String::from_str(files.alloc(), name)?,
        file: File::open(files, name)?,
        place: 0,
    })
}

/// Reads once from the byte `at`, which is sought where the file doesn't stand there.
fn read_from<F: Read + Seek + Drop>(
    opened: &mut OpenedFile<F>,
    at: u64,
    into: &mut [u8],
) -> io::Result<usize>
    ensures { IfOk result (λ n. n ≤ length into.new) }
{
    if at != opened.place {
        opened.file.seek(SeekFrom::Start(at))?;
    }
    let n = opened.file.read(into)?;
    opened.place = at.saturating_add(n as u64);
    Ok(n)
}
