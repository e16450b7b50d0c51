//! The files of a real folder.

ghost use Rattle.std.specs.Prelude.{◌≡◌, ◌<◌, ◌≤◌, ◌++◌, ℕ, Some, None, false, IfOk, IfSome, OnOk, codes, decimal, string_bytes};
ghost use Rattle.std.specs.Io.KnownBytes.{Appends};
ghost use Rattle.std.specs.IoError.{error_kind};
ghost use Rattle.std.specs.Path.{path_buf_bytes, path_bytes, path_join};
ghost use Rattle.om_io.specs.DirShelf.{Answers, WasRead, WasWritten, count_after};
ghost use Rattle.om_io.specs.Shelf.{FailsByCount, FitsIn, IsTakenOf, NoneFalls};

use crate::{Shelf, ShelfFail, Taken};
use om_base::Bytes;
use std::alloc::Global;
use std::fs::OpenFile;
use std::io::{ErrorKind, Read, Write};
use std::path::{Path, PathBuf};
use std::{fs, io, rt};

/// The files of a folder. A name is a path from there on, and an absolute one is itself.
///
/// One count of takes and one of puts stand for every name.
#[derive(Drop)]
pub struct DirShelf<'a, R> {
    files: &'a R,
    folder: Path<'a>,
    failed_takes: u64,
    failed_puts: u64,
}

impl<'a, R: rt::Files> DirShelf<'a, R> {
    /// The files of `folder`.
    pub fn new(files: &'a R, folder: &'a str) -> DirShelf<'a, R>
        ensures folder { path_bytes result.folder ≡ folder.now }
        ensures failed_takes { result.failed_takes ≡ 0 }
        ensures failed_puts { result.failed_puts ≡ 0 }
    {
        DirShelf {
            files,
            folder: Path::new(folder),
            failed_takes: 0,
            failed_puts: 0,
        }
    }

    /// Where the file of that name is.
    fn path_of(&self, alloc: Global, name: &str) -> io::Result<PathBuf>
        ensures { IfOk result (λ path. path_buf_bytes path ≡ path_join (path_bytes self.now.folder) name.now) }
    {
        let mut path = PathBuf::new(alloc);
        path.push(self.folder)?;
        path.push(name)?;
        Ok(path)
    }

    /// The file of that name, unless it has more than `most` bytes.
    fn read(&self, alloc: Global, name: &str, most: u64) -> io::Result<Taken>
        ensures fits { IfOk result (FitsIn most) }
        ensures read { IfOk result (WasRead R.File.remaining most) }
    {
        let path = self.path_of(alloc, name)?;
        let file = fs::open(self.files, path.as_path())?;
        read_whole(alloc, file, most)
    }

    /// Makes the name hold these bytes. A file, or what isn't there yet, holds them at once or not at all.
    fn replace(&self, alloc: Global, name: &str, bytes: &[u8]) -> io::Result<()>
        ensures { OnOk result (WasWritten R.File.contents bytes.now) }
    {
        let path = self.path_of(alloc, name)?;
        match fs::symlink_metadata(self.files, path.as_path()) {
            Ok(found) if !found.is_file() => write_over(self.files, path.as_path(), bytes),
            Err(error) if error.kind() != ErrorKind::NotFound => Err(error),
            _ => write_whole(alloc, self.files, path.as_str(), bytes),
        }
    }
}

/// All that a file has left, unless that is more than `most` bytes. Reads one byte more, at most.
fn read_whole<F: Read + Drop>(alloc: Global, file: F, most: u64) -> io::Result<Taken>
    ensures fits { IfOk result (FitsIn most) }
    ensures taken { IfSome (F.remaining file) (λ bytes. IfOk result (IsTakenOf (Some bytes) most)) }
{
    let mut bytes = Vec::new(alloc);
    file.take(most.saturating_add(1)).read_to_end(&mut bytes)?;
    if bytes.len() as u64 > most {
        return Ok(Taken::Longer);
    }
    Ok(Taken::Whole(Bytes::from_vec(bytes)))
}

/// Writes these bytes to what is at `path`, as it stands.
fn write_over<R: rt::Files>(files: &R, path: Path<'_>, bytes: &[u8]) -> io::Result<()>
    ensures { OnOk result (WasWritten R.File.contents bytes.now) }
{
    let mut file = fs::File::create(files, path)?;
    file.write_all(bytes)
}

/// How many names are tried for a part that is being written.
const PART_NAMES: u32 = 100;

/// A new file beside the one at `path`, and where it is.
fn new_part<R: rt::Files>(alloc: Global, files: &R, path: &str) -> io::Result<(R::File, String)>
    ensures { IfOk result (λ made. (number : ℕ) × (number < 100)
        × (string_bytes made.1 ≡ path.now ++ codes ".omni-part" ++ decimal number)) }
{
    for number in 0..PART_NAMES {
        let part = format!(in alloc; "{path}.omni-part{number}")?;
        match fs::File::create_new(files, part.as_str()) {
            Ok(file) => return Ok((file, part)),
            Err(error) if error.kind() == ErrorKind::AlreadyExists => {}
            Err(error) => return Err(error),
        }
    }
    Err(ErrorKind::AlreadyExists.into())
}

/// Writes all of these bytes to a file that was just made, and waits until the system keeps them.
fn fill<F: Write + OpenFile>(file: &mut F, bytes: &[u8]) -> io::Result<()>
    ensures { OnOk result (Appends (F.contents file.old) (F.contents file.new) bytes.now) }
{
    file.write_all(bytes)?;
    file.sync_all()
}

/// Writes a file beside the one at `path`, and moves it there once it is whole.
fn write_whole<R: rt::Files>(alloc: Global, files: &R, path: &str, bytes: &[u8]) -> io::Result<()>
    ensures { OnOk result (WasWritten R.File.contents bytes.now) }
{
    let (mut file, part) = new_part(alloc, files, path)?;
    let outcome = match fill(&mut file, bytes) {
        Ok(()) => fs::rename(files, part.as_str(), path),
        Err(error) => Err(error),
    };
    if outcome.is_err() {
        // What is told is the first error.
        let _ = fs::remove_file(files, part.as_str());
    }
    outcome
}

/// What a call answers by what the system did. A failure is counted.
fn answered<T>(outcome: io::Result<T>, failures: &mut u64) -> Result<T, ShelfFail>
    ensures answer { Answers (λ error. error_kind error ≡ ErrorKind.OutOfMemory) outcome result }
    ensures count { failures.new ≡ count_after failures.old result }
    ensures later { failures.old ≤ failures.new }
{
    match outcome {
        Ok(value) => Ok(value),
        Err(error) if error.kind() == ErrorKind::OutOfMemory => Err(ShelfFail::NoMemory),
        Err(_) => {
            *failures = failures.saturating_add(1);
            Err(ShelfFail::Failed)
        }
    }
}

impl<'a, R: rt::Files> Shelf for DirShelf<'a, R> {
    ghost told = { λ it. record { files = None; failed_takes = λ _. it.failed_takes; failed_puts = λ _. it.failed_puts; is_faultless = false } };

    /// Reads one byte more than `most`, at most.
    fn take(&mut self, alloc: Global, name: &str, most: u64) -> Result<Taken, ShelfFail>
        ensures fits { IfOk result (FitsIn most) }
        ensures read { IfOk result (WasRead R.File.remaining most) }
        ensures cause { FailsByCount (λ _. self.old.failed_takes) (λ _. self.new.failed_takes) name.now result }
        ensures puts { NoneFalls (λ _. self.old.failed_puts) (λ _. self.new.failed_puts) }
        ensures state { self.new ≡ record self.old { failed_takes = count_after self.old.failed_takes result } }
    {
        answered(self.read(alloc, name, most), &mut self.failed_takes)
    }

    /// Writes a new file beside the one of that name, which is then replaced by it. A put that fails, or
    /// is cut off, leaves the name as it was. What is no file, as a link or a device, is written to as it
    /// stands, and a failure leaves there what was written.
    fn put(&mut self, alloc: Global, name: &str, bytes: &[u8]) -> Result<(), ShelfFail>
        ensures written { OnOk result (WasWritten R.File.contents bytes.now) }
        ensures cause { FailsByCount (λ _. self.old.failed_puts) (λ _. self.new.failed_puts) name.now result }
        ensures takes { NoneFalls (λ _. self.old.failed_takes) (λ _. self.new.failed_takes) }
        ensures state { self.new ≡ record self.old { failed_puts = count_after self.old.failed_puts result } }
    {
        answered(self.replace(alloc, name, bytes), &mut self.failed_puts)
    }
}
