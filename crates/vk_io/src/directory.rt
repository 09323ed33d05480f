//! The files of the system as a store.
ghost use Rattle.std.specs.Prelude.{◌≡◌, ℕ, ◌≤◌, List, false, None, IsTrue, IfOk, OnOk, length};
ghost use Rattle.vk_io.specs.Counts.{SameCounts};
ghost use Rattle.vk_io.specs.Inner.Tally.{count_of, has_place};

use crate::outside::Outside;
use crate::store::Store;
use crate::tally::Tally;
use std::alloc::{AllocError, Global};
use std::fs::{File, OpenOptions};
use std::io;
use std::io::{Read, Seek, SeekFrom, Write};
use std::rt::Files;

/// A file that is open for reading, and the offset of its next byte.
#[derive(Drop)]
struct Reading<F: Read + Drop> {
    name: String,
    at: u64,
    file: F,
}

impl<F: Read + Drop> Reading<F> {
    /// Whether the bytes at this offset of this file come next.
    fn is_at(&self, name: &str, at: u64) -> bool {
        self.at == at && self.name.as_str() == name
    }

    /// Reads once, and answers how many bytes came.
    fn read(&mut self, into: &mut [u8]) -> io::Result<usize>
        ensures { IfOk result (λ n. n ≤ length into.new) }
    {
        let count = self.file.read(into)?;
        self.at = self.at.saturating_add(count as u64);
        Ok(count)
    }
}

/// A store over the system's files. A name is a path, from the folder in which the process runs
/// unless it is absolute.
///
/// The store tells no contents. It keeps two counts for each name that it was given, and makes
/// their place before it touches a file. The file that was read last stays open, and reading goes
/// on in it where the last piece ended, so that a pipe can be read.
#[derive(Drop)]
pub struct DirStore<R: Files + Drop> {
    alloc: Global,
    files: R,
    reads: Tally,
    writes: Tally,
    reading: Option<Reading<R::File>>,
}

/// Opens a file for reading from the offset `at` on.
fn open_at<R: Files>(files: &R, name: &str, at: u64) -> io::Result<R::File> {
    let mut file = File::open(files, name)?;
    if at > 0 {
        file.seek(SeekFrom::Start(at))?;
    }
    Ok(file)
}

/// Makes an empty file, in place of one that is there.
fn create_empty<R: Files>(files: &R, name: &str) -> io::Result<()> {
    File::create(files, name)?;
    Ok(())
}

/// Writes all of the bytes at the end of a file, which it makes where there is none.
fn write_at_end<R: Files>(files: &R, name: &str, bytes: &[u8]) -> io::Result<()> {
    let mut file = OpenOptions::new()
        .append(true)
        .create(true)
        .open(files, name)?;
    file.write_all(bytes)
}

impl<R: Files + Drop> DirStore<R> {
    /// A store over the files that the runtime gives.
    pub fn new(alloc: Global, files: R) -> DirStore<R>
        ensures reads { (q : List ℕ) → (⟦<DirStore<R> as Store>⟧.state result).reads q ≡ 0 }
        ensures writes { (q : List ℕ) → (⟦<DirStore<R> as Store>⟧.state result).writes q ≡ 0 }
    {
        DirStore {
            alloc,
            files,
            reads: Tally::new(alloc),
            writes: Tally::new(alloc),
            reading: None,
        }
    }

    /// Makes the places of both counts of `name`.
    fn make_places(&mut self, name: &str) -> Result<(), AllocError>
        ensures reads { OnOk result (IsTrue (has_place self.new.reads name.now)) }
        ensures writes { OnOk result (IsTrue (has_place self.new.writes name.now)) }
        ensures same_reads { SameCounts (count_of self.old.reads) (count_of self.new.reads) }
        ensures same_writes { SameCounts (count_of self.old.writes) (count_of self.new.writes) }
    {
        self.reads.place(self.alloc, name)?;
        self.writes.place(self.alloc, name)
    }
}

/// Reads once at the offset `at` of the file `name`, in the file that is open where its next byte
/// is that one, else in one that is opened under this text of the name.
fn read_at<R: Files>(
    files: &R,
    reading: &mut Option<Reading<R::File>>,
    name: &str,
    key: String,
    at: u64,
    into: &mut [u8],
) -> io::Result<usize>
    ensures { IfOk result (λ n. n ≤ length into.new) }
{
    if let Some(open) = reading {
        if open.is_at(name, at) {
            return open.read(into);
        }
    }
    let mut open = Reading {
        name: key,
        at,
        file: open_at(files, name, at)?,
    };
    let count = open.read(into)?;
    *reading = Some(open);
    Ok(count)
}

impl<R: Files + Drop> Store for DirStore<R> {
    ghost state = { λ store. record { tells = false; file = λ _. None; reads = count_of store.reads; writes = count_of store.writes; is_sound = false } };

    fn fill(&mut self, name: &str, at: u64, into: &mut [u8]) -> Result<usize, Outside> {
        self.make_places(name)?;
        let key = String::from_str(self.alloc, name)?;
        match read_at(&self.files, &mut self.reading, name, key, at, into) {
            Ok(count) => Ok(count),
            Err(_) => {
                self.reads.raise(name);
                Err(Outside::Failed)
            }
        }
    }

    fn start(&mut self, name: &str) -> Result<(), Outside> {
        self.make_places(name)?;
        self.reading = None;
        if create_empty(&self.files, name).is_err() {
            self.writes.raise(name);
            return Err(Outside::Failed);
        }
        Ok(())
    }

    fn append(&mut self, name: &str, bytes: &[u8]) -> Result<(), Outside> {
        self.make_places(name)?;
        self.reading = None;
        if write_at_end(&self.files, name, bytes).is_err() {
            self.writes.raise(name);
            return Err(Outside::Failed);
        }
        Ok(())
    }
}
