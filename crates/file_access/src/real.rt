//! The files and the standard output of the system. They tell nothing of what they hold.
ghost use Rattle.std.specs.Prelude.{◌≡◌, [], None, is_some, string_bytes};

use crate::{Failed, Sink, Source};
use std::io::{Read, Write};
use std::rt::Files;
use std::{fs, io};

/// The name of the standard input: descriptor 0, as the program got it.
const STANDARD_INPUT: &str = "/dev/stdin";

/// What bytes are taken from.
#[derive(Drop)]
enum Opened<F, I> {
    File(F),
    StandardInput(I),
}

/// Files by their paths, and by `/dev/stdin` the standard input, which isn't opened: what is left of it is read, also where
/// it is a socket, a pipe of another user or a file that was read in part. It keeps the name of the current file, in memory
/// that it has from the beginning.
///
/// One file at a time is open: the one before is closed first, so where the program has no standard input none that is
/// opened is in its place when it is read.
#[derive(Drop)]
pub struct FileSource<R: Files + Input + AllocGlobal> {
    files: R,
    name: String,
    current: Option<Opened<R::File, R::Reader>>,
    taken: u64,
    faults: u64,
}

impl<R: Files + Input + AllocGlobal> FileSource<R> {
    /// No file is current, and nothing has failed. The name of the current file is kept in the memory of this text; a
    /// select by a name that is longer asks for more, and without it fails, which is a fault.
    pub fn make(files: R, name: String) -> Self
        ensures current { result.current ≡ None }
        ensures name { string_bytes result.name ≡ [] }
        ensures counts { (result.taken ≡ 0) × (result.faults ≡ 0) }
    {
        let mut name = name;
        name.clear();
        FileSource {
            files,
            name,
            current: None,
            taken: 0,
            faults: 0,
        }
    }

    /// What the name stands for, if it can be read.
    fn open(&self, name: &str) -> io::Result<Opened<R::File, R::Reader>> {
        if name == STANDARD_INPUT {
            Ok(Opened::StandardInput(self.files.reader()))
        } else {
            Ok(Opened::File(fs::open(&self.files, name)?))
        }
    }
}

impl<R: Files + Input + AllocGlobal> Source for FileSource<R> {
    ghost held = { λ _. None };

    ghost left = { λ _. None };

    ghost selected = { λ s. string_bytes s.name };

    ghost is_current = { λ s. is_some s.current };

    ghost taken = { λ s. s.taken };

    ghost faults = { λ s. s.faults };

    fn select(&mut self, name: &str) -> Result<(), Failed> {
        self.taken = 0;
        self.name.clear();
        self.current = None;
        match (self.name.push_str(name), self.open(name)) {
            (Ok(()), Ok(opened)) => {
                self.current = Some(opened);
                Ok(())
            }
            _ => {
                self.name.clear();
                self.faults = self.faults.saturating_add(1);
                Err(Failed)
            }
        }
    }

    fn take(&mut self, buf: &mut [u8]) -> Result<usize, Failed> {
        let read = match &mut self.current {
            None => unreachable!(),
            Some(Opened::File(file)) => file.read(buf),
            Some(Opened::StandardInput(input)) => input.read(buf),
        };
        match read {
            Ok(count) => {
                self.taken = self.taken.saturating_add(count as u64);
                Ok(count)
            }
            Err(_) => {
                self.faults = self.faults.saturating_add(1);
                Err(Failed)
            }
        }
    }
}

/// The standard output.
#[derive(Drop)]
pub struct StdoutSink<R: Print> {
    output: R,
    faults: u64,
}

impl<R: Print> StdoutSink<R> {
    /// Nothing has failed.
    pub fn make(output: R) -> Self
        ensures { result ≡ record { output = output; faults = 0 } }
    {
        StdoutSink { output, faults: 0 }
    }
}

impl<R: Print> Sink for StdoutSink<R> {
    ghost written = { λ _. None };

    ghost faults = { λ s. s.faults };

    fn put(&mut self, bytes: &[u8]) -> Result<usize, Failed> {
        match io::writer(&self.output).write(bytes) {
            Ok(count) if count > 0 => Ok(count),
            _ => {
                self.faults = self.faults.saturating_add(1);
                Err(Failed)
            }
        }
    }
}
