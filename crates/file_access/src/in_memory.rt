//! A source and a sink in memory, whose calls fail by number.
ghost use Rattle.std.specs.Prelude.{◌≡◌, ◌⊎◌, ◌↔◌, ◌≤◌, ◌<◌, [], None, Some, length, take, drop, IsTrue, IsOk, IsErr, IfOk, OnOk, OnErr, unwrap_or, string_bytes, is_some, map, min};
ghost use Rattle.std.specs.Option.{option_map};
ghost use Rattle.std.specs.Io.KnownBytes.{Keeps, Consumes, Appends, IsAtEnd};
ghost use Rattle.file_access.specs.Causes.{Rose, raised_count};
ghost use Rattle.file_access.specs.Outside.{IsMissing, Opens};
ghost use Rattle.file_access.specs.Shelf.{file_of, fails_next, found_name, after_select, given_count, taken_from, with_file};
ghost use Rattle.file_access.specs.Stored.{pair_of, left_of, name_of, IsWithin};
ghost use Rattle.file_access.specs.Drawer.{refuses, accepted_count, put_into};

use crate::{Failed, Sink, Source};
use net_base::Memory;
use std::alloc::Global;
use std::marker::Model;

#[derive(Drop)]
struct StoredFile {
    name: String,
    bytes: Vec<u8>,
}

/// Files in memory, by names that differ. Calls fail by their numbers.
#[derive(Drop)]
pub struct MemorySource {
    piece: usize,
    failing: Vec<u64>,
    files: Vec<StoredFile>,
    current: Option<usize>,
    at: usize,
    taken: u64,
    calls: u64,
    faults: u64,
}

impl Model for MemorySource {
    ghost use Rattle.file_access.specs.Shelf.{Shelf};

    ghost Value = { Shelf };

    ghost use Rattle.file_access.specs.Stored.{shelf_of, IsSound};

    ghost view = { shelf_of };

    ghost invariant = { IsSound };
}

impl MemorySource {
    /// A source that holds no file yet, where none is current and no call was made.
    ///
    /// - `piece`: the most bytes that a take gives, at least 1.
    /// - `failing`: the numbers of the calls that fail, each a fault; calls count from 1, selects and takes together.
    ///
    /// Err says that memory was wanting.
    pub fn make(alloc: Global, piece: usize, failing: Vec<u64>) -> Result<Self, Memory>
        requires { 1 ≤ piece }
        ensures { IfOk result (λ s. s ≡ record {
          piece = piece;
          failing = failing.items;
          files = [];
          name = [];
          left = None;
          taken = 0;
          calls = 0;
          faults = 0;
        }) }
    {
        Ok(MemorySource {
            piece,
            failing,
            files: Vec::new(alloc),
            current: None,
            at: 0,
            taken: 0,
            calls: 0,
            faults: 0,
        })
    }

    /// One file more, by a name that none has yet. Err says that memory was wanting; it then holds what it held.
    pub fn add(&mut self, name: String, bytes: Vec<u8>) -> Result<(), Memory>
        requires { file_of self.old.files (string_bytes name) ≡ None }
        ensures ok { OnOk result (self.new ≡ with_file self.old (string_bytes name) bytes.items) }
        ensures err { OnErr result (self.new ≡ self.old) }
    {
        self.files.push(StoredFile { name, bytes })?;
        Ok(())
    }
}

/// Where the file of the name stands.
fn find(files: &[StoredFile], name: &str) -> Option<usize>
    ensures file { left_of files.now result 0 ≡ file_of (map pair_of files.now) name.now }
    ensures name { name_of files.now result ≡ found_name (map pair_of files.now) name.now }
    ensures within { IsWithin files.now result 0 }
{
    'looks: for i in 0..files.len() {
        if files[i].name.as_str() == name {
            return Some(i);
        }
    }
    None
}

/// What is left of the current file.
fn rest_of(files: &[StoredFile], current: Option<usize>, at: usize) -> &[u8]
    requires { IsWithin files.now current at }
    ensures { result.now ≡ unwrap_or (left_of files.now current at) [] }
{
    match current {
        None => &[],
        Some(i) => &files[i].bytes[at..],
    }
}

/// Copies a front of the bytes to the front of the buffer.
fn copy_front(buf: &mut [u8], bytes: &[u8], piece: usize) -> usize
    ensures count { result ≡ min (min piece (length buf.old)) (length bytes.now) }
    ensures bytes { take result buf.new ≡ take result bytes.now }
{
    let count = piece.min(buf.len()).min(bytes.len());
    buf[..count].copy_from_slice(&bytes[..count]);
    count
}

impl Source for MemorySource {
    ghost held = { λ s. Some (λ name. file_of s.files name) };

    ghost left = { λ s. s.left };

    ghost selected = { λ s. s.name };

    ghost is_current = { λ s. is_some s.left };

    ghost taken = { λ s. s.taken };

    ghost faults = { λ s. s.faults };

    fn select(&mut self, name: &str) -> Result<(), Failed>
        ensures exact { self.new ≡ after_select self.old name.now }
        ensures failed { IsErr result ↔ (IsTrue (fails_next self.old.failing self.old.calls)
            ⊎ (file_of self.old.files name.now ≡ None)) }
        ensures later { self.old.faults ≤ self.new.faults }
    {
        let number = self.calls.saturating_add(1);
        let fails = self.failing.contains(&number);
        self.calls = number;
        self.taken = 0;
        self.at = 0;
        if fails {
            self.current = None;
            self.faults = self.faults.saturating_add(1);
            return Err(Failed);
        }
        self.current = find(&self.files, name);
        if self.current.is_some() {
            Ok(())
        } else {
            Err(Failed)
        }
    }

    fn take(&mut self, buf: &mut [u8]) -> Result<usize, Failed>
        requires { 0 < length buf.old }
        ensures exact { self.new ≡ taken_from self.old (length buf.old) }
        ensures failed { IsErr result ↔ IsTrue (fails_next self.old.failing self.old.calls) }
        ensures count { IfOk result (λ n. n ≡ given_count self.old (length buf.old)) }
        ensures bytes { IfOk result (λ n. take n buf.new ≡ take n (unwrap_or self.old.left [])) }
        ensures end { IfOk result (λ n. n ≡ 0 → IsAtEnd self.old.left) }
        ensures later { self.old.faults ≤ self.new.faults }
    {
        let number = self.calls.saturating_add(1);
        let fails = self.failing.contains(&number);
        self.calls = number;
        if fails {
            self.faults = self.faults.saturating_add(1);
            return Err(Failed);
        }
        let count = copy_front(buf, rest_of(&self.files, self.current, self.at), self.piece);
        self.at += count;
        self.taken = self.taken.saturating_add(count as u64);
        Ok(count)
    }
}

/// Bytes in memory, at most as many as there is room for.
#[derive(Drop)]
pub struct MemorySink {
    room: usize,
    piece: usize,
    failing: Vec<u64>,
    bytes: Vec<u8>,
    calls: u64,
    faults: u64,
}

impl Model for MemorySink {
    ghost use Rattle.file_access.specs.Drawer.{Drawer};

    ghost Value = { Drawer };

    ghost use Rattle.file_access.specs.Filled.{drawer_of, HasRoomInside};

    ghost view = { drawer_of };

    ghost invariant = { HasRoomInside };
}

impl MemorySink {
    /// A sink to which nothing was written yet. It reserves its room.
    ///
    /// - `room`: the most bytes that it holds in all. Where they stand there, each put fails, and is a fault.
    /// - `piece`: the most bytes that a put takes, at least 1.
    /// - `failing`: the numbers of the puts that fail, each a fault; they count from 1.
    ///
    /// Err says that memory was wanting.
    pub fn make(alloc: Global, room: usize, piece: usize, failing: Vec<u64>) -> Result<Self, Memory>
        requires { 1 ≤ piece }
        ensures { IfOk result (λ s. s ≡ record {
          room = room;
          piece = piece;
          failing = failing.items;
          bytes = [];
          calls = 0;
          faults = 0;
        }) }
    {
        Ok(MemorySink {
            room,
            piece,
            failing,
            bytes: Vec::with_capacity(alloc, room)?,
            calls: 0,
            faults: 0,
        })
    }

    /// What was written since it was made.
    pub fn bytes(&self) -> &[u8]
        ensures { result.now ≡ self.now.bytes }
    {
        &self.bytes
    }
}

impl Sink for MemorySink {
    ghost written = { λ s. Some s.bytes };

    ghost faults = { λ s. s.faults };

    fn put(&mut self, bytes: &[u8]) -> Result<usize, Failed>
        requires { 0 < length bytes.now }
        ensures exact { self.new ≡ put_into self.old bytes.now }
        ensures failed { IsErr result ↔ IsTrue (refuses self.old) }
        ensures count { IfOk result (λ n. n ≡ accepted_count self.old (length bytes.now)) }
        ensures some { IfOk result (λ n. 0 < n) }
        ensures later { self.old.faults ≤ self.new.faults }
    {
        let number = self.calls.saturating_add(1);
        let fails = self.failing.contains(&number);
        let free = self.room - self.bytes.len();
        self.calls = number;
        if fails || free == 0 {
            self.faults = self.faults.saturating_add(1);
            return Err(Failed);
        }
        let count = self.piece.min(free).min(bytes.len());
        self.bytes.extend_from_slice(&bytes[..count]).unwrap();
        Ok(count)
    }
}
