// A file as stable storage: its bytes are the pages.
ghost use Rattle.std.specs.Prelude.{◌≡◌, ◌-◌, ◌<◌, ◌≤◌, is_ok, if◌then◌else◌, vec_len};
ghost use Rattle.std.specs.Result.{result_unwrap_or};
ghost use Rattle.storage.specs.ByteNumbers.{overwritten};
ghost use Rattle.storage.specs.Files.{Accepted, count_in, file_held, file_length, file_of, file_stored, left_in, page_in, place, record_in};
ghost use Rattle.storage.specs.Opened.{opened};
ghost use Rattle.storage.specs.Records.{record_bytes, records_with};
ghost use Rattle.storage.specs.Storages.{answered, stored, updated};
ghost use Rattle.std.proofs.Common.{rules};

use crate::entry::Entry;
use crate::fault::{Reason, StorageFault};
use crate::file::layout::Layout;
use crate::file::opening::open;
use crate::file::records::{put_record, record_at};
use crate::page::Page;
use crate::stable::Storage;
use crate::stable::memory::Cell;

// The bytes, and what they are a file of.
#[derive(Drop)]
pub struct FileStorage {
    bytes: Vec<u8>,
    // How many replicas it has: 0 where the bytes are no file, as `replicas` answers. Clauses name
    // this number, and would unwrap an Option in each.
    count: usize,
    ghost few: { count ≤ 15 },
    ghost room: { (0 < count → file_length count ≤ vec_len bytes) },
    ghost file: { (0 < count → file_held bytes.items count ≡ bytes.items) },
}

impl FileStorage {
    // A storage over the bytes of a file. Bytes that `open` refuses are one of 0 replicas.
    pub fn take<E: Entry>(bytes: Vec<u8>) -> FileStorage
        ensures bytes { result.bytes ≡ bytes }
        ensures count { result.count ≡ result_unwrap_or (opened E.KIND bytes.items) 0 }
        ensures file { Accepted E.KIND bytes.items → result.count ≡ count_in bytes.items }
        ensures same { Accepted E.KIND bytes.items → file_of result.count E.KIND (records_with (page_in bytes.items result.count) (left_in bytes.items result.count)) ≡ bytes.items }
    {
        let count = open::<E>(&bytes).unwrap_or(0);
        FileStorage { bytes, count }
    }

    // Gives the bytes back: where there are replicas, the file of the pages that are there now.
    pub fn into_bytes(self) -> Vec<u8>
        ensures bytes { result ≡ self.bytes }
        ensures file { 0 < self.count → file_held result.items self.count ≡ result.items }
    {
        let FileStorage { bytes, count: _ } = self;
        bytes
    }

    // Where the record of replica i begins.
    fn place(&self, i: usize) -> usize
        requires { i < self.now.count }
        ensures { result ≡ place self.now.count i }
    {
        Layout { count: self.count }.place(i)
    }

    // The record of replica i.
    fn record(&self, i: usize) -> Result<Cell, StorageFault>
        ensures { result ≡ answered self.now.count i (record_in self.now.bytes.items self.now.count i) }
    {
        if i < self.count {
            Ok(record_at(&self.bytes, self.place(i)))
        } else {
            Err(StorageFault::new(Reason::NoSuchReplica, i))
        }
    }

    // Writes a record over the 36 bytes of replica i's.
    fn put(&mut self, i: usize, cell: Cell)
        requires { i < self.old.count }
        ensures pages { page_in self.new.bytes.items self.new.count ≡ updated (page_in self.old.bytes.items self.old.count) i cell.page }
        ensures lefts { left_in self.new.bytes.items self.new.count ≡ updated (left_in self.old.bytes.items self.old.count) i cell.left }
        ensures size { self.new.count ≡ self.old.count }
        ensures bytes { self.new.bytes.items ≡ overwritten self.old.bytes.items (place self.old.count i) (record_bytes cell) }
    {
        let k = self.place(i);
        put_record(&mut self.bytes, k, cell);
    }
}

// Three of the bodies are alike in each storage of cells: a trait under this one, with its clauses, would be
// longer.
impl Storage for FileStorage {
    ghost replicas = { λ f. f.count };

    ghost page = { λ f i. page_in f.bytes.items f.count i };

    ghost left = { λ f i. left_in f.bytes.items f.count i };

    ghost layer = { λ _ _. 0 };

    ghost layers = { Prim.search rules };

    fn replicas(&self) -> usize {
        self.count
    }

    fn page(&self, i: usize) -> Result<Page, StorageFault> {
        Ok(self.record(i)?.page)
    }

    fn stores_left(&self, i: usize) -> Result<u32, StorageFault> {
        Ok(self.record(i)?.left)
    }

    // Of the bytes it changes the 36 of the record, and no other.
    fn store(&mut self, i: usize, new: Page) -> Result<(), StorageFault>
        ensures answer { result ≡ stored self.old.count i (left_in self.old.bytes.items self.old.count i) 0 }
        ensures pages { page_in self.new.bytes.items self.new.count ≡ (if is_ok result then updated (page_in self.old.bytes.items self.old.count) i new else page_in self.old.bytes.items self.old.count) }
        ensures lefts { left_in self.new.bytes.items self.new.count ≡ (if is_ok result then updated (left_in self.old.bytes.items self.old.count) i (left_in self.old.bytes.items self.old.count i - 1) else left_in self.old.bytes.items self.old.count) }
        ensures size { self.new.count ≡ self.old.count }
        ensures bytes { self.new.bytes.items ≡ (if is_ok result then file_stored self.old.bytes.items self.old.count i new else self.old.bytes.items) }
    {
        let cell = self.record(i)?.stored(i, new)?;
        self.put(i, cell);
        Ok(())
    }
}
