// The parts of a file, written into bytes that have room for it.
ghost use Rattle.std.specs.Prelude.{◌≡◌, ℕ, ◌+◌, ◌*◌, ◌<◌, ◌≤◌, length};
ghost use Rattle.storage.specs.ByteNumbers.{overwritten};
ghost use Rattle.storage.specs.Files.{Keeps, file_length, file_of, pairs_bytes, records_bytes};
ghost use Rattle.storage.specs.Memories.{blank_cell};
ghost use Rattle.storage.specs.Records.{Fit, records_with};
ghost use Rattle.storage.specs.declared.stable.memory.Cell.{Cell as CellOf};

use crate::file::layout::Layout;
use crate::file::parts::put;
use crate::file::records::put_record;
use crate::stable::Storage;
use crate::stable::memory::Cell;

// The records that a file is written with, one for each replica.
pub(crate) trait Records {
    ghost count: { Self → ℕ };

    ghost cell: { Self → ℕ → CellOf };

    fn count(&self) -> usize
        ensures { result ≡ count self.now };

    fn cell(&self, i: usize) -> Cell
        requires { i < count self.now }
        ensures { result ≡ cell self.now i };
}

// Those of replicas that have stored nothing and may store so often.
#[derive(Clone, Copy)]
pub(crate) struct Blank {
    pub(crate) count: usize,
    pub(crate) stores: u32,
}

impl Records for Blank {
    ghost count = { λ b. b.count };

    ghost cell = { λ b _. blank_cell b.stores };

    fn count(&self) -> usize {
        self.count
    }

    fn cell(&self, _i: usize) -> Cell {
        Cell::blank(self.stores)
    }
}

// Those of a storage.
impl<S: Storage> Records for S {
    ghost count = { S.replicas };

    ghost cell = { λ s. records_with (S.page s) (S.left s) };

    fn count(&self) -> usize {
        self.replicas()
    }

    fn cell(&self, i: usize) -> Cell {
        let page = self.page(i).unwrap();
        let left = self.stores_left(i).unwrap();
        Cell { page, left }
    }
}

// Writes the pairs of all replicas.
fn put_pairs(bytes: &mut [u8], layout: Layout)
    requires { 4 + 8 * layout.count ≤ length bytes.old }
    ensures { bytes.new ≡ overwritten bytes.old 4 (pairs_bytes layout.count) }
{
    // A range: the number says what the pair holds and where it lies, and of chunks that are lent
    // for writing a proof would know no more than the length.
    for i in 0..layout.count {
        put(bytes, 4 + 8 * i, &(layout.place(i) as u32).to_le_bytes());
        put(bytes, 8 + 8 * i, &36u32.to_le_bytes());
    }
}

// Writes the records of all replicas.
fn put_records<R: Records>(bytes: &mut [u8], layout: Layout, records: &R)
    requires count { layout.count ≡ R.count records.now }
    requires room { file_length layout.count ≤ length bytes.old }
    ensures after { bytes.new ≡ overwritten bytes.old (4 + 8 * layout.count) (records_bytes (R.cell records.now) layout.count) }
    ensures fits { (i : ℕ) → i < layout.count → Fit (R.cell records.now i) }
{
    // A range, as above.
    for i in 0..layout.count {
        put_record(bytes, layout.place(i), records.cell(i));
    }
}

// The file of a kind of entry with these records, over all the bytes.
pub(crate) fn fill<R: Records>(bytes: &mut [u8], layout: Layout, kind: u8, records: &R)
    requires count { layout.count ≡ R.count records.now }
    requires size { length bytes.old ≡ file_length layout.count }
    ensures after { bytes.new ≡ file_of layout.count kind (R.cell records.now) }
    ensures kept { Keeps layout.count kind (R.cell records.now) bytes.new }
{
    put(bytes, 0, &[layout.count as u8, kind, 0, 0]);
    put_pairs(bytes, layout);
    put_records(bytes, layout, records);
}
