// Writing a file into a buffer that is lent for it.
ghost use Rattle.std.specs.Prelude.{◌≡◌, true, length, is_ok, if◌then◌else◌};
ghost use Rattle.storage.specs.Files.{Keeps, file_of};
ghost use Rattle.storage.specs.Memories.{blank_cell};
ghost use Rattle.storage.specs.Records.{records_with};
ghost use Rattle.storage.specs.Written.{writable, write_number};

use crate::entry::Entry;
use crate::file::filling::{Blank, Records, fill};
use crate::file::layout::Layout;
use crate::stable::Storage;

// Why no file was written; the discriminant is the number of the refusal.
#[derive(Clone, Copy, PartialEq, Eq, Debug)]
pub enum WriteRefusal {
    Length = 1,
    ReplicaCount = 5,
}

impl WriteRefusal {
    // A method and no conversion: callers name it, and a `From` beside it would say the same twice.
    pub fn number(self) -> u8
        ensures { result ≡ write_number self }
    {
        self as u8
    }
}

// Writes the file that has these records. A refused call changes nothing.
fn write_records<E: Entry, R: Records>(records: &R, buffer: &mut [u8]) -> Result<(), WriteRefusal>
    ensures answer { result ≡ writable (R.count records.now) (length buffer.old) }
    ensures bytes { buffer.new ≡ (if is_ok result then file_of (R.count records.now) E.KIND (R.cell records.now) else buffer.old) }
    ensures kept { is_ok result ≡ true → Keeps (R.count records.now) E.KIND (R.cell records.now) buffer.new }
{
    let layout = Layout::of(records.count()).ok_or(WriteRefusal::ReplicaCount)?;
    if buffer.len() != layout.length() {
        return Err(WriteRefusal::Length);
    }
    fill(buffer, layout, E::KIND, records);
    Ok(())
}

// Writes the file of n replicas that have stored nothing and may store so often. A refused call
// changes nothing.
pub fn write_blank<E: Entry>(n: usize, stores: u32, buffer: &mut [u8]) -> Result<(), WriteRefusal>
    ensures answer { result ≡ writable n (length buffer.old) }
    ensures bytes { buffer.new ≡ (if is_ok result then file_of n E.KIND (λ _. blank_cell stores) else buffer.old) }
    ensures kept { is_ok result ≡ true → Keeps n E.KIND (λ _. blank_cell stores) buffer.new }
{
    write_records::<E, Blank>(&Blank { count: n, stores }, buffer)
}

// Writes the file of a storage's pages and of the stores that they have left. A refused call
// changes nothing.
pub fn write<E: Entry, S: Storage>(storage: &S, buffer: &mut [u8]) -> Result<(), WriteRefusal>
    ensures answer { result ≡ writable (S.replicas storage.now) (length buffer.old) }
    ensures bytes { buffer.new ≡ (if is_ok result then file_of (S.replicas storage.now) E.KIND (records_with (S.page storage.now) (S.left storage.now)) else buffer.old) }
    ensures kept { is_ok result ≡ true → Keeps (S.replicas storage.now) E.KIND (records_with (S.page storage.now) (S.left storage.now)) buffer.new }
{
    write_records::<E, S>(storage, buffer)
}
