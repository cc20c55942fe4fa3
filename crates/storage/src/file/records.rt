// The record of a replica: how many stores it has left, and its page, in 36 bytes.
ghost use Rattle.std.specs.Prelude.{◌≡◌, ◌+◌, ◌≤◌, length};
ghost use Rattle.storage.specs.ByteNumbers.{overwritten};
ghost use Rattle.storage.specs.Records.{Fit, record_at, record_bytes};

use crate::file::parts::{bytes_at, put};
use crate::page::Page;
use crate::stable::memory::Cell;
use crate::stamped::Stamped;
use crate::timestamp::Timestamp;

// The record in the 36 bytes from k on.
pub(crate) fn record_at(bytes: &[u8], k: usize) -> Cell
    requires { k + 36 ≤ length bytes.now }
    ensures { result ≡ record_at bytes.now k }
{
    let timestamp = Timestamp {
        sequence: u32::from_le_bytes(bytes_at(bytes, k + 8)),
        replica: u32::from_le_bytes(bytes_at(bytes, k + 12)),
    };
    let page = Page {
        incarnation: u32::from_le_bytes(bytes_at(bytes, k + 4)),
        written: Stamped {
            timestamp,
            code: u64::from_le_bytes(bytes_at(bytes, k + 16)),
        },
        intended_sequence: u32::from_le_bytes(bytes_at(bytes, k + 24)),
        intended_code: u64::from_le_bytes(bytes_at(bytes, k + 28)),
    };
    Cell {
        page,
        left: u32::from_le_bytes(bytes_at(bytes, k)),
    }
}

// Writes a record over the 36 bytes from k on, and no other.
pub(crate) fn put_record(bytes: &mut [u8], k: usize, cell: Cell)
    requires { k + 36 ≤ length bytes.old }
    ensures after { bytes.new ≡ overwritten bytes.old k (record_bytes cell) }
    ensures fits { Fit cell }
{
    put(bytes, k, &cell.left.to_le_bytes());
    put(bytes, k + 4, &cell.page.incarnation.to_le_bytes());
    put(
        bytes,
        k + 8,
        &cell.page.written.timestamp.sequence.to_le_bytes(),
    );
    put(
        bytes,
        k + 12,
        &cell.page.written.timestamp.replica.to_le_bytes(),
    );
    put(bytes, k + 16, &cell.page.written.code.to_le_bytes());
    put(bytes, k + 24, &cell.page.intended_sequence.to_le_bytes());
    put(bytes, k + 28, &cell.page.intended_code.to_le_bytes());
}
