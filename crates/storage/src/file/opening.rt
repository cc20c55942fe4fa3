// Opening a file: whether bytes are a file for a kind of entry, and of how many replicas.
ghost use Rattle.std.specs.Prelude.{◌≡◌, ℕ, ◌<◌, true, length, IfNone, is_ok, Ok, MatchOption, slice_index};
ghost use Rattle.storage.specs.Files.{Accepted, RightPair, count_in, file_held, file_length, file_of, record_in};
ghost use Rattle.storage.specs.Opened.{NamesWrong, open_number, opened, pair_fits, wrong_pair};

use crate::entry::Entry;
use crate::file::layout::Layout;
use crate::file::parts::bytes_at;

// Why bytes are no file for a kind of entry.
#[derive(Clone, Copy, PartialEq, Eq, Debug)]
pub enum OpenRefusal {
    // too short for a head, or not as long as the head says
    Length,
    // no number of replicas from 1 to 15, or a byte that is not zero
    Header,
    // a file for another kind of entry
    Kind,
    // this pair does not say where its record lies, or how long that is
    Pair(usize),
}

impl OpenRefusal {
    // By a match: an enum with a variant that holds a value has no numbers of its own.
    pub fn number(self) -> u8
        ensures { result ≡ open_number self }
    {
        match self {
            OpenRefusal::Length => 1,
            OpenRefusal::Header => 2,
            OpenRefusal::Kind => 3,
            OpenRefusal::Pair(_) => 4,
        }
    }
}

// The first wrong pair, where the head and the length are right. If none is wrong, the bytes are
// the file of the records that they have.
fn wrong_pair(bytes: &[u8], layout: Layout) -> Option<usize>
    requires count { layout.count ≡ count_in bytes.now }
    requires zeros { (slice_index bytes.now 2 ≡ 0) × (slice_index bytes.now 3 ≡ 0) }
    requires size { length bytes.now ≡ file_length layout.count }
    ensures first { result ≡ wrong_pair bytes.now }
    ensures right { MatchOption result ((i : ℕ) → i < layout.count → RightPair bytes.now i) (λ i. (i < layout.count) × (RightPair bytes.now i → ⊥)) }
    ensures same { IfNone result (file_held bytes.now layout.count ≡ bytes.now) }
{
    (0..layout.count).find(|&i| !pair_fits(bytes, layout, i))
}

// Whether pair i says where the record of replica i lies, and how long that is.
fn pair_fits(bytes: &[u8], layout: Layout, i: usize) -> bool
    requires count { layout.count ≡ count_in bytes.now }
    requires size { length bytes.now ≡ file_length layout.count }
    requires inside { i < layout.count }
    ensures { result ≡ pair_fits bytes.now i }
{
    // the two places that `put_pairs` writes, each no more than a sum
    let offset = u32::from_le_bytes(bytes_at(bytes, 4 + 8 * i)) as usize;
    let size = u32::from_le_bytes(bytes_at(bytes, 8 + 8 * i));
    offset == layout.place(i) && size == 36
}

// How many replicas the file has. It judges no record: any 36 bytes are one.
pub fn open<E: Entry>(bytes: &[u8]) -> Result<usize, OpenRefusal>
    ensures answer { result ≡ opened E.KIND bytes.now }
    ensures only { is_ok result ≡ true → Accepted E.KIND bytes.now }
    ensures every { Accepted E.KIND bytes.now → result ≡ Ok (count_in bytes.now) }
    ensures pair { NamesWrong bytes.now result }
    ensures same { is_ok result ≡ true → file_of (count_in bytes.now) E.KIND (record_in bytes.now (count_in bytes.now)) ≡ bytes.now }
{
    let [count, kind, zero_a, zero_b, ..] = bytes else {
        return Err(OpenRefusal::Length);
    };
    let layout = Layout::of(usize::from(*count)).ok_or(OpenRefusal::Header)?;
    if *zero_a != 0 || *zero_b != 0 {
        return Err(OpenRefusal::Header);
    }
    if bytes.len() != layout.length() {
        return Err(OpenRefusal::Length);
    }
    if *kind != E::KIND {
        return Err(OpenRefusal::Kind);
    }
    match wrong_pair(bytes, layout) {
        None => Ok(layout.count),
        Some(i) => Err(OpenRefusal::Pair(i)),
    }
}
