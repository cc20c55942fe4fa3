// One lot, from a blank storage to a quota that is used up.
ghost use Rattle.std.specs.Prelude.{◌≡◌, is_ok, if◌then◌else◌};
ghost use Rattle.storage.specs.Bids.{bid_code};
ghost use Rattle.storage.specs.Storages.{stored, updated};
ghost use Rattle.transfer.specs.Walks.{offer_or_open, with_written};

use crate::table::{page_and_left, show_pages};
use crate::words::InWords;
use std::io;
use storage::file::opening::open;
use storage::file::writing::write;
use storage::stable::memory::Cell;
use storage::{
    Bid, Buyer, Entry, FileStorage, MemoryStorage, Page, Price, QuotaStorage, Storage,
    StorageFault, Timestamp,
};

// The replica whose page the walk stores.
const REPLICA: u32 = 1;

pub fn follow(rt: &HostRuntime, memory: MemoryStorage) -> io::Result<()> {
    println!(rt; "A blank storage in memory: three offices, five stores for each.")?;
    let mut quota = QuotaStorage::over(memory, &[4, 2, 3]);
    println!(rt; "A quota over it: four stores for office 0, two for 1, three for 2.")?;
    for sequence in 1..=5 {
        let bid = bid_of(1_250 + 25 * sequence, 17);
        println!(rt; "Office {REPLICA} stores {}.", InWords(bid))?;
        match store_bid(&mut quota, sequence, &bid) {
            Ok(()) => read_back(rt, &quota)?,
            Err(fault) => {
                println!(rt; "  Refused: {}.", InWords(fault))?;
                break;
            }
        }
    }
    println!(rt; "All pages, under the quota:")?;
    show_pages::<Bid, _>(rt, &quota)?;
    let memory = quota.into_below();
    println!(rt; "All pages, the quota taken off:")?;
    show_pages::<Bid, _>(rt, &memory)?;
    send(rt, &memory)
}

// A bid of so many cents by a buyer, or an open one where there is no such price or buyer.
fn bid_of(cents: u32, buyer: u16) -> Bid
    ensures { result ≡ offer_or_open cents buyer }
{
    let (Some(price), Some(buyer)) = (Price::new(cents), Buyer::new(buyer)) else {
        return Bid::Open;
    };
    Bid::Offer { price, buyer }
}

// Stores a page with this bid as the newest entry that the replica has kept.
fn store_bid<S: Storage>(storage: &mut S, sequence: u32, bid: &Bid) -> Result<(), StorageFault>
    ensures answer { result ≡ stored (S.replicas storage.old) 1 (S.left storage.old 1) (S.layer storage.old 1) }
    ensures pages { S.page storage.new ≡ (if is_ok result then updated (S.page storage.old) 1 (with_written (S.page storage.old 1) sequence 1 (bid_code bid.now)) else S.page storage.old) }
{
    let mut page = storage.page(REPLICA as usize)?;
    page.written.timestamp = Timestamp {
        sequence,
        replica: REPLICA,
    };
    page.written.code = bid.code();
    storage.store(REPLICA as usize, page)
}

// Prints what the replica has kept now.
fn read_back<S: Storage>(rt: &HostRuntime, storage: &S) -> io::Result<()> {
    match page_and_left(storage, REPLICA as usize) {
        Ok(Cell { page, left }) => {
            let written = InWords(page.written.timestamp);
            match Bid::decode(page.written.code) {
                Some(bid) => println!(rt;
                    "  Read back: mark {written}, {}; stores left {left}.",
                    InWords(bid)
                ),
                None => println!(rt; "  Read back: mark {written}, no bid; stores left {left}."),
            }
        }
        Err(fault) => println!(rt; "  Refused: {}.", InWords(fault)),
    }
}

// Writes the pages to a file in memory, opens it, takes it as a storage, and compares.
fn send<S: Storage>(rt: &HostRuntime, storage: &S) -> io::Result<()> {
    let mut file = vec![in rt.alloc(); 0u8; 136]?;
    if let Err(refusal) = write::<Bid, S>(storage, &mut file) {
        return println!(rt; "No file was written: {}.", InWords(refusal));
    }
    println!(rt; "Written to a file of 136 bytes.")?;
    match open::<Bid>(&file) {
        Ok(n) => println!(rt; "Opened: {n} offices.")?,
        Err(refusal) => return println!(rt; "Refused: {}.", InWords(refusal)),
    }
    let taken = FileStorage::take::<Bid>(file);
    if same_pages(storage, &taken) {
        println!(rt; "Taken as a storage: every page and number of stores is the same.")
    } else {
        println!(rt; "Taken as a storage: a page differs.")
    }
}

// Whether two storages have the same replicas, pages and stores left.
fn same_pages<S: Storage, T: Storage>(one: &S, other: &T) -> bool {
    one.replicas() == other.replicas()
        && (0..one.replicas()).all(|i| page_and_left(one, i) == page_and_left(other, i))
}
